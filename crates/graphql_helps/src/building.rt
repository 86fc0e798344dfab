//! What helps with reports of building.

ghost use Rattle.std.specs.Prelude.{IfOk, IfSome};
ghost use Rattle.graphql_helps.specs.Helps.{HelpsWithBuilding, IsFieldHelp};

use crate::field_types::types_with_field;
use crate::helps::{Help, did_you_mean};
use graphql_building_reports::BuildingRule;
use graphql_documents::documents::Schema;
use graphql_nodes::{Name, ValidationError};
use graphql_suggestions::{like_field, like_type};
use std::alloc::Global;

/// What helps with a text that breaks a rule of building, if something does: names of the schema that are like one that is not
/// defined, or the types of an abstract type that have the field. The only error is a failed allocation.
pub fn help_of_building<'a>(
    alloc: Global,
    schema: &Schema,
    rule: &'a BuildingRule,
) -> Result<Option<Help<'a>>, ValidationError>
    ensures { IfOk result (λ help. IfSome help (HelpsWithBuilding schema.now rule.now)) }
{
    match rule {
        BuildingRule::UndefinedField {
            type_name,
            field_name,
        } => help_of_field(alloc, schema, type_name, field_name),
        BuildingRule::UndefinedTypeInNamedFragmentTypeCondition { type_name, .. } => {
            Ok(did_you_mean(like_type(alloc, schema, type_name)?))
        }
        BuildingRule::UndefinedTypeInInlineFragmentTypeCondition { type_name } => {
            Ok(did_you_mean(like_type(alloc, schema, type_name)?))
        }
        BuildingRule::BuiltInScalarTypeRedefinition => Ok(Some(Help::LeaveOut)),
        _ => Ok(None),
    }
}

/// What helps with a field that this type does not have: the types that do, if values of this type may be of them; else fields of a like name.
fn help_of_field<'a>(
    alloc: Global,
    schema: &Schema,
    type_name: &Name,
    field_name: &'a Name,
) -> Result<Option<Help<'a>>, ValidationError>
    ensures { IfOk result (λ help. IfSome help (IsFieldHelp schema.now type_name.now field_name.now)) }
{
    let types = types_with_field(alloc, schema, type_name, field_name)?;
    if types.is_empty() {
        Ok(did_you_mean(like_field(alloc, schema, type_name, field_name)?))
    } else {
        Ok(Some(Help::OnTypes {
            field: field_name,
            types,
        }))
    }
}
