//! What helps with reports of validation.

ghost use Rattle.std.specs.Prelude.{IfOk, IfSome};
ghost use Rattle.graphql_helps.specs.Helps.{HelpsWithDetails, HelpsWithDiagnostic, IsArgumentHelp};

use crate::helps::{Help, did_you_mean};
use graphql_coordinates::SchemaCoordinate;
use graphql_diagnostics::{Details, DiagnosticData};
use graphql_documents::documents::Schema;
use graphql_nodes::{Name, ValidationError};
use graphql_suggestions::{
    like_argument, like_directive, like_directive_argument, like_enum_value, like_input_field,
    like_type,
};
use std::alloc::Global;

/// What helps with what a diagnostic reports, if something does: names of the schema that are like one that is not defined, the
/// locations of a directive, or that a field needs selections. The only error is a failed allocation.
pub fn help_of_details<'a>(
    alloc: Global,
    schema: &Schema,
    details: &'a Details,
) -> Result<Option<Help<'a>>, ValidationError>
    ensures { IfOk result (λ help. IfSome help (HelpsWithDetails schema.now details.now)) }
{
    match details {
        Details::Diagnostic(broken) => help_of_diagnostic(alloc, schema, broken),
        _ => Ok(None),
    }
}

fn help_of_diagnostic<'a>(
    alloc: Global,
    schema: &Schema,
    broken: &'a DiagnosticData,
) -> Result<Option<Help<'a>>, ValidationError>
    ensures { IfOk result (λ help. IfSome help (HelpsWithDiagnostic schema.now broken.now)) }
{
    match broken {
        DiagnosticData::UndefinedArgument {
            name,
            coordinate,
            ..
        } => help_of_argument(alloc, schema, coordinate, name),
        DiagnosticData::UndefinedDefinition { name } => {
            Ok(did_you_mean(like_type(alloc, schema, name)?))
        }
        DiagnosticData::UndefinedDirective { name } => {
            Ok(did_you_mean(like_directive(alloc, schema, name)?))
        }
        DiagnosticData::UndefinedEnumValue {
            value,
            definition,
            ..
        } => Ok(did_you_mean(like_enum_value(alloc, schema, definition, value)?)),
        DiagnosticData::UndefinedInputValue {
            value,
            definition,
            ..
        } => Ok(did_you_mean(like_input_field(alloc, schema, definition, value)?)),
        DiagnosticData::MissingSubselection {
            coordinate,
            output_type,
            ..
        } => Ok(Some(Help::Select {
            field: &coordinate.attribute,
            ty: output_type,
        })),
        DiagnosticData::UnsupportedLocation {
            valid_locations,
            ..
        } => Ok(Some(Help::Locations(valid_locations))),
        _ => Ok(None),
    }
}

/// What helps with an argument that a field or a directive does not have.
fn help_of_argument<'a>(
    alloc: Global,
    schema: &Schema,
    coordinate: &SchemaCoordinate,
    name: &Name,
) -> Result<Option<Help<'a>>, ValidationError>
    ensures { IfOk result (λ help. IfSome help (IsArgumentHelp schema.now coordinate.now name.now)) }
{
    match coordinate {
        SchemaCoordinate::TypeAttribute(field) => Ok(did_you_mean(like_argument(
            alloc,
            schema,
            &field.ty,
            &field.attribute,
            name,
        )?)),
        SchemaCoordinate::Directive(directive) => Ok(did_you_mean(like_directive_argument(
            alloc,
            schema,
            &directive.directive,
            name,
        )?)),
        _ => Ok(None),
    }
}
