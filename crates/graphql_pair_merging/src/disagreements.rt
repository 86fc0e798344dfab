//! Two fields in sets that come together: whether they are put together, and what they do not agree on.

ghost use Rattle.std.specs.Prelude.{◌≡◌, ◌↔◌, ◌∷◌, [], IfOk, IsTrue, MatchOption};
ghost use Rattle.graphql_documents.specs.Schemas.{type_definition};
ghost use Rattle.graphql_documents.specs.declared.documents.schemas.Schema.{Schema};
ghost use Rattle.graphql_specification.specs.MergedSets.{Agree};
ghost use Rattle.graphql_specification.specs.Merging as merging;
ghost use Rattle.graphql_specification.specs.Merging.{MayOverlap, ParentsMayOverlap, SameNameAndArguments, type_of};
ghost use Rattle.graphql_field_conflicts.specs.Comparisons.{Conflicts};
ghost use Rattle.graphql_field_conflicts.specs.Conflicts.{ConflictEntryReport};
ghost use Rattle.graphql_field_conflicts.specs.FieldSelections.{selection_of};
ghost use Rattle.graphql_merging.specs.Groups.{pass_of};
ghost use Rattle.graphql_pair_merging.specs.Disagreements.{Disagrees, HasDefinition};
ghost use Rattle.graphql_pair_merging.specs.NumberedSets.{HaveNumbers, field_of};
ghost use Rattle.graphql_pair_merging.specs.Parents.{may_overlap_others};

use super::numbered_sets::NumberedField;
use graphql_diagnostics::DiagnosticList;
use graphql_documents::documents::{ExtendedType, Schema, Type};
use graphql_field_conflicts::comparisons::{
    FieldConflict, find_field_conflict, same_output_type_shape,
};
use graphql_field_conflicts::conflict_reports::{report_conflict, report_types};
use graphql_field_conflicts::field_selections::FieldSelection;
use graphql_hash_seeds::HashSeed;
use graphql_merging::groups::Pass;
use graphql_nodes::{Name, ValidationError};
use std::alloc::Global;

/// What two fields that were put together do not agree on.
#[derive(Clone, Copy, Debug)]
pub(crate) enum Disagreement<'doc> {
    /// The shapes of their types.
    Shapes,
    /// Their names, or an argument.
    NamesOrArguments(FieldConflict<'doc>),
}

/// Two fields that were put together and do not agree.
#[derive(Clone, Copy, Debug)]
pub(crate) struct Conflict<'doc> {
    pub(crate) first: FieldSelection<'doc>,
    pub(crate) second: FieldSelection<'doc>,
    pub(crate) disagreement: Disagreement<'doc>,
}

impl<'doc> Conflict<'doc> {
    /// Reports at the second field what the two do not agree on.
    pub(crate) fn report(self, diagnostics: &mut DiagnosticList) -> Result<(), ValidationError>
        requires { (schema : Schema) × (pass : merging.Pass) × Disagrees schema pass (selection_of self.first) (selection_of self.second) self.disagreement }
        ensures { (schema : Schema) (pass : merging.Pass) →
            Disagrees schema pass (selection_of self.entry.first) (selection_of self.entry.second) self.entry.disagreement →
            ConflictEntryReport result schema pass (selection_of self.entry.first) (selection_of self.entry.second) diagnostics.old diagnostics.new }
    {
        match self.disagreement {
            Disagreement::Shapes => report_types(diagnostics, self.first, self.second),
            Disagreement::NamesOrArguments(conflict) => {
                report_conflict(diagnostics, self.first, self.second, conflict)
            }
        }
    }
}

/// What two fields do not agree on in this pass, if they do not. The only error is a failed allocation.
pub(crate) fn disagreement_of<'doc>(
    alloc: Global,
    hash_seed: HashSeed,
    schema: &Schema,
    pass: Pass,
    first: NumberedField<'doc>,
    second: NumberedField<'doc>,
) -> Result<Option<Disagreement<'doc>>, ValidationError>
    ensures { HaveNumbers (first.entry ∷ second.entry ∷ []) → IfOk result (λ found. MatchOption found
        (Agree schema.now (pass_of pass) (field_of first.entry) (field_of second.entry))
        (Disagrees schema.now (pass_of pass) (field_of first.entry) (field_of second.entry))) }
{
    match pass {
        Pass::Shapes if same_output_type_shape(schema, first.field, second.field) => Ok(None),
        Pass::Shapes => Ok(Some(Disagreement::Shapes)),
        Pass::NamesAndArguments => match find_conflict(alloc, hash_seed, first, second)? {
            None => Ok(None),
            Some(conflict) => Ok(Some(Disagreement::NamesOrArguments(conflict))),
        },
    }
}

/// What the names or arguments of two fields disagree on, if they do. Where the numbers of their arguments are equal,
/// these are not looked at.
fn find_conflict<'doc>(
    alloc: Global,
    hash_seed: HashSeed,
    first: NumberedField<'doc>,
    second: NumberedField<'doc>,
) -> Result<Option<FieldConflict<'doc>>, ValidationError>
    ensures { HaveNumbers (first.entry ∷ second.entry ∷ []) → IfOk result (λ found. MatchOption found
        (SameNameAndArguments first.entry.field.field.now.value.value second.entry.field.field.now.value.value)
        (Conflicts first.entry.field.field.now.value.value second.entry.field.field.now.value.value)) }
{
    if first.arguments == second.arguments
        && first.field.field.value.name == second.field.field.value.name
    {
        return Ok(None);
    }
    Ok(find_field_conflict(alloc, hash_seed, first.field, second.field)?)
}

/// Whether one object can be of the types of both sets.
pub(crate) fn parents_may_overlap(
    schema: &Schema,
    first: FieldSelection,
    second: FieldSelection,
) -> bool
    ensures { IsTrue result ↔ ParentsMayOverlap schema.now (selection_of first.entry) (selection_of second.entry) }
{
    match (
        schema.types.get(first.parent_type),
        schema.types.get(second.parent_type),
    ) {
        (Some(first), Some(second)) => may_overlap(first, second),
        _ => false,
    }
}

/// Whether one object can be of both types.
fn may_overlap(first: &ExtendedType, second: &ExtendedType) -> bool
    ensures { IsTrue result ↔ MayOverlap first.now second.now }
{
    match (first, second) {
        (ExtendedType::Object(first), ExtendedType::Object(second)) => {
            first.value.name == second.value.name
        }
        _ => first.is_composite() && second.is_composite(),
    }
}

/// Whether an object of the type under this name may be of a type under another name too: if the type is abstract, or an
/// object type that has another name of its own.
pub(crate) fn may_overlap_others(schema: &Schema, name: &Name) -> bool
    ensures { result ≡ may_overlap_others name.now (type_definition schema.now name.now) }
{
    match schema.types.get(name) {
        Some(ExtendedType::Object(object)) => object.value.name != *name,
        Some(other) => other.is_composite(),
        None => false,
    }
}

/// Whether the type of a field is defined, inside its lists.
pub(crate) fn has_defined_type(schema: &Schema, field: FieldSelection) -> bool
    ensures { IsTrue result → HasDefinition schema.now (type_of (selection_of field.entry)) }
{
    is_defined(schema, &field.field.value.definition.value.ty)
}

/// Whether a type is defined, inside its lists.
fn is_defined(schema: &Schema, ty: &Type) -> bool
    ensures { IsTrue result → HasDefinition schema.now ty.now }
{
    schema.types.contains_key(ty.inner_named_type())
}
