//! Operations, fragments and what they select.

use crate::directives::{Argument, Directive};
use crate::types::TypeReference;
use crate::values::{Value, Variable};
use graphql_nodes::{Name, OperationType, SourceSpan};
use sqlite_items::{Boxed, Items};

/// An operation. A selection set alone is a query.
///
/// Specification: 2.3 Operations.
#[derive(Drop)]
pub struct OperationDefinition {
    pub operation_type: OperationType,
    pub name: Option<Name>,
    pub variables: Items<VariableDefinition>,
    pub directives: Items<Directive>,
    pub selection_set: SelectionSet,
    pub span: SourceSpan,
}

/// The definition of a variable of an operation.
///
/// Specification: 2.10 Variables.
#[derive(Drop)]
pub struct VariableDefinition {
    pub variable: Variable,
    pub type_reference: TypeReference,
    pub default_value: Option<Boxed<Value>>,
    pub directives: Items<Directive>,
    pub span: SourceSpan,
}

/// A selection set, with its braces.
///
/// Specification: 2.4 Selection Sets.
#[cycle(selections)]
#[derive(Drop)]
pub struct SelectionSet {
    pub selections: Items<Selection>,
    pub span: SourceSpan,
}

/// A selection.
///
/// Specification: 2.4 Selection Sets.
#[cycle(selections)]
#[derive(Drop)]
pub enum Selection {
    Field(Field),
    FragmentSpread(FragmentSpread),
    InlineFragment(InlineFragment),
}

/// A field.
///
/// Specification: 2.5 Fields.
#[cycle(selections)]
#[derive(Drop)]
pub struct Field {
    pub alias: Option<Boxed<Name>>,
    pub name: Name,
    pub arguments: Items<Argument>,
    pub directives: Items<Directive>,
    pub selection_set: Option<Boxed<SelectionSet>>,
    pub span: SourceSpan,
}

/// A spread of a fragment.
///
/// Specification: 2.8 Fragments.
#[derive(Drop)]
pub struct FragmentSpread {
    pub name: Name,
    pub directives: Items<Directive>,
    pub span: SourceSpan,
}

/// An inline fragment.
///
/// Specification: 2.8.2 Inline Fragments.
#[cycle(selections)]
#[derive(Drop)]
pub struct InlineFragment {
    pub type_condition: Option<Name>,
    pub directives: Items<Directive>,
    pub selection_set: SelectionSet,
    pub span: SourceSpan,
}

/// The definition of a fragment.
///
/// Specification: 2.8 Fragments.
#[derive(Drop)]
pub struct FragmentDefinition {
    pub name: Name,
    pub type_condition: Name,
    pub directives: Items<Directive>,
    pub selection_set: SelectionSet,
    pub span: SourceSpan,
}
