//! The calls on operations and on parts of them that whole documents reach only through one another.
use super::fixtures::{name, query_of_itself, reports, schema_of};
use graphql_diagnostics::DiagnosticList;
use graphql_documents::documents::{
    ExecutableDocument, Fragment, Operation, Schema, Selection, SelectionSet,
};
use graphql_hash_seeds::HashSeed;
use graphql_nodes::{NamedType, Node, ValidationError};
use graphql_notation::build::document;
use graphql_operations::{
    FragmentUse, OperationValidationContext, validate_fragment_spread_type,
    validate_fragment_type_condition, validate_fragments_used,
};
use graphql_rules::operations::{
    validate_field, validate_fragment_definition, validate_fragment_spread,
    validate_inline_fragment, validate_leaf_field_selection, validate_operation,
    validate_operation_definitions, validate_selection_set,
};
use graphql_variables::VariablesByName;
use std::alloc::Global;
use std::process::Abort;

/// A document of this text.
fn document_of(
    rt: &impl Abort,
    alloc: Global,
    schema: &Schema,
    written: &str,
) -> ExecutableDocument {
    document(alloc, schema, written).expect(rt, "a document")
}

/// The first named operation.
fn first_named<'a>(rt: &impl Abort, document: &'a ExecutableDocument) -> &'a Operation {
    let (_, operation) = document.operations.named.first().expect(rt, "an operation");
    &operation.value
}

/// The lines of both calls on operations, the first of which takes the first alone.
const OPERATIONS: &str = "- cannot find directive `@x` in this document\n\
    - cannot find directive `@x` in this document\n\
    - cannot find directive `@y` in this document\n";

#[test]
fn operations_are_validated_alone_and_together(rt: HostRuntime) {
    let alloc = rt.alloc();
    let schema = query_of_itself(&rt, alloc);
    let built = document_of(&rt, alloc, &schema.0, "query A { a @x } query B { a @y }");
    let operation = first_named(&rt, &built);
    let mut found = DiagnosticList::new(alloc);
    let one = validate_operation(&mut found, &built, operation, Some(&schema.0));
    one.expect(&rt, "memory for reports");
    let all = validate_operation_definitions(&mut found, &built, Some(&schema.0));
    all.expect(&rt, "memory for reports");
    reports(&rt, alloc, &found, OPERATIONS);
}

/// A selection of each kind, each of which breaks a rule whatever is around it.
const SELECTIONS: &str = "{ a @x ... on Int { ...N } ...F @y } fragment F on Query @z { a }";

/// What is reported of those selections.
const OF_SELECTIONS: &str = "- cannot find directive `@x` in this document\n\
    - inline fragment must have a composite type in its type condition\n\
    - cannot find directive `@y` in this document\n\
    - cannot find directive `@z` in this document\n";

/// The set of the one operation.
fn set_of<'a>(rt: &impl Abort, document: &'a ExecutableDocument) -> &'a SelectionSet {
    let operation = document.operations.anonymous.as_ref();
    &operation.expect(rt, "an operation").value.selection_set
}

/// Validates a selection by the call of its kind.
fn validate_selection<'a>(
    found: &mut DiagnosticList,
    document: &'a ExecutableDocument,
    schema: &'a Schema,
    selection: &'a Selection,
) -> Result<(), ValidationError> {
    let variables = VariablesByName::new(found.allocator(), found.hash_seed(), &[])?;
    let mut context = OperationValidationContext::new(
        found.allocator(),
        found.hash_seed(),
        Some(schema),
        variables,
    );
    match selection {
        Selection::Field(field) => validate_field(found, document, None, field, &mut context),
        Selection::InlineFragment(inline) => {
            validate_inline_fragment(found, document, None, inline, &mut context)
        }
        Selection::FragmentSpread(spread) => {
            validate_fragment_spread(found, document, None, spread, &mut context)
        }
    }
}

/// Validates all selections of a set by one call.
fn validate_set<'a>(
    found: &mut DiagnosticList,
    document: &'a ExecutableDocument,
    schema: &'a Schema,
    set: &'a SelectionSet,
) -> Result<(), ValidationError> {
    let variables = VariablesByName::new(found.allocator(), found.hash_seed(), &[])?;
    let mut context = OperationValidationContext::new(
        found.allocator(),
        found.hash_seed(),
        Some(schema),
        variables,
    );
    validate_selection_set(found, document, None, set, &mut context)
}

/// Validates a fragment by itself.
fn validate_fragment<'a>(
    found: &mut DiagnosticList,
    document: &'a ExecutableDocument,
    schema: &'a Schema,
    fragment: &'a Node<Fragment>,
) -> Result<(), ValidationError> {
    let variables = VariablesByName::new(found.allocator(), found.hash_seed(), &[])?;
    let mut context = OperationValidationContext::new(
        found.allocator(),
        found.hash_seed(),
        Some(schema),
        variables,
    );
    validate_fragment_definition(found, document, fragment, &mut context)
}

#[test]
fn selections_are_validated_by_their_kinds(rt: HostRuntime) {
    let alloc = rt.alloc();
    let schema = query_of_itself(&rt, alloc);
    let built = document_of(&rt, alloc, &schema.0, SELECTIONS);
    let mut found = DiagnosticList::new(alloc);
    for selection in &set_of(&rt, &built).selections {
        let one = validate_selection(&mut found, &built, &schema.0, selection);
        one.expect(&rt, "memory for reports");
    }
    reports(&rt, alloc, &found, OF_SELECTIONS);
}

#[test]
fn selections_are_validated_together(rt: HostRuntime) {
    let alloc = rt.alloc();
    let schema = query_of_itself(&rt, alloc);
    let built = document_of(&rt, alloc, &schema.0, SELECTIONS);
    let mut found = DiagnosticList::new(alloc);
    let all = validate_set(&mut found, &built, &schema.0, set_of(&rt, &built));
    all.expect(&rt, "memory for reports");
    reports(&rt, alloc, &found, OF_SELECTIONS);
}

#[test]
fn a_fragment_is_validated_by_itself(rt: HostRuntime) {
    let alloc = rt.alloc();
    let schema = query_of_itself(&rt, alloc);
    let built = document_of(&rt, alloc, &schema.0, "fragment F on Query @z { ...F }");
    let (_, fragment) = built.fragments.first().expect(&rt, "a fragment");
    let mut found = DiagnosticList::new(alloc);
    let one = validate_fragment(&mut found, &built, &schema.0, fragment);
    one.expect(&rt, "memory for reports");
    reports(
        &rt,
        alloc,
        &found,
        "- cannot find directive `@z` in this document\n\
            - `F` fragment cannot reference itself\n",
    );
}

/// Whether the field has the selection that its type needs.
fn has_needed_selection(
    rt: &impl Abort,
    found: &mut DiagnosticList,
    schema: &Schema,
    parent: &NamedType,
    selection: &Selection,
) -> bool {
    let Selection::Field(field) = selection else {
        panic!(rt; "a field was expected");
    };
    let ty = &field.value.definition.value.ty;
    let answer = validate_leaf_field_selection(found, schema, parent, field, ty);
    answer.expect(rt, "memory for a report")
}

/// Whether each field of `{ a q }` has the selection that its type needs.
const NEEDED: &[bool] = &[true, false];

#[test]
fn fields_of_composite_types_need_selections(rt: HostRuntime) {
    let alloc = rt.alloc();
    let schema = query_of_itself(&rt, alloc);
    let built = document_of(&rt, alloc, &schema.0, "{ a q }");
    let set = set_of(&rt, &built);
    let mut found = DiagnosticList::new(alloc);
    for (selection, expected) in set.selections.iter().zip(NEEDED) {
        let answer = has_needed_selection(&rt, &mut found, &schema.0, &set.ty, selection);
        assert_eq!(rt; answer, *expected);
    }
    reports(
        &rt,
        alloc,
        &found,
        "- interface, union and object types must have a subselection set\n",
    );
}

#[test]
fn unused_fragments_are_reported_in_order(rt: HostRuntime) {
    let alloc = rt.alloc();
    let schema = query_of_itself(&rt, alloc);
    let written = "{ ...G } fragment F on Query { a } fragment G on Query { a } \
        fragment H on Query { ...F }";
    let built = document_of(&rt, alloc, &schema.0, written);
    let mut found = DiagnosticList::new(alloc);
    validate_fragments_used(&mut found, &built).expect(&rt, "memory for reports");
    reports(
        &rt,
        alloc,
        &found,
        "- fragment `F` must be used in an operation\n\
            - fragment `H` must be used in an operation\n",
    );
}

#[test]
fn type_conditions_are_composite(rt: HostRuntime) {
    let alloc = rt.alloc();
    let schema = query_of_itself(&rt, alloc);
    let condition = name(&rt, alloc, "Int");
    let mut found = DiagnosticList::new(alloc);
    let own = Some(name(&rt, alloc, "F"));
    let one = validate_fragment_type_condition(&mut found, &schema.0, own, &condition, None);
    one.expect(&rt, "memory for a report");
    reports(
        &rt,
        alloc,
        &found,
        "- fragment `F` must have a composite type in its type condition\n",
    );
}

/// Reports an inline fragment with a condition that is impossible on the type around it.
fn validate_use(
    found: &mut DiagnosticList,
    schema: &Schema,
    around: &NamedType,
    condition: &NamedType,
    fragment: FragmentUse<'_>,
) -> Result<(), ValidationError> {
    let variables = VariablesByName::new(found.allocator(), found.hash_seed(), &[])?;
    let mut context = OperationValidationContext::new(
        found.allocator(),
        found.hash_seed(),
        Some(schema),
        variables,
    );
    validate_fragment_spread_type(found, schema, around, condition, fragment, &mut context)
}

#[test]
fn fragments_are_possible_where_they_stand(rt: HostRuntime) {
    let alloc = rt.alloc();
    let schema = schema_of(&rt, alloc, "type Query { a: Int } type E { m: Int }");
    let built = document_of(&rt, alloc, &schema.0, "{ ... on E { m } }");
    let set = set_of(&rt, &built);
    let Some(Selection::InlineFragment(inline)) = set.selections.first() else {
        panic!(rt; "an inline fragment was expected");
    };
    let condition = &inline.value.selection_set.ty;
    let mut found = DiagnosticList::new(alloc);
    let fragment = FragmentUse::Inline(inline);
    let one = validate_use(&mut found, &schema.0, &set.ty, condition, fragment);
    one.expect(&rt, "memory for a report");
    reports(
        &rt,
        alloc,
        &found,
        "- inline fragment with type condition `E` cannot be applied to `Query`\n",
    );
}

#[test]
fn each_operation_goes_into_a_fragment_once(rt: HostRuntime) {
    let alloc = rt.alloc();
    let fragment = name(&rt, alloc, "F");
    let variables = VariablesByName::new(alloc, HashSeed::default(), &[]).expect(
        &rt,
        "memory for no variables",
    );
    let mut context = OperationValidationContext::new(alloc, HashSeed::default(), None, variables);
    assert!(rt; context.enter(&fragment).expect(&rt, "memory for a name"));
    assert!(rt; !context.enter(&fragment).expect(&rt, "memory for a name"));
    let variables = VariablesByName::new(alloc, HashSeed::default(), &[]).expect(
        &rt,
        "memory for no variables",
    );
    let mut next = context.next(alloc, variables);
    assert!(rt; next.enter(&fragment).expect(&rt, "memory for a name"));
}
