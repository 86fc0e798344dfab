//! Whether a document can be built.

ghost use Rattle.std.specs.Prelude.{◌≡◌, ◌≤◌, All, Contains, IfOk, IsFalse, List, None, Some, is_none, length, option_map};
ghost use Rattle.std.specs.Option.{option_copied};
ghost use Rattle.graphql_nodes.specs.Names.{AreDistinct};
ghost use Rattle.graphql_trees.specs.declared.executable.OperationDefinition as operation_tree;
ghost use Rattle.graphql_building_reports.specs.Checks.{Checks};
ghost use Rattle.graphql_building_reports.specs.declared.rules.BuildingRule.TheVariants as rule;
ghost use Rattle.graphql_repetitions.specs.References.{nows};
ghost use Rattle.graphql_repetitions.specs.Repetitions.{RepetitionReport};
ghost use Rattle.graphql_document_building.specs.BuildingRules.{AnonymousOperationIsAlone, DocumentBuilds};
ghost use Rattle.graphql_document_building.specs.Trees.{as_named_operation, operations_in};
ghost use Rattle.graphql_document_checking.specs.DocumentReports.{AnonymousOperationReport, DocumentBuildingReport, fragment_names, operation_names};

use crate::definitions::check_definitions;
use graphql_building_reports::{BuildingReportList, BuildingRule};
use graphql_documents::documents::Schema;
use graphql_nodes::{Name, ValidationError};
use graphql_repetitions::{Repeated, check_repetitions};
use graphql_trees::{Definition, Document, OperationDefinition};
use std::alloc::Global;

/// Reports what keeps the document from being built against the schema. Nothing is reported exactly where
/// `build_document` of `graphql_document_building` may be called.
///
/// First come the operations without a name that are not alone, then the repeated names of operations, then those of
/// fragments, each in the order of the text; then what `check_definitions` reports. Old reports stay. The only error is a
/// failed allocation.
///
/// Specification: 3.3.1 Root Operation Types, 5.1.1 Executable Definitions, 5.2.1.1 Operation Name Uniqueness,
/// 5.2.2.1 Lone Anonymous Operation, 5.3.1 Field Selections, 5.3.3 Leaf Field Selections, 5.5.1.1 Fragment Name
/// Uniqueness, 5.5.1.2 Fragment Spread Type Existence, 5.5.1.3 Fragments On Composite Types.
pub fn check_document(
    reports: &mut BuildingReportList,
    schema: &Schema,
    tree: &Document,
) -> Result<(), ValidationError>
    ensures { Checks result (DocumentBuilds (Some schema.now) tree.now) (DocumentBuildingReport (Some schema.now) tree.now) reports.old reports.new }
{
    check_with_or_without_schema(reports, Some(schema), tree)
}

/// Reports what keeps the document from being built without a schema. Nothing is reported exactly where
/// `build_standalone_document` of `graphql_document_building` may be called.
///
/// Reports come in the order of `check_document`, without those that ask the schema. Old reports stay. The only error is a
/// failed allocation.
///
/// Specification: 5.1.1 Executable Definitions, 5.2.1.1 Operation Name Uniqueness, 5.2.2.1 Lone Anonymous Operation,
/// 5.5.1.1 Fragment Name Uniqueness.
pub fn check_standalone_document(
    reports: &mut BuildingReportList,
    tree: &Document,
) -> Result<(), ValidationError>
    ensures { Checks result (DocumentBuilds None tree.now) (DocumentBuildingReport None tree.now) reports.old reports.new }
{
    check_with_or_without_schema(reports, None, tree)
}

fn check_with_or_without_schema(
    reports: &mut BuildingReportList,
    schema: Option<&Schema>,
    tree: &Document,
) -> Result<(), ValidationError>
    ensures { Checks result (DocumentBuilds (option_copied schema.entry) tree.now) (DocumentBuildingReport (option_copied schema.entry) tree.now) reports.old reports.new }
{
    check_anonymous_operations(reports, tree)?;
    check_operation_names(reports, tree)?;
    check_fragment_names(reports, tree)?;
    check_definitions(reports, schema, tree.definitions.as_slice())
}

/// Checks that an operation without a name is the only one.
fn check_anonymous_operations(
    reports: &mut BuildingReportList,
    tree: &Document,
) -> Result<(), ValidationError>
    ensures { Checks result (AnonymousOperationIsAlone tree.now.definitions) (AnonymousOperationReport (operations_in tree.now.definitions)) reports.old reports.new }
{
    let operations = operations_in(reports.allocator(), tree.definitions.as_slice())?;
    if operations.len() < 2 {
        Ok(())
    } else {
        check_all_named(reports, &operations)
    }
}

/// Reports each operation without a name, of several.
fn check_all_named(
    reports: &mut BuildingReportList,
    operations: &[&OperationDefinition],
) -> Result<(), ValidationError>
    requires { 2 ≤ length operations.now }
    ensures { Checks result (All (λ x. IsFalse (is_none x.name)) (nows operations.now)) (AnonymousOperationReport (nows operations.now)) reports.old reports.new }
{
    for operation in operations {
        check_named(reports, *operation)?;
    }
    Ok(())
}

fn check_named(
    reports: &mut BuildingReportList,
    operation: &OperationDefinition,
) -> Result<(), ValidationError>
    ensures { (all : List operation_tree.OperationDefinition) → Contains all operation.now → 2 ≤ length all →
        Checks result (IsFalse (is_none operation.now.name)) (AnonymousOperationReport all) reports.old reports.new }
{
    if operation.name.is_none() {
        reports.push(
            Some(operation.span),
            BuildingRule::AmbiguousAnonymousOperation,
        )
    } else {
        Ok(())
    }
}

/// The operations among the definitions, in order.
fn operations_in<'a>(
    alloc: Global,
    trees: &'a [Definition],
) -> Result<Vec<&'a OperationDefinition>, ValidationError>
    ensures { IfOk result (λ operations. nows operations.items ≡ operations_in trees.now) }
{
    let mut operations = Vec::new(alloc);
    for tree in trees {
        let Definition::Operation(operation) = tree else {
            continue;
        };
        operations.push(operation)?;
    }
    Ok(operations)
}

/// Checks that operations have different names.
fn check_operation_names(
    reports: &mut BuildingReportList,
    tree: &Document,
) -> Result<(), ValidationError>
    ensures { Checks result (AreDistinct (operation_names tree.now.definitions)) (RepetitionReport (operation_names tree.now.definitions) rule.OperationNameCollision) reports.old reports.new }
{
    let names = operation_names(reports.allocator(), tree.definitions.as_slice())?;
    check_repetitions(reports, &names, Repeated::Operation)
}

/// The names of the operations that have one, in order.
fn operation_names<'a>(
    alloc: Global,
    trees: &'a [Definition],
) -> Result<Vec<&'a Name>, ValidationError>
    ensures { IfOk result (λ names. nows names.items ≡ operation_names trees.now) }
{
    let mut names = Vec::new(alloc);
    for tree in trees {
        let Some(name) = operation_name(tree) else {
            continue;
        };
        names.push(name)?;
    }
    Ok(names)
}

/// The name of the operation that the definition is.
fn operation_name(tree: &Definition) -> Option<&Name>
    ensures { option_copied result ≡ option_map (λ p. p.0) (as_named_operation tree.now) }
{
    match tree {
        Definition::Operation(operation) => operation.name.as_ref(),
        _ => None,
    }
}

/// Checks that fragments have different names.
fn check_fragment_names(
    reports: &mut BuildingReportList,
    tree: &Document,
) -> Result<(), ValidationError>
    ensures { Checks result (AreDistinct (fragment_names tree.now.definitions)) (RepetitionReport (fragment_names tree.now.definitions) rule.FragmentNameCollision) reports.old reports.new }
{
    let names = fragment_names(reports.allocator(), tree.definitions.as_slice())?;
    check_repetitions(reports, &names, Repeated::Fragment)
}

/// The names of the fragments, in order.
fn fragment_names<'a>(
    alloc: Global,
    trees: &'a [Definition],
) -> Result<Vec<&'a Name>, ValidationError>
    ensures { IfOk result (λ names. nows names.items ≡ fragment_names trees.now) }
{
    let mut names = Vec::new(alloc);
    for tree in trees {
        let Definition::Fragment(fragment) = tree else {
            continue;
        };
        names.push(&fragment.name)?;
    }
    Ok(names)
}
