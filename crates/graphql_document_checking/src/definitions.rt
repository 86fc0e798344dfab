//! Whether definitions can be built.

ghost use Rattle.std.specs.Prelude.{◌≡◌, ◌∷◌, ◌++◌, [], All, OnErr, OnOk, Some};
ghost use Rattle.std.specs.Option.{option_copied};
ghost use Rattle.graphql_document_building.specs.BuildingRules.{DefinitionBuilds, FragmentBuilds, OperationBuilds};
ghost use Rattle.graphql_document_checking.specs.DefinitionReports.{IsDefinitionReport, IsFragmentReport, IsOperationReport, IsReportOfDefinitions, definition_span, type_definition_span};
ghost use Rattle.graphql_building_reports.specs.Checks.{Checks, reports_of};
ghost use Rattle.graphql_building_reports.specs.declared.rules.BuildingRule.TheVariants as rule;

use crate::selections::check_selections;
use graphql_building_reports::{BuildingReportList, BuildingRule};
use graphql_documents::documents::Schema;
use graphql_nodes::{SourceSpan, ValidationError};
use graphql_trees::{Definition, FragmentDefinition, OperationDefinition, TypeDefinition};

/// Reports, in the order of the text, what keeps these definitions from being built against the schema, or without one:
/// definitions of the type system; and against a schema operations without a root type, type conditions of fragments that
/// are not defined or no composite types, and what keeps their selections from being built. Whether names repeat is not looked at. Fails only where an
/// allocation fails.
///
/// Specification: 3.3.1 Root Operation Types, 5.1.1 Executable Definitions, 5.3.1 Field Selections, 5.3.3 Leaf
/// Field Selections, 5.5.1.2 Fragment Spread Type Existence, 5.5.1.3 Fragments On Composite Types.
pub fn check_definitions(
    reports: &mut BuildingReportList,
    schema: Option<&Schema>,
    trees: &[Definition],
) -> Result<(), ValidationError>
    ensures { Checks result (All (DefinitionBuilds (option_copied schema.entry)) trees.now) (IsReportOfDefinitions (option_copied schema.entry) trees.now) reports.old reports.new }
{
    for tree in trees {
        check_definition(reports, schema, tree)?;
    }
    Ok(())
}

fn check_definition(
    reports: &mut BuildingReportList,
    schema: Option<&Schema>,
    tree: &Definition,
) -> Result<(), ValidationError>
    ensures { Checks result (DefinitionBuilds (option_copied schema.entry) tree.now) (IsDefinitionReport (option_copied schema.entry) tree.now) reports.old reports.new }
{
    match tree {
        Definition::Operation(operation) => match schema {
            Some(schema) => check_operation(reports, schema, operation),
            None => Ok(()),
        },
        Definition::Fragment(fragment) => match schema {
            Some(schema) => check_fragment(reports, schema, fragment),
            None => Ok(()),
        },
        Definition::Schema(definition) => report_type_system(reports, definition.span),
        Definition::Type(definition) => report_type_system(
            reports,
            type_definition_span(definition),
        ),
        Definition::Directive(definition) => report_type_system(reports, definition.span),
        Definition::SchemaExtension(definition) => report_type_system(reports, definition.span),
        Definition::TypeExtension(definition) => {
            report_type_system(reports, type_definition_span(definition))
        }
    }
}

fn check_operation(
    reports: &mut BuildingReportList,
    schema: &Schema,
    tree: &OperationDefinition,
) -> Result<(), ValidationError>
    ensures { Checks result (OperationBuilds schema.now tree.now) (IsOperationReport schema.now tree.now) reports.old reports.new }
{
    match schema.root_operation(tree.operation_type) {
        Some(root) => {
            let selections = tree.selection_set.selections.as_slice();
            check_selections(reports, schema, root, selections)
        }
        None => report_undefined_root(reports, tree),
    }
}

fn check_fragment(
    reports: &mut BuildingReportList,
    schema: &Schema,
    tree: &FragmentDefinition,
) -> Result<(), ValidationError>
    ensures { Checks result (FragmentBuilds schema.now tree.now) (IsFragmentReport schema.now tree.now) reports.old reports.new }
{
    match schema.types.get(&tree.type_condition) {
        Some(definition) => {
            if !definition.is_composite() {
                return report_invalid_target(reports, tree);
            }
            let selections = tree.selection_set.selections.as_slice();
            check_selections(reports, schema, &tree.type_condition, selections)
        }
        None => report_undefined_condition(reports, tree),
    }
}

fn report_invalid_target(
    reports: &mut BuildingReportList,
    tree: &FragmentDefinition,
) -> Result<(), ValidationError>
    ensures ok { OnOk result (reports_of reports.new ≡ reports_of reports.old ++ record { location = Some tree.now.span; rule = rule.InvalidFragmentTarget (Some tree.now.name) } ∷ []) }
    ensures err { OnErr result (reports_of reports.new ≡ reports_of reports.old) }
{
    let fragment_name = tree.name.clone_in(reports.allocator())?;
    let rule = BuildingRule::InvalidFragmentTarget {
        fragment_name: Some(fragment_name),
    };
    reports.push(Some(tree.span), rule)
}

fn report_type_system(
    reports: &mut BuildingReportList,
    span: SourceSpan,
) -> Result<(), ValidationError>
    ensures ok { OnOk result (reports_of reports.new ≡ reports_of reports.old ++ record { location = Some span; rule = rule.TypeSystemDefinition } ∷ []) }
    ensures err { OnErr result (reports_of reports.new ≡ reports_of reports.old) }
{
    reports.push(Some(span), BuildingRule::TypeSystemDefinition)
}

fn report_undefined_root(
    reports: &mut BuildingReportList,
    tree: &OperationDefinition,
) -> Result<(), ValidationError>
    ensures ok { OnOk result (reports_of reports.new ≡ reports_of reports.old ++ record { location = Some tree.now.span; rule = rule.UndefinedRootOperation tree.now.operation_type } ∷ []) }
    ensures err { OnErr result (reports_of reports.new ≡ reports_of reports.old) }
{
    let rule = BuildingRule::UndefinedRootOperation {
        operation_type: tree.operation_type,
    };
    reports.push(Some(tree.span), rule)
}

fn report_undefined_condition(
    reports: &mut BuildingReportList,
    tree: &FragmentDefinition,
) -> Result<(), ValidationError>
    ensures ok { OnOk result (reports_of reports.new ≡ reports_of reports.old ++ record { location = tree.now.type_condition.location; rule = rule.UndefinedTypeInNamedFragmentTypeCondition tree.now.type_condition tree.now.name } ∷ []) }
    ensures err { OnErr result (reports_of reports.new ≡ reports_of reports.old) }
{
    let location = tree.type_condition.location();
    let type_name = tree.type_condition.clone_in(reports.allocator())?;
    let fragment_name = tree.name.clone_in(reports.allocator())?;
    let rule = BuildingRule::UndefinedTypeInNamedFragmentTypeCondition {
        type_name,
        fragment_name,
    };
    reports.push(location, rule)
}

fn type_definition_span(tree: &TypeDefinition) -> SourceSpan
    ensures { result ≡ type_definition_span tree.now }
{
    match tree {
        TypeDefinition::Scalar(definition) => definition.span,
        TypeDefinition::Object(definition) => definition.span,
        TypeDefinition::Interface(definition) => definition.span,
        TypeDefinition::Union(definition) => definition.span,
        TypeDefinition::Enum(definition) => definition.span,
        TypeDefinition::InputObject(definition) => definition.span,
    }
}
