//! Whether selections can be built on their types.

ghost use Rattle.std.specs.Prelude.{◌≡◌, ◌∷◌, ◌++◌, [], None, OnErr, OnOk, Some};
ghost use Rattle.graphql_document_building.specs.BuildingRules.{SelectionBuilds, SelectionsBuild};
ghost use Rattle.graphql_document_checking.specs.Reports.{IsSelectionReport, IsSetReport, SetBuilds, leaf_kind};
ghost use Rattle.std.specs.Option.{option_copied};
ghost use Rattle.graphql_building_reports.specs.Checks.{Checks, reports_of};
ghost use Rattle.graphql_documents.specs.Schemas.{type_definition};
ghost use Rattle.graphql_building_reports.specs.declared.rules.BuildingRule.TheVariants as rule;
ghost use Rattle.graphql_trees.specs.declared.executable.Field.{out-Field};
ghost use Rattle.graphql_trees.specs.declared.executable.Selection.TheVariants as tree_kind;

use graphql_building_reports::{BuildingReportList, BuildingRule, LeafKind};
use graphql_document_building::type_fields::field_of_type;
use graphql_documents::documents::{ExtendedType, Schema};
use graphql_nodes::{Name, NamedType, SourceSpan, ValidationError};
use graphql_trees::{
    Field as FieldTree, InlineFragment as InlineFragmentTree, Selection as SelectionTree,
};

/// Reports, in the order of the text, what keeps these selections and all that are below them from being
/// built on this type: fields that their type lacks, selections from scalars and enums, and type conditions
/// that are not defined or no composite types. What is below such a field or condition has no type, and is not looked at.
/// Fails only if an allocation fails.
///
/// Specification: 5.3.1 Field Selections, 5.3.3 Leaf Field Selections, 5.5.1.2 Fragment Spread Type Existence, 5.5.1.3
/// Fragments On Composite Types.
#[cycle(selections)]
pub fn check_selections(
    reports: &mut BuildingReportList,
    schema: &Schema,
    parent: &NamedType,
    trees: &[SelectionTree],
) -> Result<(), ValidationError>
    ensures { Checks result (SelectionsBuild schema.now parent.now trees.now) (IsSelectionReport schema.now parent.now trees.now) reports.old reports.new }
{
    let parent_type = schema.types.get(parent);
    for tree in trees {
        check_selection(reports, schema, parent, parent_type, tree)?;
    }
    Ok(())
}

#[cycle(selections)]
fn check_selection(
    reports: &mut BuildingReportList,
    schema: &Schema,
    parent: &NamedType,
    parent_type: Option<&ExtendedType>,
    tree: &SelectionTree,
) -> Result<(), ValidationError>
    requires { option_copied parent_type ≡ type_definition schema.now parent.now }
    ensures { Checks result (SelectionBuilds schema.now parent.now tree.now) (IsSelectionReport schema.now parent.now (tree.now ∷ [])) reports.old reports.new }
{
    match tree {
        SelectionTree::Field(field) => check_field(reports, schema, parent, parent_type, field),
        SelectionTree::FragmentSpread(_spread) => Ok(()),
        SelectionTree::InlineFragment(fragment) => {
            check_inline_fragment(reports, schema, parent, fragment)
        }
    }
}

#[cycle(selections)]
fn check_field(
    reports: &mut BuildingReportList,
    schema: &Schema,
    parent: &NamedType,
    parent_type: Option<&ExtendedType>,
    tree: &FieldTree,
) -> Result<(), ValidationError>
    requires { option_copied parent_type ≡ type_definition schema.now parent.now }
    ensures { Checks result (SelectionBuilds schema.now parent.now (tree_kind.Field tree.now)) (IsSelectionReport schema.now parent.now (tree_kind.Field tree.now ∷ [])) reports.old reports.new }
{
    match field_of_type(schema, parent, parent_type, &tree.name) {
        Ok(definition) => {
            let ty = definition.node.value.ty.inner_named_type();
            check_set_below(reports, schema, ty, tree)
        }
        Err(_error) => report_undefined_field(reports, parent, &tree.name),
    }
}

/// Checks the set of a field that gives this type.
#[cycle(selections)]
fn check_set_below(
    reports: &mut BuildingReportList,
    schema: &Schema,
    ty: &NamedType,
    field: &FieldTree,
) -> Result<(), ValidationError>
    ensures { Checks result (SetBuilds schema.now ty.now field.now) (IsSetReport schema.now ty.now field.now) reports.old reports.new }
{
    let Some(set) = &field.selection_set else {
        return Ok(());
    };
    match leaf_kind(schema, ty) {
        Some(kind) => report_subselection(reports, kind, ty, field.span),
        None => check_selections(reports, schema, ty, set.get().selections.as_slice()),
    }
}

#[cycle(selections)]
fn check_inline_fragment(
    reports: &mut BuildingReportList,
    schema: &Schema,
    parent: &NamedType,
    tree: &InlineFragmentTree,
) -> Result<(), ValidationError>
    ensures { Checks result (SelectionBuilds schema.now parent.now (tree_kind.InlineFragment tree.now)) (IsSelectionReport schema.now parent.now (tree_kind.InlineFragment tree.now ∷ [])) reports.old reports.new }
{
    let Some(condition) = &tree.type_condition else {
        return check_selections(
            reports,
            schema,
            parent,
            tree.selection_set.selections.as_slice(),
        );
    };
    match schema.types.get(condition) {
        Some(definition) => {
            if !definition.is_composite() {
                return report_invalid_target(reports, tree.span);
            }
            check_selections(
                reports,
                schema,
                condition,
                tree.selection_set.selections.as_slice(),
            )
        }
        None => report_undefined_condition(reports, condition),
    }
}

fn report_invalid_target(
    reports: &mut BuildingReportList,
    fragment: SourceSpan,
) -> Result<(), ValidationError>
    ensures ok { OnOk result (reports_of reports.new ≡ reports_of reports.old ++ record { location = Some fragment; rule = rule.InvalidFragmentTarget None } ∷ []) }
    ensures err { OnErr result (reports_of reports.new ≡ reports_of reports.old) }
{
    let rule = BuildingRule::InvalidFragmentTarget {
        fragment_name: None,
    };
    reports.push(Some(fragment), rule)
}

fn report_undefined_field(
    reports: &mut BuildingReportList,
    parent: &NamedType,
    name: &Name,
) -> Result<(), ValidationError>
    ensures ok { OnOk result (reports_of reports.new ≡ reports_of reports.old ++ record { location = name.now.location; rule = rule.UndefinedField parent.now name.now } ∷ []) }
    ensures err { OnErr result (reports_of reports.new ≡ reports_of reports.old) }
{
    let location = name.location();
    let type_name = parent.clone_in(reports.allocator())?;
    let field_name = name.clone_in(reports.allocator())?;
    let rule = BuildingRule::UndefinedField {
        type_name,
        field_name,
    };
    reports.push(location, rule)
}

fn report_subselection(
    reports: &mut BuildingReportList,
    kind: LeafKind,
    ty: &NamedType,
    field: SourceSpan,
) -> Result<(), ValidationError>
    ensures ok { OnOk result (reports_of reports.new ≡ reports_of reports.old ++ record { location = Some field; rule = rule.SubselectionOnLeafType kind ty.now } ∷ []) }
    ensures err { OnErr result (reports_of reports.new ≡ reports_of reports.old) }
{
    let type_name = ty.clone_in(reports.allocator())?;
    let rule = BuildingRule::SubselectionOnLeafType { kind, type_name };
    reports.push(Some(field), rule)
}

/// Whether the type of this name is a scalar or an enum, and which.
fn leaf_kind(schema: &Schema, ty: &NamedType) -> Option<LeafKind>
    ensures { result ≡ leaf_kind schema.now ty.now }
{
    match schema.types.get(ty)? {
        ExtendedType::Scalar(_definition) => Some(LeafKind::Scalar),
        ExtendedType::Enum(_definition) => Some(LeafKind::Enum),
        _ => None,
    }
}

fn report_undefined_condition(
    reports: &mut BuildingReportList,
    condition: &NamedType,
) -> Result<(), ValidationError>
    ensures ok { OnOk result (reports_of reports.new ≡ reports_of reports.old ++ record { location = condition.now.location; rule = rule.UndefinedTypeInInlineFragmentTypeCondition condition.now } ∷ []) }
    ensures err { OnErr result (reports_of reports.new ≡ reports_of reports.old) }
{
    let location = condition.location();
    let type_name = condition.clone_in(reports.allocator())?;
    let rule = BuildingRule::UndefinedTypeInInlineFragmentTypeCondition { type_name };
    reports.push(location, rule)
}
