//! Whether texts make a schema.

ghost use Rattle.std.specs.Prelude.{◌≡◌, ◌≤◌, All, IsFalse, IsTrue, List, length, map};
ghost use Rattle.graphql_nodes.specs.Names.{AreDistinct};
ghost use Rattle.graphql_nodes.specs.declared.operation_types.OperationType.TheVariants.{Query, Mutation, Subscription};
ghost use Rattle.graphql_trees.specs.declared.documents.Definition.{Definition};
ghost use Rattle.graphql_building_reports.specs.Checks.{Checks};
ghost use Rattle.graphql_schema_checking.specs.Definitions.{schemas};
ghost use Rattle.graphql_schema_checking.specs.Rules.{NameRules, TypeRules, WholeRules};
ghost use Rattle.graphql_schema_checking.specs.SchemaBuilds.{SchemaBuilds, roots};
ghost use Rattle.graphql_schema_checking.specs.SchemaReports.{DefinitionsReport, SchemaBuildingReport};
ghost use Rattle.graphql_schema_checking.specs.Sorting.{AreSorted};

use crate::by_name::{extensions_by_name, first_definitions, in_order};
use crate::checks::{
    check_all_parts, check_executables, check_implemented, check_scalars, check_schema_extensions,
    check_type_extensions,
};
use crate::definitions::SortedDefinitions;
use crate::members::implemented_names;
use crate::names::{DirectiveNames, repeatable_type_names};
use crate::roots::{has_schema, root_places, schema_places};
use crate::single::{Single, check_single};
use graphql_building_reports::BuildingReportList;
use graphql_nodes::{OperationType, ValidationError};
use graphql_repetitions::{Repeated, check_repetitions};
use graphql_trees::Document;

/// Reports what keeps texts from making a schema, from their trees: those of the definitions that every
/// schema has, then those of the texts. Nothing is reported exactly where a schema can be built of them.
///
/// Reports come rule by rule, each in the order of the texts. Old reports stay. The only error is a
/// failed allocation.
///
/// Specification: 3 Type System.
pub fn check_schema(
    reports: &mut BuildingReportList,
    trees: &[Document],
) -> Result<(), ValidationError>
    ensures { Checks result (SchemaBuilds trees.now) (SchemaBuildingReport trees.now) reports.old reports.new }
{
    let sorted = SortedDefinitions::of(reports.allocator(), trees)?;
    check_whole(reports, &sorted)?;
    check_names(reports, &sorted)?;
    check_types(reports, &sorted)
}

/// Checks that nothing can be executed, and that there is one schema with one root of each kind.
fn check_whole(
    reports: &mut BuildingReportList,
    sorted: &SortedDefinitions<'_>,
) -> Result<(), ValidationError>
    ensures { (definitions : List Definition) → AreSorted definitions sorted.now →
        Checks result (WholeRules definitions) (DefinitionsReport definitions) reports.old reports.new }
{
    check_executables(reports, &sorted.executables)?;
    check_schema_definitions(reports, sorted)?;
    check_roots(reports, sorted, OperationType::Query)?;
    check_roots(reports, sorted, OperationType::Mutation)?;
    check_roots(reports, sorted, OperationType::Subscription)?;
    check_schema_extensions(reports, &sorted.schema_extensions, has_schema(sorted))
}

fn check_schema_definitions(
    reports: &mut BuildingReportList,
    sorted: &SortedDefinitions<'_>,
) -> Result<(), ValidationError>
    ensures { (definitions : List Definition) → AreSorted definitions sorted.now →
        Checks result (length (schemas definitions) ≤ 1) (DefinitionsReport definitions) reports.old reports.new }
{
    let places = schema_places(reports.allocator(), &sorted.schemas)?;
    check_single(reports, &places, Single::Schema)
}

fn check_roots(
    reports: &mut BuildingReportList,
    sorted: &SortedDefinitions<'_>,
    operation_type: OperationType,
) -> Result<(), ValidationError>
    ensures { (definitions : List Definition) → AreSorted definitions sorted.now →
        Checks result (length (roots definitions operation_type) ≤ 1) (DefinitionsReport definitions) reports.old reports.new }
{
    let places = root_places(reports.allocator(), sorted, operation_type)?;
    check_single(reports, &places, Single::Root(operation_type))
}

/// Checks the names of types and directives.
fn check_names(
    reports: &mut BuildingReportList,
    sorted: &SortedDefinitions<'_>,
) -> Result<(), ValidationError>
    ensures { (definitions : List Definition) → AreSorted definitions sorted.now →
        Checks result (NameRules definitions) (DefinitionsReport definitions) reports.old reports.new }
{
    check_scalars(reports, &sorted.types)?;
    let types = repeatable_type_names(reports.allocator(), &sorted.types)?;
    check_repetitions(reports, &types, Repeated::Type)?;
    let directives = DirectiveNames::of(reports.allocator(), &sorted.directives)?;
    check_repetitions(reports, &directives.own, Repeated::Directive)?;
    check_repetitions(reports, &directives.built_in, Repeated::Directive)
}

/// Checks the extensions of types, what types implement, and what they are made of.
fn check_types(
    reports: &mut BuildingReportList,
    sorted: &SortedDefinitions<'_>,
) -> Result<(), ValidationError>
    ensures { (definitions : List Definition) → AreSorted definitions sorted.now →
        Checks result (TypeRules definitions) (DefinitionsReport definitions) reports.old reports.new }
{
    let first = first_definitions(reports.allocator(), reports.hash_seed(), &sorted.types)?;
    check_type_extensions(reports, &first, &sorted.type_extensions)?;
    let implemented = implemented_names(
        reports.allocator(),
        &sorted.types,
        &sorted.type_extensions,
    )?;
    check_implemented(reports, &first, &implemented)?;
    let definitions = in_order(reports.allocator(), first)?;
    let found = extensions_by_name(
        reports.allocator(),
        reports.hash_seed(),
        &sorted.type_extensions,
    )?;
    check_all_parts(reports, &definitions, &found)
}
