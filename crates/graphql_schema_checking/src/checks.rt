//! Checks of the definitions of a kind, one by one.

ghost use Rattle.std.specs.Prelude.{◌≡◌, All, Contains, IsFalse, IsTrue, List, None, Some, filter};
ghost use Rattle.graphql_nodes.specs.Names.{NameText, same_name};
ghost use Rattle.graphql_trees.specs.declared.documents.Definition.{Definition};
ghost use Rattle.graphql_trees.specs.declared.type_system.SchemaDefinition.{SchemaDefinition};
ghost use Rattle.graphql_trees.specs.declared.type_system.TypeDefinition.{TypeDefinition};
ghost use Rattle.graphql_building_reports.specs.Checks.{Checks};
ghost use Rattle.graphql_schema_checking.specs.Definitions.{is_built_in_name, is_executable, is_interface, kind_of, name_of, redefines_scalar, same_kind, type_extensions, type_named, types};
ghost use Rattle.graphql_schema_checking.specs.SchemaBuilds.{HasDistinctParts, IsNoOtherThanInterface, IsOfKind};
ghost use Rattle.graphql_schema_checking.specs.SchemaReports.{DefinitionsReport, ExecutableReport, ExtensionReport, NonInterfaceReport, OrphanSchemaReport, PartsReport, ScalarReport};
ghost use Rattle.graphql_repetitions.specs.References.{nows};
ghost use Rattle.graphql_schema_checking.specs.Steps.{AreFirst, FindsAll};

use crate::kinds::{is_interface, same_kind, type_kind, type_name, type_span};
use crate::members::{interface_names, member_names, parts_of_kind};
use crate::names::{is_built_in, redefines_scalar};
use graphql_building_reports::{BuildingReportList, BuildingRule, ExecutableKind};
use graphql_hash_seeds::HashSeed;
use graphql_nodes::{Name, ValidationError};
use graphql_repetitions::{Repeated, check_repetitions};
use graphql_trees::{Definition, SchemaDefinition, TypeDefinition};
use indexmap::IndexMap;

/// Reports each definition that can be executed. The only error is a failed allocation.
pub(crate) fn check_executables(
    reports: &mut BuildingReportList,
    definitions: &[&Definition],
) -> Result<(), ValidationError>
    ensures { Checks result (All (λ d. IsFalse (is_executable d)) (nows definitions.now)) (ExecutableReport (nows definitions.now)) reports.old reports.new }
{
    for definition in definitions {
        check_executable(reports, *definition)?;
    }
    Ok(())
}

fn check_executable(
    reports: &mut BuildingReportList,
    definition: &Definition,
) -> Result<(), ValidationError>
    ensures { (all : List Definition) → Contains all definition.now →
        Checks result (IsFalse (is_executable definition.now)) (ExecutableReport all) reports.old reports.new }
{
    match definition {
        Definition::Operation(operation) => reports.push(
            Some(operation.span),
            BuildingRule::ExecutableDefinition {
                kind: ExecutableKind::Operation,
            },
        ),
        Definition::Fragment(fragment) => reports.push(
            Some(fragment.span),
            BuildingRule::ExecutableDefinition {
                kind: ExecutableKind::Fragment,
            },
        ),
        _ => Ok(()),
    }
}

/// Reports each extension of the schema, where there is none. The only error is a failed allocation.
pub(crate) fn check_schema_extensions(
    reports: &mut BuildingReportList,
    extensions: &[&SchemaDefinition],
    has_schema: bool,
) -> Result<(), ValidationError>
    ensures { Checks result (All (λ e. IsTrue has_schema) (nows extensions.now)) (OrphanSchemaReport has_schema (nows extensions.now)) reports.old reports.new }
{
    for extension in extensions {
        check_schema_extension(reports, *extension, has_schema)?;
    }
    Ok(())
}

fn check_schema_extension(
    reports: &mut BuildingReportList,
    extension: &SchemaDefinition,
    has_schema: bool,
) -> Result<(), ValidationError>
    ensures { (all : List SchemaDefinition) → Contains all extension.now →
        Checks result (IsTrue has_schema) (OrphanSchemaReport has_schema all) reports.old reports.new }
{
    if has_schema {
        Ok(())
    } else {
        reports.push(Some(extension.span), BuildingRule::OrphanSchemaExtension)
    }
}

/// Reports each built-in scalar that a text defines. The only error is a failed allocation.
pub(crate) fn check_scalars(
    reports: &mut BuildingReportList,
    types: &[&TypeDefinition],
) -> Result<(), ValidationError>
    ensures { Checks result (All (λ d. IsFalse (redefines_scalar d)) (nows types.now)) (ScalarReport (nows types.now)) reports.old reports.new }
{
    for definition in types {
        check_scalar(reports, *definition)?;
    }
    Ok(())
}

fn check_scalar(
    reports: &mut BuildingReportList,
    definition: &TypeDefinition,
) -> Result<(), ValidationError>
    ensures { (all : List TypeDefinition) → Contains all definition.now →
        Checks result (IsFalse (redefines_scalar definition.now)) (ScalarReport all) reports.old reports.new }
{
    if redefines_scalar(definition) {
        reports.push(
            Some(type_span(definition)),
            BuildingRule::BuiltInScalarTypeRedefinition,
        )
    } else {
        Ok(())
    }
}

/// Reports each extension of a type that is not defined, that every schema has, or that is of another kind. The only error
/// is a failed allocation.
pub(crate) fn check_type_extensions(
    reports: &mut BuildingReportList,
    first: &IndexMap<&Name, &TypeDefinition, HashSeed>,
    extensions: &[&TypeDefinition],
) -> Result<(), ValidationError>
    ensures { (types : List TypeDefinition) → AreFirst first.now types →
        Checks result (All (λ e. IsOfKind (type_named types (name_of e)) e) (nows extensions.now)) (ExtensionReport types (nows extensions.now)) reports.old reports.new }
{
    for extension in extensions {
        check_type_extension(reports, first, *extension)?;
    }
    Ok(())
}

fn check_type_extension(
    reports: &mut BuildingReportList,
    first: &IndexMap<&Name, &TypeDefinition, HashSeed>,
    extension: &TypeDefinition,
) -> Result<(), ValidationError>
    ensures { (types all : List TypeDefinition) → AreFirst first.now types → Contains all extension.now →
        Checks result (IsOfKind (type_named types (name_of extension.now)) extension.now) (ExtensionReport types all) reports.old reports.new }
{
    match first.get(&type_name(extension)) {
        Some(definition) => check_kind(reports, *definition, extension),
        None => report_orphan(reports, extension),
    }
}

fn check_kind(
    reports: &mut BuildingReportList,
    definition: &TypeDefinition,
    extension: &TypeDefinition,
) -> Result<(), ValidationError>
    ensures { (types all : List TypeDefinition) → type_named types (name_of extension.now) ≡ Some definition.now → Contains all extension.now →
        Checks result (IsOfKind (Some definition.now) extension.now) (ExtensionReport types all) reports.old reports.new }
{
    if is_built_in(type_name(definition)) {
        report_built_in(reports, definition, extension)
    } else if same_kind(type_kind(definition), type_kind(extension)) {
        Ok(())
    } else {
        report_mismatch(reports, definition, extension)
    }
}

fn report_built_in(
    reports: &mut BuildingReportList,
    definition: &TypeDefinition,
    extension: &TypeDefinition,
) -> Result<(), ValidationError>
    requires { IsTrue (is_built_in_name (name_of definition.now)) }
    ensures { (types all : List TypeDefinition) → type_named types (name_of extension.now) ≡ Some definition.now → Contains all extension.now →
        Checks result ⊥ (ExtensionReport types all) reports.old reports.new }
{
    let name = type_name(extension).clone()?;
    reports.push(
        type_name(extension).location(),
        BuildingRule::BuiltInTypeExtension { name },
    )
}

fn report_mismatch(
    reports: &mut BuildingReportList,
    definition: &TypeDefinition,
    extension: &TypeDefinition,
) -> Result<(), ValidationError>
    requires { IsFalse (same_kind (kind_of definition.now) (kind_of extension.now)) }
    ensures { (types all : List TypeDefinition) → type_named types (name_of extension.now) ≡ Some definition.now → Contains all extension.now →
        Checks result ⊥ (ExtensionReport types all) reports.old reports.new }
{
    let name = type_name(extension).clone()?;
    reports.push(
        type_name(extension).location(),
        BuildingRule::TypeExtensionKindMismatch {
            name,
            extension: type_kind(extension),
            definition: type_kind(definition),
            original: type_name(definition).location(),
        },
    )
}

fn report_orphan(
    reports: &mut BuildingReportList,
    extension: &TypeDefinition,
) -> Result<(), ValidationError>
    ensures { (types all : List TypeDefinition) → type_named types (name_of extension.now) ≡ None → Contains all extension.now →
        Checks result ⊥ (ExtensionReport types all) reports.old reports.new }
{
    let name = type_name(extension).clone()?;
    reports.push(
        type_name(extension).location(),
        BuildingRule::OrphanTypeExtension { name },
    )
}

/// Reports each of these names that is that of a defined type which is no interface. The only error is a failed allocation.
pub(crate) fn check_implemented(
    reports: &mut BuildingReportList,
    first: &IndexMap<&Name, &TypeDefinition, HashSeed>,
    names: &[&Name],
) -> Result<(), ValidationError>
    ensures { (types : List TypeDefinition) → AreFirst first.now types →
        Checks result (All (λ name. IsNoOtherThanInterface (type_named types name)) (nows names.now)) (NonInterfaceReport types (nows names.now)) reports.old reports.new }
{
    for name in names {
        check_interface(reports, first, *name)?;
    }
    Ok(())
}

fn check_interface(
    reports: &mut BuildingReportList,
    first: &IndexMap<&Name, &TypeDefinition, HashSeed>,
    name: &Name,
) -> Result<(), ValidationError>
    ensures { (types : List TypeDefinition) (all : List NameText) → AreFirst first.now types → Contains all name.now →
        Checks result (IsNoOtherThanInterface (type_named types name.now)) (NonInterfaceReport types all) reports.old reports.new }
{
    match first.get(&name) {
        Some(definition) => check_is_interface(reports, *definition, name),
        None => Ok(()),
    }
}

fn check_is_interface(
    reports: &mut BuildingReportList,
    definition: &TypeDefinition,
    name: &Name,
) -> Result<(), ValidationError>
    ensures { (types : List TypeDefinition) (all : List NameText) → type_named types name.now ≡ Some definition.now → Contains all name.now →
        Checks result (IsTrue (is_interface definition.now)) (NonInterfaceReport types all) reports.old reports.new }
{
    if is_interface(definition) {
        Ok(())
    } else {
        report_non_interface(reports, definition, name)
    }
}

fn report_non_interface(
    reports: &mut BuildingReportList,
    definition: &TypeDefinition,
    name: &Name,
) -> Result<(), ValidationError>
    requires { IsFalse (is_interface definition.now) }
    ensures { (types : List TypeDefinition) (all : List NameText) → type_named types name.now ≡ Some definition.now → Contains all name.now →
        Checks result ⊥ (NonInterfaceReport types all) reports.old reports.new }
{
    let location = name.location();
    let name = name.clone()?;
    reports.push(
        location,
        BuildingRule::ImplementedNonInterface {
            name,
            definition: type_kind(definition),
            original: type_name(definition).location(),
        },
    )
}

/// Reports what is in one of these types twice, over its definition and its extensions. The only error is a
/// failed allocation.
pub(crate) fn check_all_parts(
    reports: &mut BuildingReportList,
    first: &[&TypeDefinition],
    found: &IndexMap<&Name, Vec<&TypeDefinition>, HashSeed>,
) -> Result<(), ValidationError>
    ensures { (definitions : List Definition) → All (Contains (types definitions)) (nows first.now) → FindsAll found.now (type_extensions definitions) →
        Checks result (All (HasDistinctParts definitions) (nows first.now)) (DefinitionsReport definitions) reports.old reports.new }
{
    for definition in first {
        check_type(reports, found, *definition)?;
    }
    Ok(())
}

fn check_type(
    reports: &mut BuildingReportList,
    found: &IndexMap<&Name, Vec<&TypeDefinition>, HashSeed>,
    definition: &TypeDefinition,
) -> Result<(), ValidationError>
    ensures { (definitions : List Definition) → FindsAll found.now (type_extensions definitions) →
        Checks result (HasDistinctParts definitions definition.now) (PartsReport definitions definition.now) reports.old reports.new }
{
    match found.get(&type_name(definition)) {
        Some(extensions) => check_parts(reports, definition, extensions),
        None => check_parts(reports, definition, &[]),
    }
}

fn check_parts(
    reports: &mut BuildingReportList,
    definition: &TypeDefinition,
    extensions: &[&TypeDefinition],
) -> Result<(), ValidationError>
    ensures { (definitions : List Definition) →
        nows extensions.now ≡ filter (λ e. same_name (name_of definition.now) (name_of e)) (type_extensions definitions) →
        Checks result (HasDistinctParts definitions definition.now) (PartsReport definitions definition.now) reports.old reports.new }
{
    let parts = parts_of_kind(reports.allocator(), definition, extensions)?;
    let kind = type_kind(definition);
    let name = type_name(definition);
    let members = member_names(reports.allocator(), &parts)?;
    check_repetitions(reports, &members, Repeated::Member(kind, name))?;
    let interfaces = interface_names(reports.allocator(), &parts)?;
    check_repetitions(reports, &interfaces, Repeated::Interface(kind, name))
}
