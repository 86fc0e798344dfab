//! Which reports on what is left of the texts of a schema could be false of the whole texts.

ghost use Rattle.std.specs.Prelude.{◌≡◌, ◌||◌, ◌++◌, [], List, OnOk};
ghost use Rattle.std.specs.Option.{option_copied};
ghost use Rattle.graphql_building_reports.specs.declared.rules.BuildingRule as building_rule;
ghost use Rattle.graphql_kept_reports.specs.SchemaCuts.{AddsDoubts, AreDoubtsOf, HasAlso, cut_directive, cut_fields, cut_type, cuts_input, cuts_schema, rules_of};
ghost use Rattle.graphql_kept_reports.specs.SchemaDoubtful.{could_be_false, has_cut_fields, implementation_could_be_false, is_cut_element, is_doubtful_of_schema, value_could_be_false};

use crate::doubts::has_name;
use crate::names::add_name;
use graphql_building_reports::{BuildingReportList, BuildingRule, TypeKind};
use graphql_diagnostics::{Details, DiagnosticData, DiagnosticEntry, SchemaCoordinate};
use graphql_nodes::Name;
use std::alloc::{AllocError, Global};
use std::collections::BTreeSet;

/// What is left out of the texts of a schema.
#[derive(Drop)]
pub struct SchemaDoubts {
    /// The types of which a definition or an extension is left out, or that are left out where they are implemented.
    types: BTreeSet<String>,
    /// The types of which a field is left out.
    fields: BTreeSet<String>,
    /// The directives of which a definition is left out.
    directives: BTreeSet<String>,
    /// There are such types.
    has_types: bool,
    /// There are such types or directives, or an input object of which a field is left out.
    has_inputs: bool,
    /// A definition or an extension of the schema is left out.
    has_schema: bool,
}

impl SchemaDoubts {
    /// Nothing is left out.
    pub fn new(alloc: Global) -> SchemaDoubts
        ensures { AreDoubtsOf [] result }
    {
        SchemaDoubts {
            types: BTreeSet::new(alloc),
            fields: BTreeSet::new(alloc),
            directives: BTreeSet::new(alloc),
            has_types: false,
            has_inputs: false,
            has_schema: false,
        }
    }

    /// Adds what these reports say keeps texts from making a schema: it is left out. The only error is a failed allocation.
    pub fn add(&mut self, alloc: Global, reports: &BuildingReportList) -> Result<(), AllocError>
        ensures { (found : List building_rule.BuildingRule) → AreDoubtsOf found self.old → OnOk result (AreDoubtsOf (found ++ rules_of reports.now) self.new) }
    {
        for report in reports.iter().as_slice() {
            self.add_rule(alloc, &report.rule)?;
        }
        Ok(())
    }

    fn add_rule(&mut self, alloc: Global, rule: &BuildingRule) -> Result<(), AllocError>
        ensures { OnOk result (AddsDoubts rule.now self.old self.new) }
    {
        add_cut(alloc, cut_type(rule), &mut self.types)?;
        add_cut(alloc, cut_fields(rule), &mut self.fields)?;
        add_cut(alloc, cut_directive(rule), &mut self.directives)?;
        self.has_types = either(self.has_types, cut_type(rule).is_some());
        self.has_inputs = either(self.has_inputs, cuts_input(rule));
        self.has_schema = either(self.has_schema, cuts_schema(rule));
        Ok(())
    }

    /// Whether the report on what is left could be false of the whole: it says what a type, a directive or the schema lacks, or is not, and
    /// something of that is left out.
    ///
    /// Specification: 3 Type System.
    pub fn has(&self, entry: &DiagnosticEntry) -> bool
        ensures { result ≡ is_doubtful_of_schema self.now entry.now }
    {
        match &entry.details {
            Details::Diagnostic(diagnostic) => {
                self.has_rule(diagnostic)
                    || self.has_implementation(diagnostic)
                    || self.has_value(diagnostic)
            }
            Details::Build(_) | Details::RecursionLimit(_) => false,
        }
    }

    fn has_rule(&self, diagnostic: &DiagnosticData) -> bool
        ensures { result ≡ could_be_false self.now diagnostic.now }
    {
        match diagnostic {
            DiagnosticData::UndefinedDefinition { name }
            | DiagnosticData::RootOperationObjectType { name, .. }
            | DiagnosticData::UnionMemberObjectType { name, .. } => has_name(&self.types, name),
            DiagnosticData::UndefinedDirective { name }
            | DiagnosticData::UnsupportedLocation { name, .. }
            | DiagnosticData::UniqueDirective { name, .. } => has_name(&self.directives, name),
            DiagnosticData::EmptyFieldSet { type_name, .. }
            | DiagnosticData::EmptyValueSet { type_name, .. }
            | DiagnosticData::EmptyMemberSet { type_name, .. }
            | DiagnosticData::EmptyInputValueSet { type_name, .. } => {
                has_name(&self.types, type_name)
            }
            DiagnosticData::OutputType { .. } | DiagnosticData::InputType { .. } => self.has_types,
            DiagnosticData::QueryRootOperationType => {
                self.has_schema || self.types.contains("Query")
            }
            _ => false,
        }
    }

    fn has_implementation(&self, diagnostic: &DiagnosticData) -> bool
        ensures { result ≡ implementation_could_be_false self.now diagnostic.now }
    {
        match diagnostic {
            DiagnosticData::MissingInterfaceField {
                name,
                interface,
                ..
            } => has_name(&self.types, name) || has_name(&self.types, interface),
            DiagnosticData::TransitiveImplementedInterfaces {
                interface,
                via_interface,
                ..
            } => has_name(&self.types, interface) || has_name(&self.types, via_interface),
            DiagnosticData::InvalidImplementationFieldType {
                name,
                interface,
                ..
            } => self.has_types || self.has_fields(name) || self.has_fields(interface),
            DiagnosticData::MissingInterfaceFieldArgument {
                name,
                interface,
                ..
            }
            | DiagnosticData::InvalidImplementationFieldArgumentType {
                name,
                interface,
                ..
            }
            | DiagnosticData::ExtraRequiredImplementationFieldArgument {
                name,
                interface,
                ..
            } => self.has_fields(name) || self.has_fields(interface),
            _ => false,
        }
    }

    fn has_value(&self, diagnostic: &DiagnosticData) -> bool
        ensures { result ≡ value_could_be_false self.now diagnostic.now }
    {
        match diagnostic {
            DiagnosticData::UndefinedArgument { coordinate, .. }
            | DiagnosticData::RequiredArgument { coordinate, .. } => self.has_element(coordinate),
            DiagnosticData::UndefinedEnumValue { .. }
            | DiagnosticData::UndefinedInputValue { .. }
            | DiagnosticData::RequiredField { .. }
            | DiagnosticData::UnsupportedValueType { .. }
            | DiagnosticData::IntCoercionError { .. } => self.has_inputs,
            _ => false,
        }
    }

    /// Whether something of a directive is left out, or may be of another element.
    fn has_element(&self, coordinate: &SchemaCoordinate) -> bool
        ensures { result ≡ is_cut_element self.now coordinate.now }
    {
        match coordinate {
            SchemaCoordinate::Directive(it) => has_name(&self.directives, &it.directive),
            SchemaCoordinate::DirectiveArgument(it) => has_name(&self.directives, &it.directive),
            SchemaCoordinate::Type(_)
            | SchemaCoordinate::TypeAttribute(_)
            | SchemaCoordinate::FieldArgument(_) => self.has_inputs,
        }
    }

    /// Whether something of a type is left out, its fields included.
    fn has_fields(&self, name: &Name) -> bool
        ensures { result ≡ has_cut_fields self.now name.now }
    {
        has_name(&self.types, name) || has_name(&self.fields, name)
    }
}

/// Adds a name to these, if there is one.
fn add_cut(
    alloc: Global,
    name: Option<&Name>,
    names: &mut BTreeSet<String>,
) -> Result<(), AllocError>
    ensures { OnOk result (HasAlso (option_copied name.entry) names.old names.new) }
{
    match name {
        Some(name) => add_name(alloc, name.as_str(), names),
        None => Ok(()),
    }
}

fn either(one: bool, other: bool) -> bool
    ensures { result ≡ (one || other) }
{
    one || other
}

/// The type of which the rule says that something is left out.
fn cut_type(rule: &BuildingRule) -> Option<&Name>
    ensures { option_copied result ≡ cut_type rule.now }
{
    match rule {
        BuildingRule::TypeDefinitionCollision { name, .. }
        | BuildingRule::OrphanTypeExtension { name }
        | BuildingRule::TypeExtensionKindMismatch { name, .. }
        | BuildingRule::BuiltInTypeExtension { name }
        | BuildingRule::ImplementedNonInterface { name, .. } => Some(name),
        _ => None,
    }
}

/// The object, interface or input object of which the rule says that a field is left out.
fn cut_fields(rule: &BuildingRule) -> Option<&Name>
    ensures { option_copied result ≡ cut_fields rule.now }
{
    match rule {
        BuildingRule::MemberNameCollision {
            kind: TypeKind::Object | TypeKind::Interface | TypeKind::InputObject,
            type_name,
            ..
        } => Some(type_name),
        _ => None,
    }
}

/// The directive of which the rule says that a definition is left out.
fn cut_directive(rule: &BuildingRule) -> Option<&Name>
    ensures { option_copied result ≡ cut_directive rule.now }
{
    match rule {
        BuildingRule::DirectiveDefinitionCollision { name, .. } => Some(name),
        _ => None,
    }
}

/// Whether the rule says that something of a type or a directive is left out, or a field of an input object.
fn cuts_input(rule: &BuildingRule) -> bool
    ensures { result ≡ cuts_input rule.now }
{
    matches!(
        rule,
        BuildingRule::TypeDefinitionCollision { .. }
            | BuildingRule::OrphanTypeExtension { .. }
            | BuildingRule::TypeExtensionKindMismatch { .. }
            | BuildingRule::BuiltInTypeExtension { .. }
            | BuildingRule::ImplementedNonInterface { .. }
            | BuildingRule::DirectiveDefinitionCollision { .. }
            | BuildingRule::MemberNameCollision {
                kind: TypeKind::InputObject,
                ..
            }
    )
}

/// Whether the rule says that something of the schema's definition is left out.
fn cuts_schema(rule: &BuildingRule) -> bool
    ensures { result ≡ cuts_schema rule.now }
{
    matches!(
        rule,
        BuildingRule::SchemaDefinitionCollision { .. }
            | BuildingRule::OrphanSchemaExtension
            | BuildingRule::DuplicateRootOperation { .. }
    )
}
