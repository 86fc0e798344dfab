//! The names of rules, as machines read them.

ghost use Rattle.std.specs.Prelude.{◌≡◌};
ghost use Rattle.graphql_shown_reports.specs.RuleNames.{building_name, details_name};

use graphql_building_reports::BuildingRule;
use graphql_diagnostics::Details;

/// The name of the rule that a diagnostic is about.
pub fn details_rule(details: &Details) -> &'static str
    ensures { result.now ≡ details_name details.now }
{
    match details {
        Details::Diagnostic(data) => data.name(),
        Details::Build(error) => error.name(),
        Details::RecursionLimit(_) => "RecursionLimit",
    }
}

/// The name of a rule of building.
pub fn building_rule(rule: &BuildingRule) -> &'static str
    ensures { result.now ≡ building_name rule.now }
{
    match rule {
        BuildingRule::TypeSystemDefinition => "TypeSystemDefinition",
        BuildingRule::AmbiguousAnonymousOperation => "AmbiguousAnonymousOperation",
        BuildingRule::OperationNameCollision { .. } => "OperationNameCollision",
        BuildingRule::FragmentNameCollision { .. } => "FragmentNameCollision",
        BuildingRule::UndefinedRootOperation { .. } => "UndefinedRootOperation",
        BuildingRule::UndefinedTypeInNamedFragmentTypeCondition { .. } =>
            "UndefinedTypeInNamedFragmentTypeCondition",
        BuildingRule::UndefinedTypeInInlineFragmentTypeCondition { .. } =>
            "UndefinedTypeInInlineFragmentTypeCondition",
        BuildingRule::InvalidFragmentTarget { .. } => "InvalidFragmentTarget",
        BuildingRule::UndefinedField { .. } => "UndefinedField",
        BuildingRule::SubselectionOnLeafType { .. } => "SubselectionOnLeafType",
        BuildingRule::ExecutableDefinition { .. } => "ExecutableDefinition",
        BuildingRule::SchemaDefinitionCollision { .. } => "SchemaDefinitionCollision",
        BuildingRule::DuplicateRootOperation { .. } => "DuplicateRootOperation",
        BuildingRule::BuiltInScalarTypeRedefinition => "BuiltInScalarTypeRedefinition",
        BuildingRule::TypeDefinitionCollision { .. } => "TypeDefinitionCollision",
        BuildingRule::DirectiveDefinitionCollision { .. } => "DirectiveDefinitionCollision",
        BuildingRule::OrphanTypeExtension { .. } => "OrphanTypeExtension",
        BuildingRule::TypeExtensionKindMismatch { .. } => "TypeExtensionKindMismatch",
        BuildingRule::BuiltInTypeExtension { .. } => "BuiltInTypeExtension",
        BuildingRule::ImplementedNonInterface { .. } => "ImplementedNonInterface",
        BuildingRule::OrphanSchemaExtension => "OrphanSchemaExtension",
        BuildingRule::MemberNameCollision { .. } => "MemberNameCollision",
        BuildingRule::DuplicateImplementsInterface { .. } => "DuplicateImplementsInterface",
    }
}
