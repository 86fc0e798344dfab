//! Laws of values and variables: what an argument or an input field took it still takes.

ghost use Rattle.std.specs.Prelude.{IsTrue, List};
ghost use Rattle.graphql_nodes.specs.Names.{NameText};
ghost use Rattle.graphql_nodes.specs.declared.nodes.Node.{Node};
ghost use Rattle.graphql_documents.specs.TypeReferences.{inner_named_type, is_assignable};
ghost use Rattle.graphql_documents.specs.declared.documents.definitions.InputValueDefinition.{InputValueDefinition};
ghost use Rattle.graphql_documents.specs.declared.documents.definitions.VariableDefinition.{VariableDefinition};
ghost use Rattle.graphql_documents.specs.declared.documents.schemas.Schema.{Schema};
ghost use Rattle.graphql_documents.specs.declared.documents.type_references.Type.{«Type»};
ghost use Rattle.graphql_documents.specs.declared.documents.values.Value.{Value};
ghost use Rattle.graphql_schema_changes.specs.Keeps.{AnyInput, KeepsInput, KeepsInputValue};
ghost use Rattle.graphql_schema_laws.specs.InputFields.{InputObjectsHaveFieldsOfMaps};
ghost use Rattle.graphql_specification.specs.Values.{Accepts};
ghost use Rattle.graphql_specification.specs.VariableUsages.{IsUsageAllowed};
ghost use Rattle.graphql_kept_rules.specs.InputTypes.{HasInputFieldTypes};

/// A variable may be used for an argument or an input field that takes what it took, if it might be.
///
/// Specification: 5.8.5 All Variable Usages Are Allowed.
pub fn allowed_usages_stay_allowed()
    ensures { (v : VariableDefinition) (old new : InputValueDefinition) → KeepsInputValue old new → IsUsageAllowed v old → IsUsageAllowed v new }
{}

/// A value that is accepted for an input type is accepted for it in a schema that keeps the input types, and for each type that
/// differs from it by no more than that it takes null where it did not.
///
/// Specification: 5.6.1 Values of Correct Type.
pub fn accepted_values_stay_accepted()
    ensures { (old new : Schema) → HasInputFieldTypes old → InputObjectsHaveFieldsOfMaps new → ((name : NameText) → AnyInput old name → KeepsInput old new name) →
        (variables : List (Node VariableDefinition)) (ty other : «Type») (value : Node Value) → IsTrue (is_assignable ty other) → AnyInput old (inner_named_type ty) →
        Accepts old variables ty value.value.value → Accepts new variables other value.value.value }
{}
