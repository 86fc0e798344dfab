//! Laws of values and of where variables may be.

ghost use Rattle.std.specs.Prelude.{◌≡◌, ◌≢◌, List, Vec, Some, None, IsTrue, IsFalse, length};
ghost use Rattle.std.specs.declared.alloc.Global.{Global};
ghost use Rattle.graphql_documents.specs.Values.{SameValue, VariablesIn};
ghost use Rattle.graphql_nodes.specs.Names.{NameText};
ghost use Rattle.graphql_specification.specs.Merging.{SameArguments};
ghost use Rattle.graphql_documents.specs.TypeReferences.{inner_named_type, is_non_null};
ghost use Rattle.graphql_documents.specs.Schemas.{type_definition};
ghost use Rattle.graphql_specification.specs.Values.{Accepts};
ghost use Rattle.graphql_documents.specs.declared.documents.schemas.ExtendedType.{ExtendedType};
ghost use Rattle.graphql_documents.specs.declared.documents.schemas.Schema.{Schema};
ghost use Rattle.graphql_documents.specs.declared.documents.type_references.Type.{«Type»};
ghost use Rattle.graphql_specification.specs.VariableUsages.{IsUsageAllowed};
ghost use Rattle.graphql_documents.specs.declared.documents.definitions.InputValueDefinition.{InputValueDefinition};
ghost use Rattle.graphql_documents.specs.declared.documents.definitions.VariableDefinition.{VariableDefinition};
ghost use Rattle.graphql_documents.specs.declared.documents.directives.Argument.{Argument};
ghost use Rattle.graphql_nodes.specs.declared.nodes.Node.{Node};
ghost use Rattle.graphql_documents.specs.declared.documents.values.Value.{Value};
ghost use Rattle.graphql_documents.specs.declared.documents.values.Value.TheVariants as literal;

/// Lists of different lengths are not the same value.
///
/// Specification: 5.3.2 Field Selection Merging.
pub fn list_of_another_length_is_another_value()
    ensures { (a b : Vec (Node Value) Global) → length a.items ≢ length b.items →
        ¬ SameValue (literal.List a) (literal.List b) }
{}

/// A default that is null is none, where a variable that may be null is at a place that takes no null and has
/// no default itself.
///
/// Specification: 5.8.5 All Variable Usages Are Allowed.
pub fn null_default_does_not_allow_a_variable()
    ensures { (v : VariableDefinition) (place : InputValueDefinition) (default : Node Value) →
        IsTrue (is_non_null place.ty.value.value) → place.default_value ≡ None →
        IsFalse (is_non_null v.ty.value.value) → v.default_value ≡ Some default → default.value.value ≡ literal.Null →
        ¬ IsUsageAllowed v place }
{}

/// A value is the same as itself.
///
/// Specification: 5.3.2 Field Selection Merging.
pub fn value_is_the_same_as_itself()
    ensures { (value : Value) → SameValue value value }
{}

/// Where a value is the same as another, that is the same as it.
///
/// Specification: 5.3.2 Field Selection Merging.
pub fn sameness_of_values_goes_both_ways()
    ensures { (a b : Value) → SameValue a b → SameValue b a }
{}

/// Values that are the same as a third are the same.
///
/// Specification: 5.3.2 Field Selection Merging.
pub fn sameness_of_values_goes_on()
    ensures { (a b c : Value) → SameValue a b → SameValue b c → SameValue a c }
{}

/// Arguments are the same as themselves.
///
/// Specification: 5.3.2 Field Selection Merging.
pub fn arguments_are_the_same_as_themselves()
    ensures { (given : List (Node Argument)) → SameArguments given given }
{}

/// Where arguments are the same as others, those are the same as they.
///
/// Specification: 5.3.2 Field Selection Merging.
pub fn sameness_of_arguments_goes_both_ways()
    ensures { (a b : List (Node Argument)) → SameArguments a b → SameArguments b a }
{}

/// Arguments that are the same as third ones are the same.
///
/// Specification: 5.3.2 Field Selection Merging.
pub fn sameness_of_arguments_goes_on()
    ensures { (a b c : List (Node Argument)) → SameArguments a b → SameArguments b c → SameArguments a c }
{}

/// Null is not accepted for a non-null type that is defined.
///
/// Specification: 5.6.1 Values of Correct Type; 3.12 Non-Null.
pub fn null_is_not_accepted_for_a_non_null_type()
    ensures { (schema : Schema) (variables : List (Node VariableDefinition)) (ty : «Type») (d : ExtendedType) →
        type_definition schema (inner_named_type ty) ≡ Some d → IsTrue (is_non_null ty) →
        ¬ Accepts schema variables ty literal.Null }
{}

/// Each value has a list of the variables in it.
///
/// Specification: 2.9 Input Values; 2.10 Variables.
pub fn each_value_has_its_variables()
    ensures { (value : Value) → (names : List NameText) × VariablesIn value names }
{}

/// There is one such list only.
///
/// Specification: 2.9 Input Values; 2.10 Variables.
pub fn no_value_has_other_variables()
    ensures { (value : Value) (a b : List NameText) → VariablesIn value a → VariablesIn value b → a ≡ b }
{}
