ghost use Rattle.std.specs.Prelude.{◌≡◌, ◌↔◌, ◌||◌, Some, IsTrue};
ghost use Rattle.graphql_specification.specs.Values.{is_built_in_scalar, is_custom_scalar};
ghost use Rattle.graphql_nodes.specs.Names.{SameName};
ghost use Rattle.graphql_documents.specs.Schemas.{is_input_type, type_definition};
ghost use Rattle.graphql_documents.specs.TypeReferences.{inner_named_type, is_list};
ghost use Rattle.graphql_documents.specs.declared.documents.schemas.Schema.{Schema};
ghost use Rattle.graphql_documents.specs.declared.documents.values.Value.TheVariants as literal;
ghost use Rattle.graphql_values.specs.ValueSteps.{ChecksDefined, ChecksValue, is_other_scalar, takes_every_int, takes_other_scalar, written_at};

use super::expected::ExpectedType;
use super::reports::unsupported_type;
use graphql_diagnostics::{Details, DiagnosticData, DiagnosticList};
use graphql_documents::documents::{ExtendedType, Type, Value, VariableDefinition};
use graphql_nodes::{Name, Node, SourceSpan, ValidationError};
use graphql_numbers::IntValue;
use graphql_variables::VariablesByName;

/// Whether the type is a scalar that is not one of those that every schema has.
///
/// Specification: 3.5 Scalars, Custom Scalars.
pub(super) fn is_custom_scalar(definition: &ExtendedType) -> bool
    ensures { result ≡ is_custom_scalar definition.now }
{
    matches!(definition, ExtendedType::Scalar(_)) && !definition.is_built_in()
}

/// Whether the type is the scalar of this name that every schema has.
///
/// Specification: 3.5 Scalars, Built-in Scalars.
fn is_built_in_scalar(definition: &ExtendedType, name: &str) -> bool
    ensures { result ≡ is_built_in_scalar name.now definition.now }
{
    match definition {
        ExtendedType::Scalar(scalar) => {
            definition.is_built_in() && scalar.value.name.as_str() == name
        }
        _ => false,
    }
}

/// Whether lists are values of the type, if their items are: it is a list or a custom scalar.
///
/// Specification: 3.11 List, Input Coercion.
pub(super) fn takes_lists(expected: &ExpectedType<'_>) -> bool
    ensures { result ≡ (is_list expected.now.ty.now || is_custom_scalar expected.now.definition.now) }
{
    expected.ty.is_list() || is_custom_scalar(expected.definition)
}

/// Reports `null` for a type that does not take it.
///
/// Specification: 3.12 Non-Null, Input Coercion.
pub(super) fn check_null(
    diagnostics: &mut DiagnosticList,
    expected: &ExpectedType<'_>,
    value: &Node<Value>,
) -> Result<(), ValidationError>
    requires { value.now.value.value ≡ literal.Null }
    ensures { ChecksDefined result expected.now.definition.now (written_at expected.now.ty.now expected.now.location) value.now diagnostics.old diagnostics.new }
{
    if !expected.ty.is_non_null() {
        return Ok(());
    }
    unsupported_type(diagnostics, expected, value)
}

/// Reports an enum value that is not one of the type.
///
/// Specification: 3.9 Enums, Input Coercion.
pub(super) fn check_enum_value(
    diagnostics: &mut DiagnosticList,
    expected: &ExpectedType<'_>,
    value: &Node<Value>,
    name: &Name,
) -> Result<(), ValidationError>
    requires { value.now.value.value ≡ literal.Enum name.now }
    ensures { ChecksDefined result expected.now.definition.now (written_at expected.now.ty.now expected.now.location) value.now diagnostics.old diagnostics.new }
{
    if is_custom_scalar(expected.definition) {
        return Ok(());
    }
    let ExtendedType::Enum(enum_type) = expected.definition else {
        return unsupported_type(diagnostics, expected, value);
    };
    if enum_type.value.values.contains_key(name) {
        return Ok(());
    }
    let reported = name.clone()?;
    let definition_name = enum_type.value.name.clone()?;
    diagnostics.push(
        name.location(),
        Details::Diagnostic(DiagnosticData::UndefinedEnumValue {
            value: reported,
            definition: definition_name,
            definition_location: enum_type.location,
        }),
    )
}

/// Reports an integer for a type that takes none, or that does not hold this one.
///
/// Specification: 3.5.1 Int, 3.5.2 Float and 3.5.5 ID, Input Coercion.
pub(super) fn check_int(
    diagnostics: &mut DiagnosticList,
    expected: &ExpectedType<'_>,
    value: &Node<Value>,
    number: &IntValue,
) -> Result<(), ValidationError>
    requires { value.now.value.value ≡ literal.Int number.now }
    ensures { ChecksDefined result expected.now.definition.now (written_at expected.now.ty.now expected.now.location) value.now diagnostics.old diagnostics.new }
{
    if takes_every_int(expected.definition) {
        return Ok(());
    }
    if !is_built_in_scalar(expected.definition, "Int") {
        return unsupported_type(diagnostics, expected, value);
    }
    if number.try_to_i32().is_some() {
        return Ok(());
    }
    let text = number.as_str().to_string(diagnostics.allocator())?;
    diagnostics.push(
        value.location,
        Details::Diagnostic(DiagnosticData::IntCoercionError { value: text }),
    )
}

/// Whether the type is a scalar that takes each integer.
fn takes_every_int(definition: &ExtendedType) -> bool
    ensures { result ≡ takes_every_int definition.now }
{
    is_custom_scalar(definition)
        || is_built_in_scalar(definition, "ID")
        || is_built_in_scalar(definition, "Float")
}

/// Reports a string, a float or a boolean for a type that takes none.
///
/// Specification: 3.5.2 Float, 3.5.3 String, 3.5.4 Boolean and 3.5.5 ID, Input Coercion.
pub(super) fn check_other_scalar(
    diagnostics: &mut DiagnosticList,
    expected: &ExpectedType<'_>,
    value: &Node<Value>,
) -> Result<(), ValidationError>
    requires { IsTrue (is_other_scalar value.now.value.value) }
    ensures { ChecksDefined result expected.now.definition.now (written_at expected.now.ty.now expected.now.location) value.now diagnostics.old diagnostics.new }
{
    if takes_other_scalar(expected.definition, &value.value) {
        return Ok(());
    }
    unsupported_type(diagnostics, expected, value)
}

/// Whether the type is a scalar that takes this string, float or boolean.
fn takes_other_scalar(definition: &ExtendedType, value: &Value) -> bool
    ensures { result ≡ takes_other_scalar definition.now value.now }
{
    match value {
        Value::String(_) => {
            is_custom_scalar(definition)
                || is_built_in_scalar(definition, "String")
                || is_built_in_scalar(definition, "ID")
        }
        Value::Float(_) => {
            is_custom_scalar(definition) || is_built_in_scalar(definition, "Float")
        }
        Value::Boolean(_) => {
            is_custom_scalar(definition) || is_built_in_scalar(definition, "Boolean")
        }
        _ => false,
    }
}

/// Reports a variable that is not defined, or whose innermost type is another.
///
/// Specification: 5.8.3 All Variable Uses Defined; 5.8.5 All Variable Usages Are Allowed.
pub(super) fn check_variable(
    diagnostics: &mut DiagnosticList,
    expected: &ExpectedType<'_>,
    value: &Node<Value>,
    name: &Name,
    variables: &VariablesByName,
) -> Result<(), ValidationError>
    requires { value.now.value.value ≡ literal.Variable name.now }
    ensures { (schema : Schema) → type_definition schema (inner_named_type expected.now.ty.now) ≡ Some expected.now.definition.now →
        ChecksValue result schema variables.now (written_at expected.now.ty.now expected.now.location) value.now diagnostics.old diagnostics.new }
{
    let Some(variable) = variables.find(name) else {
        let name = name.clone()?;
        return diagnostics.push(
            value.location,
            Details::Diagnostic(DiagnosticData::UndefinedVariable { name }),
        );
    };
    if can_stand(expected, &variable.value) {
        return Ok(());
    }
    unsupported_type(diagnostics, expected, value)
}

/// Whether a variable can stand for a type: arguments may have it, and the innermost names are the same.
fn can_stand(expected: &ExpectedType<'_>, variable: &VariableDefinition) -> bool
    ensures { IsTrue result ↔
        (IsTrue (is_input_type expected.now.definition.now) ×
        SameName (inner_named_type variable.now.ty.value.value) (inner_named_type expected.now.ty.now)) }
{
    expected.definition.is_input_type()
        && variable.ty.value.inner_named_type() == expected.ty.inner_named_type()
}
