//! The deprecated elements that values use.

ghost use Rattle.std.specs.Prelude.{OnOk, ◌∷◌, []};
ghost use Rattle.graphql_deprecations.specs.InOrder.{Adds, EntriesUse, InputFieldUses, ItemsUse, ValueUses};

use crate::elements::{add_enum_value, add_input_field, input_field_at};
use crate::reports::DeprecatedUsage;
use graphql_documents::documents::{InputValueDefinition, Schema, Value};
use graphql_nodes::{Name, NamedType, Node, ValidationError};

/// Adds the uses in a value where a value of the named type, or a list of such, is expected.
#[cycle(value)]
pub(crate) fn add_in_value(
    found: &mut Vec<DeprecatedUsage>,
    schema: &Schema,
    ty: &NamedType,
    value: &Value,
) -> Result<(), ValidationError>
    ensures { OnOk result (Adds (ValueUses schema.now ty.now value.now) found.old.items found.new.items) }
{
    match value {
        Value::Enum(name) => add_enum_value(found, schema, ty, name),
        Value::List(items) => add_in_items(found, schema, ty, items),
        Value::Object(entries) => add_in_entries(found, schema, ty, entries),
        _ => Ok(()),
    }
}

/// Adds the uses in the items of a list value. A value of the named type, or a list of such, is
/// expected.
///
/// Specification: 3.11 List.
#[cycle(value)]
fn add_in_items(
    found: &mut Vec<DeprecatedUsage>,
    schema: &Schema,
    ty: &NamedType,
    items: &[Node<Value>],
) -> Result<(), ValidationError>
    ensures { OnOk result (Adds (ItemsUse schema.now ty.now items.now) found.old.items found.new.items) }
{
    for item in items {
        add_in_value(found, schema, ty, &item.value)?;
    }
    Ok(())
}

/// Adds the uses in the entries of an object value. A value of the named type, or a list of such, is
/// expected.
///
/// Specification: 3.10 Input Objects.
#[cycle(value)]
fn add_in_entries(
    found: &mut Vec<DeprecatedUsage>,
    schema: &Schema,
    ty: &NamedType,
    entries: &[(Name, Node<Value>)],
) -> Result<(), ValidationError>
    ensures { OnOk result (Adds (EntriesUse schema.now ty.now entries.now) found.old.items found.new.items) }
{
    for (name, entry) in entries {
        add_in_entry(found, schema, ty, name, entry)?;
    }
    Ok(())
}

/// Adds the use of the input field that an entry of an object value gives, and those in the value of
/// the entry. Adds nothing if the type has no such input field.
#[cycle(value)]
fn add_in_entry(
    found: &mut Vec<DeprecatedUsage>,
    schema: &Schema,
    ty: &NamedType,
    name: &Name,
    value: &Node<Value>,
) -> Result<(), ValidationError>
    ensures { OnOk result (Adds (EntriesUse schema.now ty.now ((name.now, value.now) ∷ [])) found.old.items found.new.items) }
{
    match input_field_at(schema, ty, name) {
        Some(field) => {
            add_in_input_field(found, schema, ty, name, &field.node.value, &value.value)
        }
        None => Ok(()),
    }
}

#[cycle(value)]
fn add_in_input_field(
    found: &mut Vec<DeprecatedUsage>,
    schema: &Schema,
    ty: &NamedType,
    name: &Name,
    definition: &InputValueDefinition,
    value: &Value,
) -> Result<(), ValidationError>
    ensures { OnOk result (Adds (InputFieldUses schema.now ty.now name.now definition.now value.now) found.old.items found.new.items) }
{
    add_input_field(found, ty, name, &definition.directives)?;
    let field_type = definition.ty.value.inner_named_type();
    add_in_value(found, schema, field_type, value)
}
