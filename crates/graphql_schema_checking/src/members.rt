//! The names of what types are made of.

ghost use Rattle.std.specs.Prelude.{◌≡◌, ◌∷◌, ◌++◌, [], IfOk, OnOk, filter, flat_map, map};
ghost use Rattle.graphql_schema_checking.specs.Definitions.{interface_names, kind_of, member_names, same_kind};
ghost use Rattle.graphql_repetitions.specs.References.{nows};

use crate::kinds::{same_kind, type_kind};
use graphql_nodes::{Name, ValidationError};
use graphql_trees::{EnumValueDefinition, FieldDefinition, InputValueDefinition, TypeDefinition};
use std::alloc::Global;

/// The definition, then those of the extensions that are of its kind.
pub(crate) fn parts_of_kind<'a>(
    alloc: Global,
    definition: &'a TypeDefinition,
    extensions: &[&'a TypeDefinition],
) -> Result<Vec<&'a TypeDefinition>, ValidationError>
    ensures { IfOk result (λ parts. nows parts.items ≡
        definition.now ∷ filter (λ e. same_kind (kind_of definition.now) (kind_of e)) (nows extensions.now)) }
{
    let kind = type_kind(definition);
    let mut parts = Vec::new(alloc);
    parts.push(definition)?;
    for extension in extensions {
        if same_kind(kind, type_kind(*extension)) {
            parts.push(*extension)?;
        }
    }
    Ok(parts)
}

/// The names of the fields of these parts, of their members or of their values, in order.
pub(crate) fn member_names<'a>(
    alloc: Global,
    parts: &[&'a TypeDefinition],
) -> Result<Vec<&'a Name>, ValidationError>
    ensures { IfOk result (λ names. nows names.items ≡ flat_map member_names (nows parts.now)) }
{
    let mut names = Vec::new(alloc);
    for part in parts {
        add_members(&mut names, *part)?;
    }
    Ok(names)
}

fn add_members<'a>(
    names: &mut Vec<&'a Name>,
    part: &'a TypeDefinition,
) -> Result<(), ValidationError>
    ensures { OnOk result (nows names.new.items ≡ nows names.old.items ++ member_names part.now) }
{
    match part {
        TypeDefinition::Scalar(_) => Ok(()),
        TypeDefinition::Object(part) => add_fields(names, part.fields.as_slice()),
        TypeDefinition::Interface(part) => add_fields(names, part.fields.as_slice()),
        TypeDefinition::Union(part) => add_names(names, part.members.as_slice()),
        TypeDefinition::Enum(part) => add_values(names, part.values.as_slice()),
        TypeDefinition::InputObject(part) => add_input_fields(names, part.fields.as_slice()),
    }
}

/// The interfaces that these parts implement, in order.
pub(crate) fn interface_names<'a>(
    alloc: Global,
    parts: &[&'a TypeDefinition],
) -> Result<Vec<&'a Name>, ValidationError>
    ensures { IfOk result (λ names. nows names.items ≡ flat_map interface_names (nows parts.now)) }
{
    let mut names = Vec::new(alloc);
    add_all_interfaces(&mut names, parts)?;
    Ok(names)
}

/// The names of what types implement, by these definitions, then by these extensions. The only error is a failed allocation.
pub(crate) fn implemented_names<'a>(
    alloc: Global,
    types: &[&'a TypeDefinition],
    extensions: &[&'a TypeDefinition],
) -> Result<Vec<&'a Name>, ValidationError>
    ensures { IfOk result (λ names. nows names.items ≡ flat_map interface_names (nows types.now) ++ flat_map interface_names (nows extensions.now)) }
{
    let mut names = Vec::new(alloc);
    add_all_interfaces(&mut names, types)?;
    add_all_interfaces(&mut names, extensions)?;
    Ok(names)
}

fn add_all_interfaces<'a>(
    names: &mut Vec<&'a Name>,
    parts: &[&'a TypeDefinition],
) -> Result<(), ValidationError>
    ensures { OnOk result (nows names.new.items ≡ nows names.old.items ++ flat_map interface_names (nows parts.now)) }
{
    for part in parts {
        add_interfaces(names, *part)?;
    }
    Ok(())
}

fn add_interfaces<'a>(
    names: &mut Vec<&'a Name>,
    part: &'a TypeDefinition,
) -> Result<(), ValidationError>
    ensures { OnOk result (nows names.new.items ≡ nows names.old.items ++ interface_names part.now) }
{
    match part {
        TypeDefinition::Object(part) => add_names(names, part.interfaces.as_slice()),
        TypeDefinition::Interface(part) => add_names(names, part.interfaces.as_slice()),
        _ => Ok(()),
    }
}

fn add_names<'a>(names: &mut Vec<&'a Name>, more: &'a [Name]) -> Result<(), ValidationError>
    ensures { OnOk result (nows names.new.items ≡ nows names.old.items ++ more.now) }
{
    for name in more {
        names.push(name)?;
    }
    Ok(())
}

fn add_fields<'a>(
    names: &mut Vec<&'a Name>,
    fields: &'a [FieldDefinition],
) -> Result<(), ValidationError>
    ensures { OnOk result (nows names.new.items ≡ nows names.old.items ++ map (λ field. field.name) fields.now) }
{
    for field in fields {
        names.push(&field.name)?;
    }
    Ok(())
}

fn add_input_fields<'a>(
    names: &mut Vec<&'a Name>,
    fields: &'a [InputValueDefinition],
) -> Result<(), ValidationError>
    ensures { OnOk result (nows names.new.items ≡ nows names.old.items ++ map (λ field. field.name) fields.now) }
{
    for field in fields {
        names.push(&field.name)?;
    }
    Ok(())
}

fn add_values<'a>(
    names: &mut Vec<&'a Name>,
    values: &'a [EnumValueDefinition],
) -> Result<(), ValidationError>
    ensures { OnOk result (nows names.new.items ≡ nows names.old.items ++ map (λ value. value.name) values.now) }
{
    for value in values {
        names.push(&value.name)?;
    }
    Ok(())
}
