ghost use Rattle.std.specs.Prelude.{◌≡◌, ◌++◌, ◌∷◌, [], IfOk, OnOk, flat_map, map};
ghost use Rattle.graphql_specification.specs.DirectiveCycles.{by_directive, directive_part, input_references, references_of, type_part};
ghost use Rattle.graphql_cycles.specs.References.{reference_of};

use graphql_documents::documents::{
    Component, Directive, DirectiveDefinition, EnumValueDefinition, ExtendedType,
    InputValueDefinition,
};
use graphql_hash_seeds::HashSeed;
use graphql_nodes::{Name, NamedType, Node, ValidationError};
use indexmap::IndexMap;
use std::alloc::Global;

/// What a definition refers to: a directive that is applied in it, or the name of a type.
#[derive(Clone, Copy)]
pub(super) enum Reference<'schema> {
    Directive(&'schema Node<Directive>),
    Type(&'schema NamedType),
}

/// The references that are written in a directive definition, in order. The only error is a failed
/// allocation.
///
/// Specification: 3.13 Directives.
pub(super) fn references_of_directive<'schema>(
    alloc: Global,
    definition: &'schema Node<DirectiveDefinition>,
) -> Result<Vec<Reference<'schema>>, ValidationError>
    ensures { IfOk result (λ found. map reference_of found.items ≡ references_of (directive_part definition.now)) }
{
    let mut found = Vec::new(alloc);
    for argument in &definition.value.arguments {
        add_input(&mut found, argument)?;
    }
    Ok(found)
}

/// The references that are written in a type definition, in order: the directives on it, then for an
/// enum those on its values, and for an input object, field by field, the directives on the field and
/// its type. The only error is a failed allocation.
///
/// Specification: 3.13 Directives.
pub(super) fn references_of_type<'schema>(
    alloc: Global,
    definition: &'schema ExtendedType,
) -> Result<Vec<Reference<'schema>>, ValidationError>
    ensures { IfOk result (λ found. map reference_of found.items ≡ references_of (type_part definition.now)) }
{
    let mut found = Vec::new(alloc);
    add_references_of_type(&mut found, definition)?;
    Ok(found)
}

/// Adds the references that are written in a type definition.
fn add_references_of_type<'schema>(
    found: &mut Vec<Reference<'schema>>,
    definition: &'schema ExtendedType,
) -> Result<(), ValidationError>
    ensures { OnOk result (map reference_of found.new.items ≡ map reference_of found.old.items ++ references_of (type_part definition.now)) }
{
    match definition {
        ExtendedType::Scalar(scalar) => add_components(found, &scalar.value.directives),
        ExtendedType::Object(object) => add_components(found, &object.value.directives),
        ExtendedType::Interface(interface) => add_components(found, &interface.value.directives),
        ExtendedType::Union(union) => add_components(found, &union.value.directives),
        ExtendedType::Enum(enum_type) => {
            add_components(found, &enum_type.value.directives)?;
            add_values(found, &enum_type.value.values)
        }
        ExtendedType::InputObject(input_object) => {
            add_components(found, &input_object.value.directives)?;
            add_fields(found, &input_object.value.fields)
        }
    }
}

/// Adds the directives that are components of a definition.
fn add_components<'schema>(
    found: &mut Vec<Reference<'schema>>,
    directives: &'schema [Component<Directive>],
) -> Result<(), ValidationError>
    ensures { OnOk result (map reference_of found.new.items ≡ map reference_of found.old.items ++ map by_directive (map (λ c. c.node) directives.now)) }
{
    for directive in directives {
        found.push(Reference::Directive(&directive.node))?;
    }
    Ok(())
}

/// Adds the directives that are applied somewhere.
fn add_directives<'schema>(
    found: &mut Vec<Reference<'schema>>,
    directives: &'schema [Node<Directive>],
) -> Result<(), ValidationError>
    ensures { OnOk result (map reference_of found.new.items ≡ map reference_of found.old.items ++ map by_directive directives.now) }
{
    for directive in directives {
        found.push(Reference::Directive(directive))?;
    }
    Ok(())
}

/// Adds the directives of the values of an enum.
fn add_values<'schema>(
    found: &mut Vec<Reference<'schema>>,
    values: &'schema IndexMap<Name, Component<EnumValueDefinition>, HashSeed>,
) -> Result<(), ValidationError>
    ensures { OnOk result (map reference_of found.new.items ≡ map reference_of found.old.items ++
        flat_map (λ entry. map by_directive entry.1.node.value.value.directives.items) values.now.entries) }
{
    for (_, value) in values {
        add_directives(found, &value.node.value.directives)?;
    }
    Ok(())
}

/// Adds the references of the fields of an input object.
fn add_fields<'schema>(
    found: &mut Vec<Reference<'schema>>,
    fields: &'schema IndexMap<Name, Component<InputValueDefinition>, HashSeed>,
) -> Result<(), ValidationError>
    ensures { OnOk result (map reference_of found.new.items ≡ map reference_of found.old.items ++
        input_references (map (λ entry. entry.1.node) fields.now.entries)) }
{
    for (_, field) in fields {
        add_input(found, &field.node)?;
    }
    Ok(())
}

/// Adds the references of an argument or input field: the directives on it, and its type.
fn add_input<'schema>(
    found: &mut Vec<Reference<'schema>>,
    input: &'schema Node<InputValueDefinition>,
) -> Result<(), ValidationError>
    ensures { OnOk result (map reference_of found.new.items ≡ map reference_of found.old.items ++ input_references (input.now ∷ [])) }
{
    add_directives(found, &input.value.directives)?;
    found.push(Reference::Type(input.value.ty.value.inner_named_type()))?;
    Ok(())
}
