//! Types, of their definitions and extensions.

ghost use Rattle.std.specs.Prelude.{◌≡◌, IfOk};
ghost use Rattle.graphql_leaf_building.specs.Definitions.{EnumValueSays, FieldDefinitionSays, InputValueSays};
ghost use Rattle.graphql_leaf_building.specs.Directives.{DirectiveSays};
ghost use Rattle.graphql_schema_checking.specs.Definitions.{interface_names};
ghost use Rattle.graphql_nodes.specs.Names.{AreDistinct};
ghost use Rattle.graphql_schema_building.specs.Parts.{ComponentsSay, EntriesSay, listed_by, names_said, written_names};
ghost use Rattle.graphql_schema_building.specs.TypeParts.{originated};
ghost use Rattle.graphql_schema_building.specs.TypesSay.{EnumSays, InputObjectSays, InterfaceSays, ObjectSays, PartsAreDistinct, PartsSay, ScalarSays, UnionSays, written_directives, written_fields, written_input_fields, written_members, written_values};

use crate::parts::{add_directives, add_fields, add_input_fields, add_names, add_values};
use graphql_documents::documents::{
    Component, ComponentName, ComponentOrigin, Directive, EnumType, EnumValueDefinition,
    ExtendedType, FieldDefinition, InputObjectType, InputValueDefinition, InterfaceType,
    ObjectType, ScalarType, UnionType,
};
use graphql_hash_seeds::HashSeed;
use graphql_nodes::{Name, Node, ValidationError};
use graphql_schema_checking::kinds::{type_name, type_span};
use graphql_trees::{
    Directive as DirectiveTree, EnumValueDefinition as EnumValueTree,
    FieldDefinition as FieldDefinitionTree, InputValueDefinition as InputValueTree, TypeDefinition,
};
use indexmap::{IndexMap, IndexSet};
use std::alloc::Global;

/// A definition or an extension of a type, with its origin.
///
/// Specification: 3.4.3 Type Extensions.
#[derive(Clone, Copy)]
pub struct TypePart<'a> {
    pub origin: ComponentOrigin,
    pub definition: &'a TypeDefinition,
}

/// The scalar that a definition says with these parts, at its place. The only error is a
/// failed allocation.
///
/// Specification: 3.5 Scalars.
pub fn build_scalar(
    alloc: Global,
    definition: &TypeDefinition,
    parts: &[TypePart<'_>],
) -> Result<Node<ScalarType>, ValidationError>
    ensures { IfOk result (λ scalar. ScalarSays definition.now (originated parts.now) scalar) }
{
    let name = type_name(definition).clone_in(alloc)?;
    let directives = directives_of(alloc, parts)?;
    Node::new_located(
        alloc,
        ScalarType { name, directives },
        type_span(definition),
    )
}

/// The directives of these parts, one part after another, each with the origin of its part. The only error is a
/// failed allocation.
///
/// Specification: 3.4.3 Type Extensions.
pub fn directives_of(
    alloc: Global,
    parts: &[TypePart<'_>],
) -> Result<Vec<Component<Directive>>, ValidationError>
    ensures { IfOk result (λ directives. ComponentsSay DirectiveSays (listed_by written_directives (originated parts.now)) directives.items) }
{
    let mut directives = Vec::new(alloc);
    for part in parts {
        add_directives(
            &mut directives,
            alloc,
            part.origin,
            written_directives(part.definition),
        )?;
    }
    Ok(directives)
}

fn written_directives(definition: &TypeDefinition) -> &[DirectiveTree]
    ensures { result.now ≡ written_directives definition.now }
{
    match definition {
        TypeDefinition::Scalar(definition) => definition.directives.as_slice(),
        TypeDefinition::Object(definition) => definition.directives.as_slice(),
        TypeDefinition::Interface(definition) => definition.directives.as_slice(),
        TypeDefinition::Union(definition) => definition.directives.as_slice(),
        TypeDefinition::Enum(definition) => definition.directives.as_slice(),
        TypeDefinition::InputObject(definition) => definition.directives.as_slice(),
    }
}

/// The enum that a definition says with these parts, at its place. The only error is a
/// failed allocation.
///
/// Specification: 3.9 Enums.
pub fn build_enum(
    alloc: Global,
    hash_seed: HashSeed,
    definition: &TypeDefinition,
    parts: &[TypePart<'_>],
) -> Result<Node<EnumType>, ValidationError>
    requires { AreDistinct (written_names (λ x. x.name) (listed_by written_values (originated parts.now))) }
    ensures { IfOk result (λ built. EnumSays definition.now (originated parts.now) built) }
{
    let name = type_name(definition).clone_in(alloc)?;
    let directives = directives_of(alloc, parts)?;
    let values = values_of(alloc, hash_seed, parts)?;
    let built = EnumType {
        name,
        directives,
        values,
    };
    Node::new_located(alloc, built, type_span(definition))
}

/// The input object that a definition says with these parts, at its place. The only error is a
/// failed allocation.
///
/// Specification: 3.10 Input Objects.
pub fn build_input_object(
    alloc: Global,
    hash_seed: HashSeed,
    definition: &TypeDefinition,
    parts: &[TypePart<'_>],
) -> Result<Node<InputObjectType>, ValidationError>
    requires { AreDistinct (written_names (λ x. x.name) (listed_by written_input_fields (originated parts.now))) }
    ensures { IfOk result (λ built. InputObjectSays definition.now (originated parts.now) built) }
{
    let name = type_name(definition).clone_in(alloc)?;
    let directives = directives_of(alloc, parts)?;
    let fields = input_fields_of(alloc, hash_seed, parts)?;
    let built = InputObjectType {
        name,
        directives,
        fields,
    };
    Node::new_located(alloc, built, type_span(definition))
}

/// The fields of these parts, one part after another, each under its name and with the origin of its part.
/// The only error is a
/// failed allocation.
///
/// Specification: 3.6 Objects; 3.7 Interfaces.
pub fn fields_of(
    alloc: Global,
    hash_seed: HashSeed,
    parts: &[TypePart<'_>],
) -> Result<IndexMap<Name, Component<FieldDefinition>, HashSeed>, ValidationError>
    requires { AreDistinct (written_names (λ x. x.name) (listed_by written_fields (originated parts.now))) }
    ensures { IfOk result (λ fields. EntriesSay (λ x. x.name) FieldDefinitionSays (listed_by written_fields (originated parts.now)) fields.entries) }
{
    let mut fields = IndexMap::with_hasher(alloc, hash_seed);
    for part in parts {
        add_fields(
            &mut fields,
            alloc,
            part.origin,
            written_fields(part.definition),
        )?;
    }
    Ok(fields)
}

fn written_fields(definition: &TypeDefinition) -> &[FieldDefinitionTree]
    ensures { result.now ≡ written_fields definition.now }
{
    match definition {
        TypeDefinition::Object(definition) => definition.fields.as_slice(),
        TypeDefinition::Interface(definition) => definition.fields.as_slice(),
        _ => &[],
    }
}

/// The fields of an input object of these parts, one part after another, each under its name and with the origin of its part.
/// The only error is a
/// failed allocation.
///
/// Specification: 3.10 Input Objects.
pub fn input_fields_of(
    alloc: Global,
    hash_seed: HashSeed,
    parts: &[TypePart<'_>],
) -> Result<IndexMap<Name, Component<InputValueDefinition>, HashSeed>, ValidationError>
    requires { AreDistinct (written_names (λ x. x.name) (listed_by written_input_fields (originated parts.now))) }
    ensures { IfOk result (λ input_fields. EntriesSay (λ x. x.name) InputValueSays (listed_by written_input_fields (originated parts.now)) input_fields.entries) }
{
    let mut input_fields = IndexMap::with_hasher(alloc, hash_seed);
    for part in parts {
        add_input_fields(
            &mut input_fields,
            alloc,
            part.origin,
            written_input_fields(part.definition),
        )?;
    }
    Ok(input_fields)
}

fn written_input_fields(definition: &TypeDefinition) -> &[InputValueTree]
    ensures { result.now ≡ written_input_fields definition.now }
{
    match definition {
        TypeDefinition::InputObject(definition) => definition.fields.as_slice(),
        _ => &[],
    }
}

/// The values of an enum of these parts, one part after another, each under its name and with the origin of its part.
/// The only error is a
/// failed allocation.
///
/// Specification: 3.9 Enums.
pub fn values_of(
    alloc: Global,
    hash_seed: HashSeed,
    parts: &[TypePart<'_>],
) -> Result<IndexMap<Name, Component<EnumValueDefinition>, HashSeed>, ValidationError>
    requires { AreDistinct (written_names (λ x. x.name) (listed_by written_values (originated parts.now))) }
    ensures { IfOk result (λ values. EntriesSay (λ x. x.name) EnumValueSays (listed_by written_values (originated parts.now)) values.entries) }
{
    let mut values = IndexMap::with_hasher(alloc, hash_seed);
    for part in parts {
        add_values(
            &mut values,
            alloc,
            part.origin,
            written_values(part.definition),
        )?;
    }
    Ok(values)
}

fn written_values(definition: &TypeDefinition) -> &[EnumValueTree]
    ensures { result.now ≡ written_values definition.now }
{
    match definition {
        TypeDefinition::Enum(definition) => definition.values.as_slice(),
        _ => &[],
    }
}

/// The object that a definition says with these parts, at its place. The only error is a
/// failed allocation.
///
/// Specification: 3.6 Objects.
pub fn build_object(
    alloc: Global,
    hash_seed: HashSeed,
    definition: &TypeDefinition,
    parts: &[TypePart<'_>],
) -> Result<Node<ObjectType>, ValidationError>
    requires interfaces { AreDistinct (written_names (λ x. x) (listed_by interface_names (originated parts.now))) }
    requires fields { AreDistinct (written_names (λ x. x.name) (listed_by written_fields (originated parts.now))) }
    ensures { IfOk result (λ built. ObjectSays definition.now (originated parts.now) built) }
{
    let name = type_name(definition).clone_in(alloc)?;
    let implements_interfaces = interfaces_of(alloc, hash_seed, parts)?;
    let directives = directives_of(alloc, parts)?;
    let fields = fields_of(alloc, hash_seed, parts)?;
    let built = ObjectType {
        name,
        implements_interfaces,
        directives,
        fields,
    };
    Node::new_located(alloc, built, type_span(definition))
}

/// The interface that a definition says with these parts, at its place. The only error is a
/// failed allocation.
///
/// Specification: 3.7 Interfaces.
pub fn build_interface(
    alloc: Global,
    hash_seed: HashSeed,
    definition: &TypeDefinition,
    parts: &[TypePart<'_>],
) -> Result<Node<InterfaceType>, ValidationError>
    requires interfaces { AreDistinct (written_names (λ x. x) (listed_by interface_names (originated parts.now))) }
    requires fields { AreDistinct (written_names (λ x. x.name) (listed_by written_fields (originated parts.now))) }
    ensures { IfOk result (λ built. InterfaceSays definition.now (originated parts.now) built) }
{
    let name = type_name(definition).clone_in(alloc)?;
    let implements_interfaces = interfaces_of(alloc, hash_seed, parts)?;
    let directives = directives_of(alloc, parts)?;
    let fields = fields_of(alloc, hash_seed, parts)?;
    let built = InterfaceType {
        name,
        implements_interfaces,
        directives,
        fields,
    };
    Node::new_located(alloc, built, type_span(definition))
}

/// The union that a definition says with these parts, at its place. The only error is a
/// failed allocation.
///
/// Specification: 3.8 Unions.
pub fn build_union(
    alloc: Global,
    hash_seed: HashSeed,
    definition: &TypeDefinition,
    parts: &[TypePart<'_>],
) -> Result<Node<UnionType>, ValidationError>
    requires { AreDistinct (written_names (λ x. x) (listed_by written_members (originated parts.now))) }
    ensures { IfOk result (λ built. UnionSays definition.now (originated parts.now) built) }
{
    let name = type_name(definition).clone_in(alloc)?;
    let directives = directives_of(alloc, parts)?;
    let members = members_of(alloc, hash_seed, parts)?;
    let built = UnionType {
        name,
        directives,
        members,
    };
    Node::new_located(alloc, built, type_span(definition))
}

/// The interfaces of these parts, one part after another, each with the origin of its part. The only error is a
/// failed allocation.
///
/// Specification: 3.6 Objects; 3.7 Interfaces.
pub fn interfaces_of(
    alloc: Global,
    hash_seed: HashSeed,
    parts: &[TypePart<'_>],
) -> Result<IndexSet<ComponentName, HashSeed>, ValidationError>
    requires { AreDistinct (written_names (λ x. x) (listed_by interface_names (originated parts.now))) }
    ensures { IfOk result (λ names. names.keys ≡ names_said (listed_by interface_names (originated parts.now))) }
{
    let mut names = IndexSet::with_hasher(alloc, hash_seed);
    for part in parts {
        add_names(
            &mut names,
            alloc,
            part.origin,
            written_interfaces(part.definition),
        )?;
    }
    Ok(names)
}

fn written_interfaces(definition: &TypeDefinition) -> &[Name]
    ensures { result.now ≡ interface_names definition.now }
{
    match definition {
        TypeDefinition::Object(definition) => definition.interfaces.as_slice(),
        TypeDefinition::Interface(definition) => definition.interfaces.as_slice(),
        _ => &[],
    }
}

/// The members of a union of these parts, one part after another, each with the origin of its part. The only error is a
/// failed allocation.
///
/// Specification: 3.8 Unions.
pub fn members_of(
    alloc: Global,
    hash_seed: HashSeed,
    parts: &[TypePart<'_>],
) -> Result<IndexSet<ComponentName, HashSeed>, ValidationError>
    requires { AreDistinct (written_names (λ x. x) (listed_by written_members (originated parts.now))) }
    ensures { IfOk result (λ names. names.keys ≡ names_said (listed_by written_members (originated parts.now))) }
{
    let mut names = IndexSet::with_hasher(alloc, hash_seed);
    for part in parts {
        add_names(
            &mut names,
            alloc,
            part.origin,
            written_members(part.definition),
        )?;
    }
    Ok(names)
}

fn written_members(definition: &TypeDefinition) -> &[Name]
    ensures { result.now ≡ written_members definition.now }
{
    match definition {
        TypeDefinition::Union(definition) => definition.members.as_slice(),
        _ => &[],
    }
}

/// The type that a definition says with these parts, at its place. The only error is a
/// failed allocation.
///
/// Specification: 3.4 Types.
pub fn build_type(
    alloc: Global,
    hash_seed: HashSeed,
    definition: &TypeDefinition,
    parts: &[TypePart<'_>],
) -> Result<ExtendedType, ValidationError>
    requires { PartsAreDistinct (originated parts.now) }
    ensures { IfOk result (λ built. PartsSay definition.now (originated parts.now) built) }
{
    match definition {
        TypeDefinition::Scalar(_) => {
            Ok(ExtendedType::Scalar(build_scalar(alloc, definition, parts)?))
        }
        TypeDefinition::Object(_) => {
            Ok(ExtendedType::Object(build_object(alloc, hash_seed, definition, parts)?))
        }
        TypeDefinition::Interface(_) => Ok(ExtendedType::Interface(build_interface(
            alloc, hash_seed, definition, parts,
        )?)),
        TypeDefinition::Union(_) => {
            Ok(ExtendedType::Union(build_union(alloc, hash_seed, definition, parts)?))
        }
        TypeDefinition::Enum(_) => Ok(ExtendedType::Enum(build_enum(
            alloc, hash_seed, definition, parts,
        )?)),
        TypeDefinition::InputObject(_) => Ok(ExtendedType::InputObject(build_input_object(
            alloc, hash_seed, definition, parts,
        )?)),
    }
}
