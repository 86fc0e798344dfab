//! The extensions that make up a type definition.

ghost use Rattle.std.specs.Prelude.{◌≡◌, ◌∷◌, [], IfOk, OnOk, map};
ghost use Rattle.graphql_documents.specs.Extensions.{extensions_among, extensions_in, origins_of};
ghost use Rattle.graphql_documents.specs.declared.documents.schemas.ExtendedType.TheVariants as types;
ghost use Rattle.graphql_schemas.specs.FoundExtensions.{HasTheirNumbers};

use graphql_documents::documents::{
    Component, ComponentName, ComponentOrigin, EnumType, ExtendedType, ExtensionId,
    InputObjectType, InterfaceType, ObjectType, ScalarType, UnionType,
};
use graphql_hash_seeds::HashSeed;
use graphql_nodes::{Name, Node, SourceSpan, ValidationError};
use indexmap::IndexMap;
use std::alloc::Global;
use std::collections::HashSet;

/// Extensions that were found, each once, and the set of their numbers.
#[derive(Drop)]
struct FoundExtensions {
    extensions: Vec<ExtensionId>,
    numbers: HashSet<u32>,
}

impl FoundExtensions {
    /// None. This takes no memory.
    fn none(alloc: Global) -> FoundExtensions
        ensures extensions { result.extensions.items ≡ [] }
        ensures numbers { HasTheirNumbers result }
    {
        FoundExtensions {
            extensions: Vec::new(alloc),
            numbers: HashSet::new(alloc),
        }
    }
}

/// The different extensions in which the directives of a type, its interfaces and its contents were written,
/// in that order. The only error is a failed allocation.
///
/// Specification: 3.4.3 Type Extensions.
pub fn extensions(
    alloc: Global,
    definition: &ExtendedType,
) -> Result<Vec<ExtensionId>, ValidationError>
    ensures { IfOk result (λ found. found.items ≡ extensions_in (origins_of definition.now)) }
{
    match definition {
        ExtendedType::Scalar(scalar) => scalar_extensions(alloc, scalar),
        ExtendedType::Object(object) => object_extensions(alloc, object),
        ExtendedType::Interface(interface) => interface_extensions(alloc, interface),
        ExtendedType::Union(union) => union_extensions(alloc, union),
        ExtendedType::Enum(enum_type) => enum_extensions(alloc, enum_type),
        ExtendedType::InputObject(input_object) => input_object_extensions(alloc, input_object),
    }
}

/// Where extensions are, in order. The only error is a failed allocation.
pub fn locations_of(
    alloc: Global,
    extensions: &[ExtensionId],
) -> Result<Vec<Option<SourceSpan>>, ValidationError>
    ensures { IfOk result (λ locations. locations.items ≡ map (λ e. e.location) extensions.now) }
{
    let mut locations = Vec::new(alloc);
    for extension in extensions {
        locations.push(extension.location)?;
    }
    Ok(locations)
}

/// The extensions that make up a scalar.
fn scalar_extensions(
    alloc: Global,
    scalar: &Node<ScalarType>,
) -> Result<Vec<ExtensionId>, ValidationError>
    ensures { IfOk result (λ found. found.items ≡ extensions_in (origins_of (types.Scalar scalar.now))) }
{
    let mut found = FoundExtensions::none(alloc);
    add_components(&mut found, &scalar.value.directives)?;
    Ok(found.extensions)
}

/// The extensions that make up an object. The only error is a failed allocation.
///
/// Specification: 3.4.3 Type Extensions.
pub fn object_extensions(
    alloc: Global,
    object: &Node<ObjectType>,
) -> Result<Vec<ExtensionId>, ValidationError>
    ensures { IfOk result (λ found. found.items ≡ extensions_in (origins_of (types.Object object.now))) }
{
    let mut found = FoundExtensions::none(alloc);
    add_components(&mut found, &object.value.directives)?;
    add_names(&mut found, object.value.implements_interfaces.as_slice())?;
    add_entries(&mut found, &object.value.fields)?;
    Ok(found.extensions)
}

/// The extensions that make up an interface. The only error is a failed allocation.
///
/// Specification: 3.4.3 Type Extensions.
pub fn interface_extensions(
    alloc: Global,
    interface: &Node<InterfaceType>,
) -> Result<Vec<ExtensionId>, ValidationError>
    ensures { IfOk result (λ found. found.items ≡ extensions_in (origins_of (types.Interface interface.now))) }
{
    let mut found = FoundExtensions::none(alloc);
    add_components(&mut found, &interface.value.directives)?;
    add_names(&mut found, interface.value.implements_interfaces.as_slice())?;
    add_entries(&mut found, &interface.value.fields)?;
    Ok(found.extensions)
}

/// The extensions that make up a union. The only error is a failed allocation.
///
/// Specification: 3.4.3 Type Extensions.
pub fn union_extensions(
    alloc: Global,
    union: &Node<UnionType>,
) -> Result<Vec<ExtensionId>, ValidationError>
    ensures { IfOk result (λ found. found.items ≡ extensions_in (origins_of (types.Union union.now))) }
{
    let mut found = FoundExtensions::none(alloc);
    add_components(&mut found, &union.value.directives)?;
    add_names(&mut found, union.value.members.as_slice())?;
    Ok(found.extensions)
}

/// The extensions that make up an enum. The only error is a failed allocation.
///
/// Specification: 3.4.3 Type Extensions.
pub fn enum_extensions(
    alloc: Global,
    enum_type: &Node<EnumType>,
) -> Result<Vec<ExtensionId>, ValidationError>
    ensures { IfOk result (λ found. found.items ≡ extensions_in (origins_of (types.Enum enum_type.now))) }
{
    let mut found = FoundExtensions::none(alloc);
    add_components(&mut found, &enum_type.value.directives)?;
    add_entries(&mut found, &enum_type.value.values)?;
    Ok(found.extensions)
}

/// The extensions that make up an input object. The only error is a failed allocation.
///
/// Specification: 3.4.3 Type Extensions.
pub fn input_object_extensions(
    alloc: Global,
    input_object: &Node<InputObjectType>,
) -> Result<Vec<ExtensionId>, ValidationError>
    ensures { IfOk result (λ found. found.items ≡ extensions_in (origins_of (types.InputObject input_object.now))) }
{
    let mut found = FoundExtensions::none(alloc);
    add_components(&mut found, &input_object.value.directives)?;
    add_entries(&mut found, &input_object.value.fields)?;
    Ok(found.extensions)
}

/// Adds the extensions in which components of a list were written, unless they are there.
fn add_components<T: Drop>(
    found: &mut FoundExtensions,
    components: &[Component<T>],
) -> Result<(), ValidationError>
    requires { HasTheirNumbers found.old }
    ensures extensions { OnOk result (found.new.extensions.items ≡ extensions_among found.old.extensions.items (map (λ c. c.origin) components.now)) }
    ensures numbers { OnOk result (HasTheirNumbers found.new) }
{
    for component in components {
        add_extension(found, &component.origin)?;
    }
    Ok(())
}

/// Adds the extensions in which names of a list were written, unless they were found before.
fn add_names(found: &mut FoundExtensions, names: &[ComponentName]) -> Result<(), ValidationError>
    requires { HasTheirNumbers found.old }
    ensures extensions { OnOk result (found.new.extensions.items ≡ extensions_among found.old.extensions.items (map (λ c. c.origin) names.now)) }
    ensures numbers { OnOk result (HasTheirNumbers found.new) }
{
    for name in names {
        add_extension(found, &name.origin)?;
    }
    Ok(())
}

/// Adds the extensions in which components under names were written, unless they were found before.
fn add_entries<T: Drop>(
    found: &mut FoundExtensions,
    entries: &IndexMap<Name, Component<T>, HashSeed>,
) -> Result<(), ValidationError>
    requires { HasTheirNumbers found.old }
    ensures extensions { OnOk result (found.new.extensions.items ≡ extensions_among found.old.extensions.items (map (λ e. e.1.origin) entries.now.entries)) }
    ensures numbers { OnOk result (HasTheirNumbers found.new) }
{
    for (_, component) in entries {
        add_extension(found, &component.origin)?;
    }
    Ok(())
}

/// Adds the extension in which a part was written, if there is one, unless it is there.
fn add_extension(
    found: &mut FoundExtensions,
    origin: &ComponentOrigin,
) -> Result<(), ValidationError>
    requires { HasTheirNumbers found.old }
    ensures extensions { OnOk result (found.new.extensions.items ≡ extensions_among found.old.extensions.items (origin.now ∷ [])) }
    ensures numbers { OnOk result (HasTheirNumbers found.new) }
{
    let ComponentOrigin::Extension(extension) = origin else {
        return Ok(());
    };
    let is_new = found.numbers.insert(extension.number)?;
    if is_new {
        found.extensions.push(*extension)?;
    }
    Ok(())
}
