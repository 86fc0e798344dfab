use super::applications::read_directives;
use super::documents::operation_type;
use super::parts::add_members;
use super::reader::{LONGEST, Reader};
use crate::errors::ExampleError;
use graphql_documents::documents::{
    Component, ComponentName, ComponentOrigin, Directive, EnumType, ExtendedType, ExtensionId,
    FieldDefinition, InputObjectType, InterfaceType, ObjectType, ScalarType, SchemaDefinition,
    UnionType,
};
use graphql_hash_seeds::HashSeed;
use graphql_nodes::{Name, Node, OperationType};
use indexmap::{IndexMap, IndexSet};
use std::alloc::Global;

/// No definition of the notation has as many extensions.
const MOST_EXTENSIONS: u32 = 100;

/// A definition that extensions add to.
trait Extensible: Drop {
    /// Reads what a definition, or an extension of it, says behind its name.
    fn add(&mut self, reader: &mut Reader<'_>, origin: ComponentOrigin) -> Result<(), ExampleError>;
}

/// A definition of a type.
trait NamedType: Extensible {
    /// A type of this name, of which nothing else is known.
    fn new(alloc: Global, name: Name) -> Self;
}

/// Reads a type definition and its extensions, from behind its keyword.
pub(super) fn type_definition(
    reader: &mut Reader<'_>,
    keyword: &str,
    start: usize,
) -> Result<ExtendedType, ExampleError> {
    match keyword {
        "scalar" => Ok(ExtendedType::Scalar(named_type(reader, start)?)),
        "type" => Ok(ExtendedType::Object(named_type(reader, start)?)),
        "interface" => Ok(ExtendedType::Interface(named_type(reader, start)?)),
        "union" => Ok(ExtendedType::Union(named_type(reader, start)?)),
        "enum" => Ok(ExtendedType::Enum(named_type(reader, start)?)),
        "input" => Ok(ExtendedType::InputObject(named_type(reader, start)?)),
        _ => Err(ExampleError::NotInNotation),
    }
}

fn named_type<T: NamedType>(
    reader: &mut Reader<'_>,
    start: usize,
) -> Result<Node<T>, ExampleError> {
    let own = reader.next_word();
    let name = reader.name()?;
    extended(reader, T::new(reader.alloc, name), own, start)
}

/// Reads the definition of the schema and its extensions, from behind its keyword.
pub(super) fn schema_definition(
    reader: &mut Reader<'_>,
    start: usize,
) -> Result<Node<SchemaDefinition>, ExampleError> {
    let definition = SchemaDefinition {
        directives: Vec::new(reader.alloc),
        query: None,
        mutation: None,
        subscription: None,
    };
    extended(reader, definition, "", start)
}

/// Reads a definition of this name, or of none, and the extensions behind it.
fn extended<T: Extensible>(
    reader: &mut Reader<'_>,
    definition: T,
    name: &str,
    start: usize,
) -> Result<Node<T>, ExampleError> {
    let mut definition = definition;
    add_all(reader, &mut definition, name)?;
    reader.node(definition, start)
}

fn add_all<T: Extensible>(
    reader: &mut Reader<'_>,
    definition: &mut T,
    name: &str,
) -> Result<(), ExampleError> {
    definition.add(reader, ComponentOrigin::Definition)?;
    for number in 1..MOST_EXTENSIONS {
        if !reader.takes_word("extend") {
            return Ok(());
        }
        let origin = extension(reader, name, number)?;
        definition.add(reader, origin)?;
    }
    Err(ExampleError::TooLong)
}

/// Reads the keyword of an extension and the name, if there is one, which it shares with the
/// definition.
fn extension(
    reader: &mut Reader<'_>,
    name: &str,
    number: u32,
) -> Result<ComponentOrigin, ExampleError> {
    let start = reader.start();
    reader.word();
    if !name.is_empty() {
        reader.expect_word(name)?;
    }
    Ok(ComponentOrigin::Extension(ExtensionId {
        number,
        location: reader.place_from(start),
    }))
}

impl NamedType for ScalarType {
    fn new(alloc: Global, name: Name) -> ScalarType {
        ScalarType {
            name,
            directives: Vec::new(alloc),
        }
    }
}

impl Extensible for ScalarType {
    fn add(
        &mut self,
        reader: &mut Reader<'_>,
        origin: ComponentOrigin,
    ) -> Result<(), ExampleError> {
        add_directives(reader, &mut self.directives, origin)
    }
}

impl NamedType for ObjectType {
    fn new(alloc: Global, name: Name) -> ObjectType {
        ObjectType {
            name,
            implements_interfaces: IndexSet::with_hasher(alloc, HashSeed::default()),
            directives: Vec::new(alloc),
            fields: IndexMap::with_hasher(alloc, HashSeed::default()),
        }
    }
}

impl Extensible for ObjectType {
    fn add(
        &mut self,
        reader: &mut Reader<'_>,
        origin: ComponentOrigin,
    ) -> Result<(), ExampleError> {
        add_interfaces(reader, &mut self.implements_interfaces, origin)?;
        add_directives(reader, &mut self.directives, origin)?;
        add_members(reader, &mut self.fields, origin)
    }
}

impl NamedType for InterfaceType {
    fn new(alloc: Global, name: Name) -> InterfaceType {
        InterfaceType {
            name,
            implements_interfaces: IndexSet::with_hasher(alloc, HashSeed::default()),
            directives: Vec::new(alloc),
            fields: IndexMap::with_hasher(alloc, HashSeed::default()),
        }
    }
}

impl Extensible for InterfaceType {
    fn add(
        &mut self,
        reader: &mut Reader<'_>,
        origin: ComponentOrigin,
    ) -> Result<(), ExampleError> {
        add_interfaces(reader, &mut self.implements_interfaces, origin)?;
        add_directives(reader, &mut self.directives, origin)?;
        add_members(reader, &mut self.fields, origin)
    }
}

impl NamedType for UnionType {
    fn new(alloc: Global, name: Name) -> UnionType {
        UnionType {
            name,
            directives: Vec::new(alloc),
            members: IndexSet::with_hasher(alloc, HashSeed::default()),
        }
    }
}

impl Extensible for UnionType {
    fn add(
        &mut self,
        reader: &mut Reader<'_>,
        origin: ComponentOrigin,
    ) -> Result<(), ExampleError> {
        add_directives(reader, &mut self.directives, origin)?;
        if reader.takes("=") {
            add_names(reader, &mut self.members, "|", origin)?;
        }
        Ok(())
    }
}

impl NamedType for EnumType {
    fn new(alloc: Global, name: Name) -> EnumType {
        EnumType {
            name,
            directives: Vec::new(alloc),
            values: IndexMap::with_hasher(alloc, HashSeed::default()),
        }
    }
}

impl Extensible for EnumType {
    fn add(
        &mut self,
        reader: &mut Reader<'_>,
        origin: ComponentOrigin,
    ) -> Result<(), ExampleError> {
        add_directives(reader, &mut self.directives, origin)?;
        add_members(reader, &mut self.values, origin)
    }
}

impl NamedType for InputObjectType {
    fn new(alloc: Global, name: Name) -> InputObjectType {
        InputObjectType {
            name,
            directives: Vec::new(alloc),
            fields: IndexMap::with_hasher(alloc, HashSeed::default()),
        }
    }
}

impl Extensible for InputObjectType {
    fn add(
        &mut self,
        reader: &mut Reader<'_>,
        origin: ComponentOrigin,
    ) -> Result<(), ExampleError> {
        add_directives(reader, &mut self.directives, origin)?;
        add_members(reader, &mut self.fields, origin)
    }
}

impl Extensible for SchemaDefinition {
    fn add(
        &mut self,
        reader: &mut Reader<'_>,
        origin: ComponentOrigin,
    ) -> Result<(), ExampleError> {
        add_directives(reader, &mut self.directives, origin)?;
        add_roots(reader, self, origin)
    }
}

fn add_directives(
    reader: &mut Reader<'_>,
    directives: &mut Vec<Component<Directive>>,
    origin: ComponentOrigin,
) -> Result<(), ExampleError> {
    for node in read_directives(reader)? {
        directives.push(Component { origin, node })?;
    }
    Ok(())
}

/// Reads `implements A & B`, if it comes next.
fn add_interfaces(
    reader: &mut Reader<'_>,
    interfaces: &mut IndexSet<ComponentName, HashSeed>,
    origin: ComponentOrigin,
) -> Result<(), ExampleError> {
    if reader.takes_word("implements") {
        add_names(reader, interfaces, "&", origin)?;
    }
    Ok(())
}

/// Reads names with this sign between them.
fn add_names(
    reader: &mut Reader<'_>,
    names: &mut IndexSet<ComponentName, HashSeed>,
    sign: &str,
    origin: ComponentOrigin,
) -> Result<(), ExampleError> {
    for _ in 0..LONGEST {
        let name = reader.name()?;
        if !names.insert(ComponentName { origin, name })? {
            return Err(ExampleError::RepeatedName);
        }
        if !reader.takes(sign) {
            return Ok(());
        }
    }
    Err(ExampleError::TooLong)
}

/// Reads the roots of a schema in braces, if there are any.
fn add_roots(
    reader: &mut Reader<'_>,
    definition: &mut SchemaDefinition,
    origin: ComponentOrigin,
) -> Result<(), ExampleError> {
    if !reader.takes("{") {
        return Ok(());
    }
    for _ in 0..LONGEST {
        if reader.takes("}") {
            return Ok(());
        }
        add_root(reader, definition, origin)?;
    }
    Err(ExampleError::TooLong)
}

/// Reads `kind: Name`.
fn add_root(
    reader: &mut Reader<'_>,
    definition: &mut SchemaDefinition,
    origin: ComponentOrigin,
) -> Result<(), ExampleError> {
    let operation_type = operation_type(reader)?;
    reader.expect(":")?;
    let name = reader.name()?;
    let root = Some(ComponentName { origin, name });
    match operation_type {
        OperationType::Query => definition.query = root,
        OperationType::Mutation => definition.mutation = root,
        OperationType::Subscription => definition.subscription = root,
    }
    Ok(())
}
