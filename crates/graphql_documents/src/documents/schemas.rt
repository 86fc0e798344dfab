use super::components::{Component, ComponentName};
use super::definitions::{
    DirectiveDefinition, EnumValueDefinition, FieldDefinition, InputValueDefinition,
};
use super::directives::Directive;
use super::meta_fields::MetaFields;
use graphql_hash_seeds::HashSeed;
use graphql_nodes::{FileId, Name, NamedType, Node, SourceSpan};
use indexmap::{IndexMap, IndexSet};

/// A scalar type.
///
/// Specification: 3.5 Scalars.
#[derive(Debug, Drop, PartialEq, Eq)]
pub struct ScalarType {
    pub name: Name,
    pub directives: Vec<Component<Directive>>,
}

/// An object type.
///
/// Specification: 3.6 Objects.
#[derive(Debug, Drop, PartialEq, Eq)]
pub struct ObjectType {
    pub name: Name,
    pub implements_interfaces: IndexSet<ComponentName, HashSeed>,
    pub directives: Vec<Component<Directive>>,
    pub fields: IndexMap<Name, Component<FieldDefinition>, HashSeed>,
}

/// An interface type.
///
/// Specification: 3.7 Interfaces.
#[derive(Debug, Drop, PartialEq, Eq)]
pub struct InterfaceType {
    pub name: Name,
    pub implements_interfaces: IndexSet<ComponentName, HashSeed>,
    pub directives: Vec<Component<Directive>>,
    pub fields: IndexMap<Name, Component<FieldDefinition>, HashSeed>,
}

/// A union type.
///
/// Specification: 3.8 Unions.
#[derive(Debug, Drop, PartialEq, Eq)]
pub struct UnionType {
    pub name: Name,
    pub directives: Vec<Component<Directive>>,
    pub members: IndexSet<ComponentName, HashSeed>,
}

/// An enum type.
///
/// Specification: 3.9 Enums.
#[derive(Debug, Drop, PartialEq, Eq)]
pub struct EnumType {
    pub name: Name,
    pub directives: Vec<Component<Directive>>,
    pub values: IndexMap<Name, Component<EnumValueDefinition>, HashSeed>,
}

/// An input object type.
///
/// Specification: 3.10 Input Objects.
#[derive(Debug, Drop, PartialEq, Eq)]
pub struct InputObjectType {
    pub name: Name,
    pub directives: Vec<Component<Directive>>,
    pub fields: IndexMap<Name, Component<InputValueDefinition>, HashSeed>,
}

/// A type definition with its extensions.
///
/// Specification: 3.4 Types.
#[derive(Debug, Drop, PartialEq, Eq)]
pub enum ExtendedType {
    Scalar(Node<ScalarType>),
    Object(Node<ObjectType>),
    Interface(Node<InterfaceType>),
    Union(Node<UnionType>),
    Enum(Node<EnumType>),
    InputObject(Node<InputObjectType>),
}

/// The root operation types, and the directives of the schema.
///
/// Specification: 3.3 Schema.
#[derive(Debug, Drop, PartialEq, Eq)]
pub struct SchemaDefinition {
    pub directives: Vec<Component<Directive>>,
    pub query: Option<ComponentName>,
    pub mutation: Option<ComponentName>,
    pub subscription: Option<ComponentName>,
}

/// A GraphQL schema: the types and directive definitions by name.
///
/// Specification: 3 Type System.
#[derive(Debug, PartialEq, Eq)]
pub struct Schema {
    pub schema_definition: Node<SchemaDefinition>,
    pub directive_definitions: IndexMap<Name, Node<DirectiveDefinition>, HashSeed>,
    pub types: IndexMap<Name, ExtendedType, HashSeed>,
    pub meta_fields: MetaFields,
}

// Written out, so that only this crate proves it: a derived one is proved again in each crate that drops schemas.
impl Drop for Schema {
    fn drop(self) {
        let Schema {
            schema_definition: _,
            directive_definitions: _,
            types: _,
            meta_fields: _,
        } = self;
    }
}

/// Why a field has no definition.
#[derive(Clone, Copy, Debug, PartialEq, Eq)]
pub enum FieldLookupError {
    /// The schema does not define the type.
    NoSuchType,
    /// The type does not have the field.
    NoSuchField,
}

impl ExtendedType {
    ghost use Rattle.std.specs.Prelude.{◌≡◌, ◌↔◌, IsTrue};
    ghost use Rattle.std.specs.Option.{option_copied};
    ghost use Rattle.graphql_documents.specs.Schemas.{IsListed, interfaces_of, is_built_in, is_composite, is_input_type, is_output_type, kind_text, location_of, own_field};

    /// Whether the type is an object, an interface or a union, so that its fields are selected.
    pub fn is_composite(&self) -> bool
        ensures { result ≡ is_composite self.now }
    {
        matches!(
            self,
            ExtendedType::Object(_) | ExtendedType::Interface(_) | ExtendedType::Union(_)
        )
    }

    /// Whether arguments and variables may have the type.
    ///
    /// Specification: 3.4.2 Input and Output Types.
    pub fn is_input_type(&self) -> bool
        ensures { result ≡ is_input_type self.now }
    {
        matches!(
            self,
            ExtendedType::Scalar(_) | ExtendedType::Enum(_) | ExtendedType::InputObject(_)
        )
    }

    /// Whether fields may have the type.
    ///
    /// Specification: 3.4.2 Input and Output Types.
    pub fn is_output_type(&self) -> bool
        ensures { result ≡ is_output_type self.now }
    {
        !matches!(self, ExtendedType::InputObject(_))
    }

    /// Whether the definition is one of those that every schema has: it is in their file.
    pub fn is_built_in(&self) -> bool
        ensures { result ≡ is_built_in self.now }
    {
        match self.location() {
            Some(place) => place.file_id.0 == FileId::BUILT_IN.0,
            None => false,
        }
    }

    /// Where the definition is.
    pub fn location(&self) -> Option<SourceSpan>
        ensures { result ≡ location_of self.now }
    {
        match self {
            ExtendedType::Scalar(definition) => definition.location,
            ExtendedType::Object(definition) => definition.location,
            ExtendedType::Interface(definition) => definition.location,
            ExtendedType::Union(definition) => definition.location,
            ExtendedType::Enum(definition) => definition.location,
            ExtendedType::InputObject(definition) => definition.location,
        }
    }

    /// The interfaces that the type lists; none where it is no object and no interface.
    ///
    /// Specification: 3.6 Objects; 3.7 Interfaces.
    pub fn implements_interfaces(&self) -> &[ComponentName]
        ensures { result.now ≡ interfaces_of self.now }
    {
        match self {
            ExtendedType::Object(definition) => definition.value.implements_interfaces.as_slice(),
            ExtendedType::Interface(definition) => {
                definition.value.implements_interfaces.as_slice()
            }
            _ => &[],
        }
    }

    /// Whether the type lists an interface of this name.
    ///
    /// Specification: 3.6 Objects; 3.7 Interfaces.
    pub fn lists_interface(&self, interface: &Name) -> bool
        ensures { IsTrue result ↔ IsListed interface.now (interfaces_of self.now) }
    {
        match self {
            ExtendedType::Object(definition) => {
                definition.value.implements_interfaces.contains(interface)
            }
            ExtendedType::Interface(definition) => {
                definition.value.implements_interfaces.contains(interface)
            }
            _ => false,
        }
    }

    /// What a message calls the kind of the type.
    pub fn describe(&self) -> &'static str
        ensures { result.now ≡ kind_text self.now }
    {
        match self {
            ExtendedType::Scalar(_) => "a scalar type",
            ExtendedType::Object(_) => "an object type",
            ExtendedType::Interface(_) => "an interface type",
            ExtendedType::Union(_) => "a union type",
            ExtendedType::Enum(_) => "an enum type",
            ExtendedType::InputObject(_) => "an input object type",
        }
    }

    /// A field that the type itself defines.
    fn own_field(&self, field_name: &Name) -> Option<&Component<FieldDefinition>>
        ensures { option_copied result ≡ own_field self.now field_name.now }
    {
        match self {
            ExtendedType::Object(definition) => definition.value.fields.get(field_name),
            ExtendedType::Interface(definition) => definition.value.fields.get(field_name),
            _ => None,
        }
    }
}

impl Schema {
    ghost use Rattle.indexmap.specs.IndexMap.{hasher_of};

    /// The seed of the map of types, by which maps of other names of the schema are to hash too.
    pub fn hash_seed(&self) -> HashSeed
        ensures { result ≡ hasher_of self.now.types }
    {
        *self.types.hasher()
    }

    ghost use Rattle.std.specs.Prelude.{◌≡◌, ◌↔◌, IsTrue, MatchResult, Ok, Err};
    ghost use Rattle.std.specs.Option.{option_copied};
    ghost use Rattle.graphql_documents.specs.Schemas.{input_object_named, Implements, IsSubtype, interface_named, type_field, meta_field, is_query_root};

    /// The definition of a field of a type: the type's own field, else a meta-field that it has.
    ///
    /// Specification: 5.3.1 Field Selections.
    pub fn type_field(
        &self,
        type_name: &NamedType,
        field_name: &Name,
    ) -> Result<&Component<FieldDefinition>, FieldLookupError>
        ensures { MatchResult result
            (λ d. type_field self.now type_name.now field_name.now ≡ Ok d.now)
            (λ e. type_field self.now type_name.now field_name.now ≡ Err e) }
    {
        let Some(definition) = self.types.get(type_name) else {
            return Err(FieldLookupError::NoSuchType);
        };
        if let Some(field) = definition.own_field(field_name) {
            return Ok(field);
        }
        match self.meta_field(type_name, definition, field_name) {
            Some(field) => Ok(field),
            None => Err(FieldLookupError::NoSuchField),
        }
    }

    /// The interface of this name.
    ///
    /// Specification: 3.7 Interfaces.
    pub fn get_interface(&self, name: &NamedType) -> Option<&Node<InterfaceType>>
        ensures { option_copied result ≡ interface_named self.now name.now }
    {
        match self.types.get(name) {
            Some(ExtendedType::Interface(definition)) => Some(definition),
            _ => None,
        }
    }

    /// The input object of this name.
    ///
    /// Specification: 3.10 Input Objects.
    pub fn get_input_object(&self, name: &NamedType) -> Option<&Node<InputObjectType>>
        ensures { option_copied result ≡ input_object_named self.now name.now }
    {
        match self.types.get(name) {
            Some(ExtendedType::InputObject(definition)) => Some(definition),
            _ => None,
        }
    }

    /// Whether each value of the second type is one of the first: the first is a union with it as a
    /// member, or an interface that it lists.
    ///
    /// Specification: 3.6 Objects, IsValidImplementationFieldType.
    pub fn is_subtype(&self, abstract_type: &NamedType, maybe_subtype: &NamedType) -> bool
        ensures { IsTrue result ↔ IsSubtype self.now abstract_type.now maybe_subtype.now }
    {
        match self.types.get(abstract_type) {
            Some(ExtendedType::Union(definition)) => {
                definition.value.members.contains(maybe_subtype)
            }
            Some(ExtendedType::Interface(_)) => self.implements(maybe_subtype, abstract_type),
            _ => false,
        }
    }

    /// Whether the type of this name lists the interface.
    fn implements(&self, name: &NamedType, interface: &NamedType) -> bool
        ensures { IsTrue result ↔ Implements self.now name.now interface.now }
    {
        match self.types.get(name) {
            Some(definition) => definition.lists_interface(interface),
            None => false,
        }
    }

    fn meta_field(
        &self,
        type_name: &NamedType,
        definition: &ExtendedType,
        field_name: &Name,
    ) -> Option<&Component<FieldDefinition>>
        ensures { option_copied result ≡ meta_field self.now type_name.now definition.now field_name.now }
    {
        if !definition.is_composite() {
            return None;
        }
        if field_name.as_str() == "__typename" {
            return Some(&self.meta_fields.typename);
        }
        if !self.is_query_root(type_name) {
            return None;
        }
        match field_name.as_str() {
            "__schema" => Some(&self.meta_fields.schema),
            "__type" => Some(&self.meta_fields.type_by_name),
            _ => None,
        }
    }

    fn is_query_root(&self, type_name: &NamedType) -> bool
        ensures { result ≡ is_query_root self.now type_name.now }
    {
        match &self.schema_definition.value.query {
            Some(root) => root.name == *type_name,
            None => false,
        }
    }
}
