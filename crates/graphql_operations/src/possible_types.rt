ghost use Rattle.std.specs.List.{list_any};
ghost use Rattle.std.specs.Prelude.{◌≡◌, ◌↔◌, Contains, IfOk, IsTrue, length};
ghost use Rattle.graphql_specification.specs.Fragments.{HaveCommonObject};
ghost use Rattle.graphql_documents.specs.Implementers.{implementer_entries};
ghost use Rattle.graphql_nodes.specs.Names.{NameText, stands_on};
ghost use Rattle.graphql_documents.specs.Schemas.{IsImplementedBy, IsPossibleType, implementers_map};
ghost use Rattle.graphql_documents.specs.declared.documents.schemas.Schema.{Schema};
ghost use Rattle.graphql_operations.specs.PossibleTypes.{object_names};

use graphql_documents::documents::{ComponentName, ExtendedType, Implementers, Schema};
use graphql_hash_seeds::HashSeed;
use graphql_nodes::{Name, ValidationError};
use indexmap::{IndexMap, IndexSet};
use std::alloc::Global;

/// Which objects are values of which types of a schema. What implements each interface is found once.
///
/// Specification: 5.5.2.3 Fragment Spread Is Possible, GetPossibleTypes.
#[derive(Drop)]
pub(crate) struct PossibleTypes<'a> {
    schema: &'a Schema,
    implementers: IndexMap<&'a Name, Implementers<'a>, HashSeed>,
    ghost made: { implementer_entries implementers.entries ≡ implementers_map schema.now },
}

/// Whether one of two types of a schema is an object that says itself that its values are of the other. It is so of most
/// fragments that can be visited, and needs nothing that would have to be found of the schema first.
pub(crate) fn one_is_object_of_other(a: &ExtendedType, b: &ExtendedType) -> bool
    ensures { (schema : Schema) (key other : NameText) → Contains schema.types.entries (key, a.now) → Contains schema.types.entries (other, b.now) →
        IsTrue result → HaveCommonObject schema a.now b.now }
{
    is_object_of(a, b) || is_object_of(b, a)
}

/// Whether the first type is an object that lists the second as an interface, or is a member of it as a union.
fn is_object_of(object: &ExtendedType, ty: &ExtendedType) -> bool
    ensures { (schema : Schema) (key : NameText) → Contains schema.types.entries (key, object.now) → IsTrue result → HaveCommonObject schema object.now ty.now }
{
    let ExtendedType::Object(definition) = object else {
        return false;
    };
    match ty {
        ExtendedType::Interface(interface) => definition
            .value
            .implements_interfaces
            .contains(&interface.value.name),
        ExtendedType::Union(union_type) => union_type
            .value
            .members
            .contains(&definition.value.name),
        _ => false,
    }
}

/// The own names of the objects that are values of a type, where the schema has them.
#[derive(Drop)]
enum ObjectNames<'a> {
    Nothing,
    Own(&'a Name),
    Implementers(&'a IndexSet<&'a Name, HashSeed>),
    Members(&'a IndexSet<ComponentName, HashSeed>),
}

impl<'a> PossibleTypes<'a> {
    /// The possible types of this schema. The only error is a failed allocation.
    pub(crate) fn new(
        alloc: Global,
        schema: &'a Schema,
    ) -> Result<PossibleTypes<'a>, ValidationError>
        ensures { IfOk result (λ possible. possible.schema.now ≡ schema.now) }
    {
        let implementers = schema.implementers_map(alloc)?;
        Ok(PossibleTypes {
            schema,
            implementers,
        })
    }

    /// Whether some object is a value of both types.
    pub(crate) fn have_common_object(&self, a: &ExtendedType, b: &ExtendedType) -> bool
        ensures { IsTrue result ↔ HaveCommonObject self.now.schema.now a.now b.now }
    {
        let objects = self.objects_of(a);
        let others = self.objects_of(b);
        if objects.len() <= others.len() {
            objects.meets(&others)
        } else {
            others.meets(&objects)
        }
    }

    /// The objects that are values of the type.
    fn objects_of<'s>(&'s self, ty: &'s ExtendedType) -> ObjectNames<'s>
        ensures { (name : NameText) → IsPossibleType self.now.schema.now ty.now name ↔ IsTrue (stands_on (object_names result) name) }
    {
        match ty {
            ExtendedType::Object(object) => ObjectNames::Own(&object.value.name),
            ExtendedType::Interface(interface) => self.implementers_of(&interface.value.name),
            ExtendedType::Union(union_type) => ObjectNames::Members(&union_type.value.members),
            _ => ObjectNames::Nothing,
        }
    }

    /// The objects that implement the interface.
    fn implementers_of<'s>(&'s self, interface: &'s Name) -> ObjectNames<'s>
        ensures { (name : NameText) → IsImplementedBy self.now.schema.now interface.now name ↔ IsTrue (stands_on (object_names result) name) }
    {
        match self.implementers.get(&interface) {
            Some(known) => ObjectNames::Implementers(&known.objects),
            None => ObjectNames::Nothing,
        }
    }
}

impl<'a> ObjectNames<'a> {
    fn len(&self) -> usize
        ensures { result ≡ length (object_names self.now) }
    {
        match self {
            ObjectNames::Nothing => 0,
            ObjectNames::Own(_) => 1,
            ObjectNames::Implementers(names) => names.len(),
            ObjectNames::Members(members) => members.len(),
        }
    }

    fn contains(&self, name: &Name) -> bool
        ensures { result ≡ stands_on (object_names self.now) name.now }
    {
        match self {
            ObjectNames::Nothing => false,
            ObjectNames::Own(own) => name == *own,
            ObjectNames::Implementers(names) => names.contains(&name),
            ObjectNames::Members(members) => members.contains(name),
        }
    }

    /// Whether one of the names is among the others.
    fn meets(&self, others: &ObjectNames) -> bool
        ensures { result ≡ list_any (stands_on (object_names others.now)) (object_names self.now) }
    {
        match self {
            ObjectNames::Nothing => false,
            ObjectNames::Own(own) => others.contains(own),
            ObjectNames::Implementers(names) => others.contains_any(names.as_slice()),
            ObjectNames::Members(members) => others.contains_member(members.as_slice()),
        }
    }

    fn contains_any(&self, names: &[&Name]) -> bool
        ensures { result ≡ list_any (λ name. stands_on (object_names self.now) name.now) names.now }
    {
        names.iter().any(|name| self.contains(name))
    }

    fn contains_member(&self, members: &[ComponentName]) -> bool
        ensures { result ≡ list_any (λ member. stands_on (object_names self.now) member.name) members.now }
    {
        members.iter().any(|member| self.contains(&member.name))
    }
}
