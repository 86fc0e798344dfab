//! The fields that an object answers, by response key.

ghost use Rattle.std.specs.Prelude.{◌≡◌, ◌↔◌, ◌∷◌, [], IfOk, IfSome, IsTrue, List, OnOk, map, not};
ghost use Rattle.std.specs.Option.{option_copied};
ghost use Rattle.graphql_specification.specs.CollectFields.{AppliesTo, CollectsFrom};
ghost use Rattle.graphql_specification.specs.Merging as merging;
ghost use Rattle.graphql_nodes.specs.Names.{stands_on, with_name};
ghost use Rattle.graphql_documents.specs.Selections.{fragments_of};
ghost use Rattle.graphql_documents.specs.declared.documents.executables.Selection.TheVariants as kind;
ghost use Rattle.graphql_merging.specs.Groups.{by_keys, named_fields};
ghost use Rattle.graphql_validation.specs.CollectionSteps.{CollectsMore, WalksAmong, WalksIn, visited_of};

use graphql_diagnostics::HashSeed;
use graphql_documents::documents::{
    ExecutableDocument, ExtendedType, FragmentSpread, Schema, Selection, SelectionSet,
};
use graphql_field_conflicts::field_selections::FieldSelection;
use graphql_merging::groups::fields_by_key;
use graphql_nodes::{Name, NamedType, Node, ValidationError};
use indexmap::{IndexMap, IndexSet};
use std::alloc::Global;

/// The fields that an object of this type answers, by response key: those of each set in order, and those of
/// the fragments in them where they are, each named fragment once over all sets. Only sets and conditions
/// count that apply to the object: its own type, an interface that it lists, a union that has it as a member.
/// `@skip` and `@include` are not evaluated.
///
/// Keys come in order of first field, and the fields under a key in the order of the walk. The only error is
/// a failed allocation.
///
/// Specification: 6.3.2 Field Collection.
pub fn collect_fields<'doc>(
    alloc: Global,
    schema: &Schema,
    document: &'doc ExecutableDocument,
    object_type: &NamedType,
    sets: &[&'doc SelectionSet],
) -> Result<IndexMap<&'doc Name, Vec<FieldSelection<'doc>>, HashSeed>, ValidationError>
    ensures { IfOk result (λ found. (fields : List merging.FieldSelection) ×
        CollectsFrom schema.now (fragments_of document.now) object_type.now [] (map (λ set. set.now) sets.now) fields ×
        (named_fields found.entries ≡ by_keys fields)) }
{
    let collection = FieldCollection {
        schema,
        document,
        object_type,
    };
    let mut found = CollectedFields {
        fields: Vec::new(alloc),
        visited: IndexSet::with_hasher(alloc, document.hash_seed()),
    };
    for set in sets {
        collection.collect_set(set, &mut found)?;
    }
    fields_by_key(alloc, document.hash_seed(), &found.fields)
}

/// What fields are collected from, and for objects of which type.
#[derive(Drop)]
struct FieldCollection<'a, 'doc> {
    schema: &'a Schema,
    document: &'doc ExecutableDocument,
    object_type: &'a NamedType,
}

/// The fields that were collected, and the names of the fragments that were visited.
#[derive(Drop)]
struct CollectedFields<'doc> {
    fields: Vec<FieldSelection<'doc>>,
    visited: IndexSet<&'doc Name, HashSeed>,
}

impl<'doc> CollectedFields<'doc> {
    /// Goes into the fragment of this name, and answers whether it is the first time.
    fn enter(&mut self, name: &'doc Name) -> Result<bool, ValidationError>
        ensures is_new { IfOk result (λ new. new ≡ not (stands_on (visited_of self.old) name.now)) }
        ensures names { OnOk result (visited_of self.new ≡ with_name (visited_of self.old) name.now) }
        ensures fields { self.new.fields ≡ self.old.fields }
    {
        Ok(self.visited.insert(name)?)
    }
}

impl<'a, 'doc> FieldCollection<'a, 'doc> {
    /// Collects the fields of a set, if its type applies.
    #[cycle(collect)]
    fn collect_set(
        &self,
        set: &'doc SelectionSet,
        found: &mut CollectedFields<'doc>,
    ) -> Result<(), ValidationError>
        ensures { OnOk result (CollectsMore found.old found.new (WalksIn self.now set.now)) }
    {
        if !self.applies(&set.ty) {
            return Ok(());
        }
        for selection in &set.selections {
            self.collect_selection(&set.ty, selection, found)?;
        }
        Ok(())
    }

    /// Collects one selection in a set of this type: a field, or the fields of a fragment that applies to the
    /// object.
    #[cycle(collect)]
    fn collect_selection(
        &self,
        parent_type: &'doc NamedType,
        selection: &'doc Selection,
        found: &mut CollectedFields<'doc>,
    ) -> Result<(), ValidationError>
        ensures { OnOk result (CollectsMore found.old found.new (WalksAmong self.now parent_type.now (selection.now ∷ []))) }
    {
        match selection {
            Selection::Field(field) => Ok(
                found.fields.push(FieldSelection { parent_type, field })?,
            ),
            Selection::InlineFragment(inline) => {
                if !self.condition_applies(inline.value.type_condition.as_ref()) {
                    return Ok(());
                }
                self.collect_set(&inline.value.selection_set, found)
            }
            Selection::FragmentSpread(spread) => self.collect_spread(parent_type, spread, found),
        }
    }

    /// Collects the fields of the fragment that a spread names, if it is defined, was not visited before, and
    /// applies to the object. A defined fragment counts as visited in any case.
    #[cycle(collect)]
    fn collect_spread(
        &self,
        parent_type: &'doc NamedType,
        spread: &'doc Node<FragmentSpread>,
        found: &mut CollectedFields<'doc>,
    ) -> Result<(), ValidationError>
        ensures { OnOk result (CollectsMore found.old found.new (WalksAmong self.now parent_type.now (kind.FragmentSpread spread.now ∷ []))) }
    {
        let name = &spread.value.fragment_name;
        let Some(fragment) = self.document.fragments.get(name) else {
            return Ok(());
        };
        if !found.enter(name)? {
            return Ok(());
        }
        self.collect_set(&fragment.value.selection_set, found)
    }

    /// Whether the condition of a fragment applies, if it has one.
    fn condition_applies(&self, condition: Option<&NamedType>) -> bool
        ensures { IsTrue result ↔ IfSome (option_copied condition.entry) (AppliesTo self.now.schema.now self.now.object_type.now) }
    {
        match condition {
            Some(ty) => self.applies(ty),
            None => true,
        }
    }

    /// Whether what is selected on the type is selected on the object.
    ///
    /// Specification: 6.3.2 Field Collection, DoesFragmentTypeApply.
    fn applies(&self, ty: &NamedType) -> bool
        ensures { IsTrue result ↔ AppliesTo self.now.schema.now self.now.object_type.now ty.now }
    {
        if ty == self.object_type {
            return true;
        }
        match self.schema.types.get(self.object_type) {
            Some(ExtendedType::Object(_)) => self.schema.is_subtype(ty, self.object_type),
            _ => false,
        }
    }
}
