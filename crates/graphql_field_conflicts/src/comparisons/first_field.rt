//! A field with which others are compared one after another.

ghost use Rattle.std.specs.Prelude.{◌≡◌, ◌↔◌, ◌++◌, ◌∷◌, [], IfOk, IsNone, IsTrue, MatchOption, OnOk};
ghost use Rattle.graphql_documents.specs.Directives.{argument_named};
ghost use Rattle.graphql_specification.specs.Merging.{SameNameAndArguments};
ghost use Rattle.graphql_field_conflicts.specs.Comparisons.{ArgumentsConflict, Conflicts, StandAmong};
ghost use Rattle.graphql_field_conflicts.specs.FirstFields.{HasRead, AreFirst, arguments_of};

use super::arguments::FieldConflict;
use super::field_conflicts::{conflict_of_argument, missing_argument};
use crate::field_selections::FieldSelection;
use graphql_documents::documents::Argument;
use graphql_hash_seeds::HashSeed;
use graphql_name_tables::ByName;
use graphql_nodes::Node;
use std::alloc::{AllocError, Global};

/// A field with which others are compared one after another. Its arguments are read once for all of these, and
/// only as far as it agrees with one of them. What each further one is compared with is the first argument of
/// each name, so the time for it does not go by how often the field repeats an argument.
#[derive(Drop)]
pub struct FirstField<'a> {
    alloc: Global,
    hash_seed: HashSeed,
    pub selection: FieldSelection<'a>,
    // the arguments that were read
    seen: ByName<'a, Node<Argument>>,
    // those of them that are the first of their name
    distinct: Vec<&'a Node<Argument>>,
}

impl<'a> FirstField<'a> {
    /// This field, of which nothing was read. Tables have this seed. The only error is a failed allocation.
    pub fn new(
        alloc: Global,
        hash_seed: HashSeed,
        selection: FieldSelection<'a>,
    ) -> Result<FirstField<'a>, AllocError>
        ensures selection { IfOk result (λ first. first.selection ≡ selection.entry) }
        ensures read { IfOk result (λ first. HasRead first) }
    {
        let seen = ByName::new(
            alloc,
            hash_seed,
            &selection.field.value.arguments[..0],
            usize::MAX,
        )?;
        Ok(FirstField {
            alloc,
            hash_seed,
            selection,
            seen,
            distinct: Vec::new(alloc),
        })
    }

    /// What the field and this one disagree on first, if they do, as `find_field_conflict` says. The only error is a
    /// failed allocation; the field is of no more use then.
    pub fn find_conflict(
        &mut self,
        field: FieldSelection<'a>,
    ) -> Result<Option<FieldConflict<'a>>, AllocError>
        requires { HasRead self.old }
        ensures conflict { IfOk result (λ found. MatchOption found
            (SameNameAndArguments self.old.selection.field.now.value.value field.entry.field.now.value.value)
            (Conflicts self.old.selection.field.now.value.value field.entry.field.now.value.value)) }
        ensures read { OnOk result (HasRead self.new) }
        ensures selection { self.new.selection ≡ self.old.selection }
    {
        let second = &*field.field.value;
        if self.selection.field.value.name != second.name {
            return Ok(Some(FieldConflict::Names));
        }
        let others = ByName::new(self.alloc, self.hash_seed, &second.arguments, usize::MAX)?;
        match self.conflict_of_arguments(&others)? {
            Some(conflict) => Ok(Some(conflict)),
            None => match missing_argument(&second.arguments, &self.seen) {
                Some(argument) => Ok(Some(FieldConflict::SecondAlone(argument))),
                None => Ok(None),
            },
        }
    }

    /// The first argument that the others lack, or give another value. If there is none, all were read.
    fn conflict_of_arguments(
        &mut self,
        others: &ByName<'a, Node<Argument>>,
    ) -> Result<Option<FieldConflict<'a>>, AllocError>
        requires { HasRead self.old }
        ensures conflict { IfOk result (λ found. MatchOption found
            (StandAmong (arguments_of self.old) others.now × (self.new.seen ≡ arguments_of self.old))
            (ArgumentsConflict (arguments_of self.old) others.now)) }
        ensures read { OnOk result (HasRead self.new) }
        ensures selection { self.new.selection ≡ self.old.selection }
    {
        match self.conflict_of_seen(others)? {
            Some(conflict) => Ok(Some(conflict)),
            None => self.conflict_of_further(others),
        }
    }

    /// The first of the arguments that were read that the others lack, or give another value.
    fn conflict_of_seen(
        &self,
        others: &ByName<'a, Node<Argument>>,
    ) -> Result<Option<FieldConflict<'a>>, AllocError>
        requires { HasRead self.now }
        ensures { IfOk result (λ found. MatchOption found
            (StandAmong self.now.seen others.now)
            (ArgumentsConflict (arguments_of self.now) others.now)) }
    {
        for argument in &self.distinct {
            if let Some(conflict) = conflict_of_argument(
                self.alloc,
                self.hash_seed,
                *argument,
                others,
            )? {
                return Ok(Some(conflict));
            }
        }
        Ok(None)
    }

    /// The first of the arguments that were not read that the others lack, or give another value. They are read up
    /// to it.
    fn conflict_of_further(
        &mut self,
        others: &ByName<'a, Node<Argument>>,
    ) -> Result<Option<FieldConflict<'a>>, AllocError>
        requires read { HasRead self.old }
        requires agree { StandAmong self.old.seen others.now }
        ensures conflict { IfOk result (λ found. MatchOption found
            (StandAmong (arguments_of self.old) others.now × (self.new.seen ≡ arguments_of self.old))
            (ArgumentsConflict (arguments_of self.old) others.now)) }
        ensures read { OnOk result (HasRead self.new) }
        ensures selection { self.new.selection ≡ self.old.selection }
    {
        let arguments = self.selection.field.value.arguments.as_slice();
        for i in self.seen.len()..arguments.len() {
            let argument = &arguments[i];
            if self.read(&arguments[..i + 1], argument)?
                && let Some(conflict) = conflict_of_argument(
                    self.alloc,
                    self.hash_seed,
                    argument,
                    others,
                )?
            {
                return Ok(Some(conflict));
            }
        }
        Ok(None)
    }

    /// Has read these arguments from now on: one more, the last. Answers whether it is the first of its name.
    fn read(
        &mut self,
        arguments: &'a [Node<Argument>],
        last: &'a Node<Argument>,
    ) -> Result<bool, AllocError>
        requires grown { arguments.now ≡ self.old.seen ++ last.now ∷ [] }
        requires distinct { AreFirst self.old.distinct.items self.old.seen }
        ensures seen { IfOk result (λ _. self.new.seen ≡ arguments.now) }
        ensures distinct { OnOk result (AreFirst self.new.distinct.items self.new.seen) }
        ensures first { IfOk result (λ first. IsTrue first ↔ IsNone (argument_named last.now.value.value.name self.old.seen)) }
        ensures selection { self.new.selection ≡ self.old.selection }
    {
        let is_first = self.seen.grow(self.alloc, self.hash_seed, arguments, last)?;
        if is_first {
            self.distinct.push(last)?;
        }
        Ok(is_first)
    }
}
