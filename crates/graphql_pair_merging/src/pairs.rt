//! The pairs of sets whose fields come together.

ghost use Rattle.std.specs.Prelude.{◌≡◌, ◌+◌, ◌*◌, ◌/◌, ◌-◌, ◌^◌, ◌<◌, ◌≤◌, ◌∷◌, [], ⊤, ℕ, All, Contains, IfOk, IsErrOf, IsTrue, List, MatchOption, OnOk, length, map, min, slice_get, true, vec_len};
ghost use Rattle.graphql_merging.specs.Groups.{pass_of};
ghost use Rattle.graphql_number_sets.specs.NumberSets.{AreExact, FitsBelow, KeepsCliques, numbers_of};
ghost use Rattle.graphql_pair_merging.specs.FieldGroups.{IsGroupOf, IsGrouped, has_name, names_in};
ghost use Rattle.graphql_pair_merging.specs.JoinedSets.{Takes};
ghost use Rattle.graphql_pair_merging.specs.NumberedSets.{HaveArgumentNumbers, HaveNumbers, count_fields, count_in, field_of};
ghost use Rattle.graphql_pair_merging.specs.Pairs.{AllAgree, AreFieldsAround, AreFieldsOf, AreLinked, AreNamedIn, AreSetsBelow, AreTogether, AreComparable, Both, DecidesAlone, DisagreeAmong, Finds, FindsBelow, FindsIn, HasLooked, LooksAt, OneDecides, Settles, WereLookedAt, lists_at};
ghost use Rattle.graphql_pair_merging.specs.Parents.{IsInTurn};
ghost use Rattle.graphql_pair_merging.specs.Works.{IsPassed, Paid, comparisons, most_of, places_in};
ghost use Rattle.graphql_pair_merging.specs.declared.field_groups.GroupedBy.TheVariants.{ParentType, ResponseKey};
ghost use Rattle.graphql_pair_merging.specs.declared.numbered_sets.NumberedField.{NumberedField};
ghost use Rattle.graphql_pair_merging.specs.declared.work.Interruption.TheVariants.{OutOfWork};
ghost use Rattle.graphql_specification.specs.MergedSets.{Agree};
ghost use Rattle.graphql_specification.specs.Merging.{field_pass};

use super::disagreements::{
    Conflict, disagreement_of, has_defined_type, may_overlap_others, parents_may_overlap,
};
use super::field_groups::{FieldsByName, GroupedBy, add_named_in, group_fields, names_of};
use super::joined_sets::{JoinedSets, with_fragments};
use super::numbered_sets::{NumberedField, NumberedSet};
use super::work::{Interruption, PairWork, comparisons_of, units_of, units_of_row};
use graphql_documents::documents::Schema;
use graphql_hash_seeds::HashSeed;
use graphql_merging::groups::Pass;
use graphql_nodes::{Name, ValidationError};
use graphql_number_sets::distinct_numbers::DistinctNumbers;
use graphql_number_sets::pair_sets::PairSet;
use graphql_steps::Steps;
use std::alloc::Global;
use std::sync::ledger::Ledger;

/// What a pass over pairs of sets reads.
#[derive(Clone, Copy)]
pub(crate) struct PairPass<'s, 'doc> {
    pub(crate) alloc: Global,
    pub(crate) hash_seed: HashSeed,
    pub(crate) schema: &'s Schema,
    pub(crate) sets: &'s [NumberedSet<'doc>],
    pub(crate) pass: Pass,
}

/// Lists of sets that come together, by their numbers, each still to be looked at.
type Waiting = Vec<Vec<usize>>;

impl<'s, 'doc> PairPass<'s, 'doc> {
    /// Two fields that come together below one of the sets with these numbers and do not agree, if there are any.
    /// Each pair of sets is looked at once: of a list of sets that come together the ends are looked at with all of the
    /// list, at once. The search is interrupted if an allocation fails or if it counts more work than it may: the sets of each
    /// list with the fragments in them, the fields that are listed, grouped and compared, and the pairs of types.
    pub(crate) fn find_conflict<L: Ledger>(
        &self,
        starts: &[usize],
        work: &mut PairWork,
        steps: &mut Steps<L>,
    ) -> Result<Option<Conflict<'doc>>, Interruption>
        requires linked { AreLinked self.now.sets.now }
        requires numbers { HaveArgumentNumbers self.now.sets.now }
        requires within { All (λ number. number < length self.now.sets.now) starts.now }
        ensures found { IfOk result (λ found. MatchOption found
            (HasLooked self.now.schema.now (pass_of self.now.pass) self.now.sets.now starts.now)
            (FindsBelow self.now.schema.now (pass_of self.now.pass) self.now.sets.now starts.now)) }
        ensures most { most_of work.new ≡ most_of work.old }
        ensures passed { IsErrOf result OutOfWork → IsPassed work.new }
        ensures cost { Paid work.old steps.old work.new steps.new (8 * length starts.now + 2 * length self.now.sets.now + length self.now.sets.now / 64 + 5) }
    {
        let mut waiting = self.each_alone(starts, steps)?;
        let mut looked = PairSet::new(self.alloc, self.sets.len(), steps)?;
        while let Some(joined) = self.next_unlooked(&looked, &mut waiting, work, steps)? {
            if let Some(conflict) = self.look_at(&mut waiting, work, &joined, steps)? {
                return Ok(Some(conflict));
            }
            joined.add_to(&mut looked, steps)?;
        }
        Ok(None)
    }

    /// Each of these sets in a list of its own.
    fn each_alone<L: Ledger>(
        &self,
        starts: &[usize],
        steps: &mut Steps<L>,
    ) -> Result<Waiting, ValidationError>
        ensures cost { steps.new ≤ steps.old + 2 * length starts.now }
        ensures alone { IfOk result (λ waiting. lists_at waiting.items ≡ map (λ n. n ∷ []) starts.now) }
    {
        let mut waiting = Vec::new(self.alloc);
        for start in starts {
            steps.take(2);
            let alone = vec![in self.alloc; *start]?;
            waiting.push(alone)?;
        }
        Ok(waiting)
    }

    /// Takes lists until some sets of one, with those of its fragments, were not yet looked at together, and
    /// answers these sets.
    fn next_unlooked<L: Ledger>(
        &self,
        looked: &PairSet,
        waiting: &mut Waiting,
        work: &mut PairWork,
        steps: &mut Steps<L>,
    ) -> Result<Option<JoinedSets>, Interruption>
        requires linked { AreLinked self.now.sets.now }
        requires cliques { KeepsCliques looked.now }
        requires count { vec_len looked.now.rows ≡ length self.now.sets.now }
        requires within { All (λ l. All (λ number. number < length self.now.sets.now) l) (lists_at waiting.old.items) }
        ensures all_exact { IfOk result (λ found. MatchOption found ⊤ (λ joined. AreExact joined.all)) }
        ensures ends_exact { IfOk result (λ found. MatchOption found ⊤ (λ joined. AreExact joined.ends)) }
        ensures all_within { IfOk result (λ found. MatchOption found ⊤ (λ joined. All (λ number. number < length self.now.sets.now) (numbers_of joined.all))) }
        ensures taken { IfOk result (λ found. MatchOption found
            (All (WereLookedAt looked.now) (lists_at waiting.old.items))
            (λ joined. Takes self.now.sets.now looked.now (lists_at waiting.old.items) (lists_at waiting.new.items) (numbers_of joined.all) (numbers_of joined.ends))) }
        ensures most { most_of work.new ≡ most_of work.old }
        ensures passed { IsErrOf result OutOfWork → IsPassed work.new }
        ensures all_fits { IfOk result (λ found. MatchOption found ⊤ (λ joined. FitsBelow (length self.now.sets.now) joined.all.members)) }
        ensures ends_fits { IfOk result (λ found. MatchOption found ⊤ (λ joined. FitsBelow (length self.now.sets.now) joined.ends.members)) }
        ensures spare { OnOk result (Paid work.old (steps.old + 3 * places_in (lists_at waiting.old.items)) work.new (steps.new + 3 * places_in (lists_at waiting.new.items)) 0) }
        ensures cost { Paid work.old (steps.old + 3 * places_in (lists_at waiting.old.items)) work.new steps.new (length self.now.sets.now / 64 + 5) }
    {
        while let Some(first) = waiting.pop() {
            steps.take(1);
            let all = with_fragments(self.alloc, self.sets, &first, work, steps)?;
            let ends = looked.ends(self.alloc, &all, steps)?;
            if !ends.as_slice().is_empty() {
                return Ok(Some(JoinedSets { all, ends }));
            }
        }
        Ok(None)
    }

    /// The units of these sets, and of the fields in them.
    fn count_fields<L: Ledger>(&self, numbers: &DistinctNumbers, steps: &mut Steps<L>) -> usize
        ensures units { result < 2 ^ 64 - 1 → length (numbers_of numbers.now) * (length self.now.sets.now / 1024 + 1) + 16 * count_fields self.now.sets.now (numbers_of numbers.now) ≤ result }
        ensures cost { steps.new ≤ steps.old + length (numbers_of numbers.now) }
    {
        let mut units = self.count_rows(numbers);
        for number in numbers.as_slice() {
            steps.take(1);
            units = units.saturating_add(self.units_at(*number));
        }
        units
    }

    /// The units of the fields in the set with a number, if there is one.
    fn units_at(&self, number: usize) -> usize
        ensures { result ≡ min (16 * count_in (slice_get self.now.sets.now number)) (2 ^ 64 - 1) }
    {
        match self.sets.get(number) {
            Some(set) => units_of(set.fields.len()),
            None => 0,
        }
    }

    /// The units of these sets alone: the rows of bits that are read or written for each.
    fn count_rows(&self, numbers: &DistinctNumbers) -> usize
        ensures { result ≡ min (length (numbers_of numbers.now) * (length self.now.sets.now / 1024 + 1)) (2 ^ 64 - 1) }
    {
        let row = units_of_row(self.sets.len());
        numbers.as_slice().len().saturating_mul(row)
    }

    /// Looks at each of the ends with each of the sets: compares their fields, and adds lists of the sets below those that
    /// come together.
    fn look_at<L: Ledger>(
        &self,
        waiting: &mut Waiting,
        work: &mut PairWork,
        joined: &JoinedSets,
        steps: &mut Steps<L>,
    ) -> Result<Option<Conflict<'doc>>, Interruption>
        requires numbers { HaveArgumentNumbers self.now.sets.now }
        requires all_within { All (λ number. number < length self.now.sets.now) (numbers_of joined.now.all) }
        requires ends_within { All (λ number. number < length self.now.sets.now) (numbers_of joined.now.ends) }
        requires among { (number : ℕ) → Contains (numbers_of joined.now.ends) number → Contains (numbers_of joined.now.all) number }
        ensures found { IfOk result (λ found. MatchOption found
            (LooksAt self.now.schema.now (pass_of self.now.pass) self.now.sets.now (numbers_of joined.now.ends) (numbers_of joined.now.all) (lists_at waiting.old.items) (lists_at waiting.new.items))
            (FindsIn self.now.schema.now (pass_of self.now.pass) self.now.sets.now (numbers_of joined.now.all))) }
        ensures most { most_of work.new ≡ most_of work.old }
        ensures passed { IsErrOf result OutOfWork → IsPassed work.new }
        // For each of the sets, and for each of the ends, there are steps to spare in which the pairs are added.
        ensures spare { OnOk result (Paid work.old (steps.old + 3 * places_in (lists_at waiting.old.items)) work.new (steps.new + 3 * places_in (lists_at waiting.new.items) + length (numbers_of joined.now.ends) * (2 * (length self.now.sets.now / 64) + 67) + length (numbers_of joined.now.all) * (2 * (length self.now.sets.now / 64) + 68)) 0) }
        ensures cost { Paid work.old (steps.old + 3 * places_in (lists_at waiting.old.items)) work.new (steps.new + 3 * places_in (lists_at waiting.new.items)) 0 }
    {
        work.spend(self.count_fields(&joined.ends, steps))?;
        work.spend(self.count_fields(&joined.all, steps))?;
        let fields = self.fields_around(joined.ends.as_slice(), joined.all.as_slice(), steps)?;
        work.spend(units_of(fields.len()))?;
        let groups = group_fields(
            self.alloc,
            self.hash_seed,
            &fields,
            GroupedBy::ResponseKey,
            steps,
        )?;
        drop(fields);
        let keys = names_of(self.alloc, &groups, steps)?;
        self.look_by_keys(waiting, work, &groups, &keys, steps)
    }

    /// The fields of some sets that may come together with one in an end.
    fn fields_around<L: Ledger>(
        &self,
        ends: &[usize],
        numbers: &[usize],
        steps: &mut Steps<L>,
    ) -> Result<Vec<NumberedField<'doc>>, ValidationError>
        requires all_within { All (λ number. number < length self.now.sets.now) numbers.now }
        requires ends_within { All (λ number. number < length self.now.sets.now) ends.now }
        requires among { (number : ℕ) → Contains ends.now number → Contains numbers.now number }
        ensures cost { steps.new ≤ steps.old + 2 * length ends.now + 2 * count_fields self.now.sets.now ends.now + length numbers.now + count_fields self.now.sets.now numbers.now }
        ensures around { IfOk result (λ fields. AreFieldsAround self.now.schema.now (pass_of self.now.pass) self.now.sets.now ends.now numbers.now fields.items) }
    {
        let own = self.fields_of(ends, steps)?;
        steps.take(ends.len());
        if ends == numbers {
            return Ok(own);
        }
        let groups = group_fields(
            self.alloc,
            self.hash_seed,
            &own,
            GroupedBy::ResponseKey,
            steps,
        )?;
        self.fields_named_in(numbers, &groups, steps)
    }

    /// Those fields of these sets under whose response key there are fields in the groups.
    fn fields_named_in<L: Ledger>(
        &self,
        numbers: &[usize],
        groups: &FieldsByName<'doc>,
        steps: &mut Steps<L>,
    ) -> Result<Vec<NumberedField<'doc>>, ValidationError>
        requires { All (λ number. number < length self.now.sets.now) numbers.now }
        ensures cost { steps.new ≤ steps.old + length numbers.now + count_fields self.now.sets.now numbers.now }
        ensures named { IfOk result (λ fields. AreNamedIn self.now.schema.now (pass_of self.now.pass) self.now.sets.now groups.now.entries numbers.now fields.items) }
    {
        let mut fields = Vec::new(self.alloc);
        for number in numbers {
            steps.take(1);
            let others = &self.sets[*number].fields;
            add_named_in(&mut fields, groups, GroupedBy::ResponseKey, others, steps)?;
        }
        Ok(fields)
    }

    /// The fields of these sets.
    fn fields_of<L: Ledger>(
        &self,
        numbers: &[usize],
        steps: &mut Steps<L>,
    ) -> Result<Vec<NumberedField<'doc>>, ValidationError>
        requires { All (λ number. number < length self.now.sets.now) numbers.now }
        ensures count { IfOk result (λ fields. length fields.items ≡ count_fields self.now.sets.now numbers.now) }
        ensures cost { steps.new ≤ steps.old + length numbers.now + count_fields self.now.sets.now numbers.now }
        ensures fields { IfOk result (λ fields. AreFieldsOf self.now.schema.now (pass_of self.now.pass) self.now.sets.now numbers.now fields.items) }
    {
        let mut fields = Vec::new(self.alloc);
        for number in numbers {
            let own = &self.sets[*number].fields;
            steps.take(1);
            steps.take(own.len());
            fields.extend_from_slice(own)?;
        }
        Ok(fields)
    }

    /// Compares fields that are grouped by their response keys, as `look_at` does.
    fn look_by_keys<L: Ledger>(
        &self,
        waiting: &mut Waiting,
        work: &mut PairWork,
        groups: &FieldsByName<'doc>,
        keys: &[&'doc Name],
        steps: &mut Steps<L>,
    ) -> Result<Option<Conflict<'doc>>, Interruption>
        ensures found { (fields : List NumberedField) → HaveNumbers fields → IsGrouped ResponseKey fields groups.now.entries → keys.now ≡ names_in groups.now.entries → IfOk result (λ found. MatchOption found
            (Settles self.now.schema.now (pass_of self.now.pass) fields (Both fields) (lists_at waiting.old.items) (lists_at waiting.new.items))
            (Finds self.now.schema.now (pass_of self.now.pass) fields fields)) }
        ensures most { most_of work.new ≡ most_of work.old }
        ensures passed { IsErrOf result OutOfWork → IsPassed work.new }
        ensures cost { Paid work.old (steps.old + 3 * places_in (lists_at waiting.old.items)) work.new (steps.new + 3 * places_in (lists_at waiting.new.items)) (4 * length keys.now) }
    {
        for key in keys {
            steps.take(1);
            if let Some(conflict) = self.look_under_name(waiting, work, groups, *key, steps)? {
                return Ok(Some(conflict));
            }
        }
        Ok(None)
    }

    /// Compares the fields under one of the keys.
    fn look_under_name<L: Ledger>(
        &self,
        waiting: &mut Waiting,
        work: &mut PairWork,
        groups: &FieldsByName<'doc>,
        key: &'doc Name,
        steps: &mut Steps<L>,
    ) -> Result<Option<Conflict<'doc>>, Interruption>
        ensures found { (fields : List NumberedField) → HaveNumbers fields → IsGrouped ResponseKey fields groups.now.entries → IfOk result (λ found. MatchOption found
            (Settles self.now.schema.now (pass_of self.now.pass) fields (λ x y. Both fields x y × (has_name ResponseKey key.now x ≡ true)) (lists_at waiting.old.items) (lists_at waiting.new.items))
            (Finds self.now.schema.now (pass_of self.now.pass) fields fields)) }
        ensures most { most_of work.new ≡ most_of work.old }
        ensures passed { IsErrOf result OutOfWork → IsPassed work.new }
        ensures cost { Paid work.old (steps.old + 3 * places_in (lists_at waiting.old.items)) work.new (steps.new + 3 * places_in (lists_at waiting.new.items)) 3 }
    {
        match groups.get(&key) {
            Some(fields) => self.look_under_key(waiting, work, fields, steps),
            None => Ok(None),
        }
    }

    /// Compares fields of one response key: all of them for shapes, and those whose parents may overlap for names and arguments.
    fn look_under_key<L: Ledger>(
        &self,
        waiting: &mut Waiting,
        work: &mut PairWork,
        fields: &[NumberedField<'doc>],
        steps: &mut Steps<L>,
    ) -> Result<Option<Conflict<'doc>>, Interruption>
        ensures found { AreComparable fields.now → IfOk result (λ found. MatchOption found
            (Settles self.now.schema.now (pass_of self.now.pass) fields.now (Both fields.now) (lists_at waiting.old.items) (lists_at waiting.new.items))
            (Finds self.now.schema.now (pass_of self.now.pass) fields.now fields.now)) }
        ensures most { most_of work.new ≡ most_of work.old }
        ensures passed { IsErrOf result OutOfWork → IsPassed work.new }
        ensures cost { Paid work.old (steps.old + 3 * places_in (lists_at waiting.old.items)) work.new (steps.new + 3 * places_in (lists_at waiting.new.items)) 3 }
    {
        match self.pass {
            Pass::Shapes => self.look_at_fields(waiting, work, fields, steps),
            Pass::NamesAndArguments => {
                work.spend(units_of(fields.len()))?;
                let groups = group_fields(
                    self.alloc,
                    self.hash_seed,
                    fields,
                    GroupedBy::ParentType,
                    steps,
                )?;
                let parents = names_of(self.alloc, &groups, steps)?;
                self.look_by_parents(waiting, work, &groups, &parents, steps)
            }
        }
    }

    /// Compares fields that are grouped by the types on which they are.
    fn look_by_parents<L: Ledger>(
        &self,
        waiting: &mut Waiting,
        work: &mut PairWork,
        groups: &FieldsByName<'doc>,
        parents: &[&'doc Name],
        steps: &mut Steps<L>,
    ) -> Result<Option<Conflict<'doc>>, Interruption>
        requires { pass_of self.now.pass ≡ field_pass }
        ensures found { (fields : List NumberedField) → AreComparable fields → IsGrouped ParentType fields groups.now.entries → parents.now ≡ names_in groups.now.entries → IfOk result (λ found. MatchOption found
            (Settles self.now.schema.now (pass_of self.now.pass) fields (Both fields) (lists_at waiting.old.items) (lists_at waiting.new.items))
            (Finds self.now.schema.now (pass_of self.now.pass) fields fields)) }
        ensures most { most_of work.new ≡ most_of work.old }
        ensures passed { IsErrOf result OutOfWork → IsPassed work.new }
        ensures cost { Paid work.old (steps.old + 3 * places_in (lists_at waiting.old.items)) work.new (steps.new + 3 * places_in (lists_at waiting.new.items)) (4 * length parents.now) }
    {
        for parent in parents {
            steps.take(1);
            if let Some(conflict) = self.look_from_parent(
                waiting, work, groups, parents, *parent, steps,
            )? {
                return Ok(Some(conflict));
            }
        }
        Ok(None)
    }

    /// Compares the fields on one of the types: with all of them if the type may overlap with others, otherwise with one another.
    fn look_from_parent<L: Ledger>(
        &self,
        waiting: &mut Waiting,
        work: &mut PairWork,
        groups: &FieldsByName<'doc>,
        parents: &[&'doc Name],
        parent: &'doc Name,
        steps: &mut Steps<L>,
    ) -> Result<Option<Conflict<'doc>>, Interruption>
        requires { pass_of self.now.pass ≡ field_pass }
        ensures found { (fields : List NumberedField) → AreComparable fields → IsGrouped ParentType fields groups.now.entries → parents.now ≡ names_in groups.now.entries → IfOk result (λ found. MatchOption found
            (Settles self.now.schema.now (pass_of self.now.pass) fields (λ x y. Both fields x y × IsInTurn self.now.schema.now x y × (has_name ParentType parent.now x ≡ true)) (lists_at waiting.old.items) (lists_at waiting.new.items))
            (Finds self.now.schema.now (pass_of self.now.pass) fields fields)) }
        ensures most { most_of work.new ≡ most_of work.old }
        ensures passed { IsErrOf result OutOfWork → IsPassed work.new }
        ensures cost { Paid work.old (steps.old + 3 * places_in (lists_at waiting.old.items)) work.new (steps.new + 3 * places_in (lists_at waiting.new.items)) 3 }
    {
        let Some(first) = groups.get(&parent) else {
            return Ok(None);
        };
        if may_overlap_others(self.schema, parent) {
            return self.look_with_parents(waiting, work, first, groups, parents, steps);
        }
        self.look_at_one_parent(waiting, work, first, steps)
    }

    /// Compares the fields on one type with one another, if an object may be of that type.
    fn look_at_one_parent<L: Ledger>(
        &self,
        waiting: &mut Waiting,
        work: &mut PairWork,
        fields: &[NumberedField<'doc>],
        steps: &mut Steps<L>,
    ) -> Result<Option<Conflict<'doc>>, Interruption>
        requires { pass_of self.now.pass ≡ field_pass }
        ensures found { (all : List NumberedField) → AreComparable all → IsGroupOf ParentType all fields.now → IfOk result (λ found. MatchOption found
            (Settles self.now.schema.now (pass_of self.now.pass) all (Both fields.now) (lists_at waiting.old.items) (lists_at waiting.new.items))
            (Finds self.now.schema.now (pass_of self.now.pass) all all)) }
        ensures most { most_of work.new ≡ most_of work.old }
        ensures passed { IsErrOf result OutOfWork → IsPassed work.new }
        ensures cost { Paid work.old (steps.old + 3 * places_in (lists_at waiting.old.items)) work.new (steps.new + 3 * places_in (lists_at waiting.new.items)) 3 }
    {
        let Some(one) = fields.first() else {
            return Ok(None);
        };
        if !parents_may_overlap(self.schema, one.field, one.field) {
            return Ok(None);
        }
        self.look_at_fields(waiting, work, fields, steps)
    }

    /// Compares the fields on one type with all of them.
    fn look_with_parents<L: Ledger>(
        &self,
        waiting: &mut Waiting,
        work: &mut PairWork,
        first: &[NumberedField<'doc>],
        groups: &FieldsByName<'doc>,
        parents: &[&'doc Name],
        steps: &mut Steps<L>,
    ) -> Result<Option<Conflict<'doc>>, Interruption>
        requires { pass_of self.now.pass ≡ field_pass }
        ensures found { (fields : List NumberedField) → AreComparable fields → IsGrouped ParentType fields groups.now.entries → IsGroupOf ParentType fields first.now → parents.now ≡ names_in groups.now.entries → IfOk result (λ found. MatchOption found
            (Settles self.now.schema.now (pass_of self.now.pass) fields (λ x y. Contains first.now x × Contains fields y) (lists_at waiting.old.items) (lists_at waiting.new.items))
            (Finds self.now.schema.now (pass_of self.now.pass) fields fields)) }
        ensures most { most_of work.new ≡ most_of work.old }
        ensures passed { IsErrOf result OutOfWork → IsPassed work.new }
        ensures cost { Paid work.old (steps.old + 3 * places_in (lists_at waiting.old.items)) work.new (steps.new + 3 * places_in (lists_at waiting.new.items)) 0 }
    {
        work.spend(units_of(parents.len()))?;
        for parent in parents {
            steps.take(1);
            if let Some(conflict) = self.look_with_parent(
                waiting, work, first, groups, *parent, steps,
            )? {
                return Ok(Some(conflict));
            }
        }
        Ok(None)
    }

    /// Compares the fields on one type with those on one of the types.
    fn look_with_parent<L: Ledger>(
        &self,
        waiting: &mut Waiting,
        work: &mut PairWork,
        first: &[NumberedField<'doc>],
        groups: &FieldsByName<'doc>,
        parent: &'doc Name,
        steps: &mut Steps<L>,
    ) -> Result<Option<Conflict<'doc>>, Interruption>
        requires { pass_of self.now.pass ≡ field_pass }
        ensures found { (fields : List NumberedField) → AreComparable fields → IsGrouped ParentType fields groups.now.entries → IsGroupOf ParentType fields first.now → IfOk result (λ found. MatchOption found
            (Settles self.now.schema.now (pass_of self.now.pass) fields (λ x y. Contains first.now x × (Contains fields y × (has_name ParentType parent.now y ≡ true))) (lists_at waiting.old.items) (lists_at waiting.new.items))
            (Finds self.now.schema.now (pass_of self.now.pass) fields fields)) }
        ensures most { most_of work.new ≡ most_of work.old }
        ensures passed { IsErrOf result OutOfWork → IsPassed work.new }
        ensures cost { Paid work.old (steps.old + 3 * places_in (lists_at waiting.old.items)) work.new (steps.new + 3 * places_in (lists_at waiting.new.items)) 3 }
    {
        match groups.get(&parent) {
            Some(second) => self.look_at_two_parents(waiting, work, first, second, steps),
            None => Ok(None),
        }
    }

    /// Compares the fields on one type with those on another, if the types may overlap.
    fn look_at_two_parents<L: Ledger>(
        &self,
        waiting: &mut Waiting,
        work: &mut PairWork,
        first: &[NumberedField<'doc>],
        second: &[NumberedField<'doc>],
        steps: &mut Steps<L>,
    ) -> Result<Option<Conflict<'doc>>, Interruption>
        requires { pass_of self.now.pass ≡ field_pass }
        ensures found { (fields : List NumberedField) → AreComparable fields → IsGroupOf ParentType fields first.now → IsGroupOf ParentType fields second.now → IfOk result (λ found. MatchOption found
            (Settles self.now.schema.now (pass_of self.now.pass) fields (λ x y. Contains first.now x × Contains second.now y) (lists_at waiting.old.items) (lists_at waiting.new.items))
            (Finds self.now.schema.now (pass_of self.now.pass) fields fields)) }
        ensures most { most_of work.new ≡ most_of work.old }
        ensures passed { IsErrOf result OutOfWork → IsPassed work.new }
        ensures cost { Paid work.old (steps.old + 3 * places_in (lists_at waiting.old.items)) work.new (steps.new + 3 * places_in (lists_at waiting.new.items)) 3 }
    {
        let (Some(one), Some(other)) = (first.first(), second.first()) else {
            return Ok(None);
        };
        if !parents_may_overlap(self.schema, one.field, other.field) {
            return Ok(None);
        }
        // In this pass each field decides alone.
        work.spend(units_of(first.len().saturating_add(second.len())))?;
        steps.take(first.len());
        steps.take(second.len());
        let mut both = Vec::from_slice(self.alloc, first)?;
        both.extend_from_slice(second)?;
        Ok(self.compare_fields(waiting, &both, true, steps)?)
    }

    /// Compares fields of which each two come together, and adds the list of their sets.
    fn look_at_fields<L: Ledger>(
        &self,
        waiting: &mut Waiting,
        work: &mut PairWork,
        fields: &[NumberedField<'doc>],
        steps: &mut Steps<L>,
    ) -> Result<Option<Conflict<'doc>>, Interruption>
        ensures found { AreTogether self.now.schema.now (pass_of self.now.pass) fields.now → HaveNumbers fields.now → IfOk result (λ found. MatchOption found
            (Settles self.now.schema.now (pass_of self.now.pass) fields.now (Both fields.now) (lists_at waiting.old.items) (lists_at waiting.new.items))
            (Finds self.now.schema.now (pass_of self.now.pass) fields.now fields.now)) }
        ensures most { most_of work.new ≡ most_of work.old }
        ensures passed { IsErrOf result OutOfWork → IsPassed work.new }
        ensures cost { Paid work.old (steps.old + 3 * places_in (lists_at waiting.old.items)) work.new (steps.new + 3 * places_in (lists_at waiting.new.items)) 3 }
    {
        let alone = self.one_decides(fields);
        work.spend(units_of(comparisons_of(fields.len(), alone)))?;
        Ok(self.compare_fields(waiting, fields, alone, steps)?)
    }

    /// Compares fields as `look_at_fields` does, where their units are counted already. The only error is a failed allocation.
    fn compare_fields<L: Ledger>(
        &self,
        waiting: &mut Waiting,
        fields: &[NumberedField<'doc>],
        alone: bool,
        steps: &mut Steps<L>,
    ) -> Result<Option<Conflict<'doc>>, ValidationError>
        requires { IsTrue alone → OneDecides self.now.schema.now (pass_of self.now.pass) fields.now }
        ensures found { AreTogether self.now.schema.now (pass_of self.now.pass) fields.now → HaveNumbers fields.now → IfOk result (λ found. MatchOption found
            (Settles self.now.schema.now (pass_of self.now.pass) fields.now (Both fields.now) (lists_at waiting.old.items) (lists_at waiting.new.items))
            (Finds self.now.schema.now (pass_of self.now.pass) fields.now fields.now)) }
        ensures cost { steps.new + 3 * places_in (lists_at waiting.new.items) ≤ steps.old + 3 * places_in (lists_at waiting.old.items) + comparisons alone (length fields.now) + 4 * length fields.now + 3 }
    {
        if let Some(conflict) = self.conflict_among(fields, alone, steps)? {
            return Ok(Some(conflict));
        }
        let below = self.sets_below(fields, steps)?;
        waiting.push(below)?;
        Ok(None)
    }

    /// Whether the first of these fields, if there is one, decides for all of them.
    fn one_decides(&self, fields: &[NumberedField]) -> bool
        ensures { IsTrue result → OneDecides self.now.schema.now (pass_of self.now.pass) fields.now }
    {
        match fields.first() {
            Some(first) => self.decides_alone(*first),
            None => true,
        }
    }

    /// The sets of those fields that select something.
    fn sets_below<L: Ledger>(
        &self,
        fields: &[NumberedField<'doc>],
        steps: &mut Steps<L>,
    ) -> Result<Vec<usize>, ValidationError>
        ensures count { IfOk result (λ below. length below.items ≤ length fields.now) }
        ensures cost { steps.new ≤ steps.old + length fields.now }
        ensures below { IfOk result (λ below. AreSetsBelow fields.now below.items) }
    {
        let mut below = Vec::new(self.alloc);
        for field in fields {
            steps.take(1);
            if field.selects_something() {
                below.push(field.set)?;
            }
        }
        Ok(below)
    }

    /// Two of these fields that do not agree, if there are any.
    fn conflict_among<L: Ledger>(
        &self,
        fields: &[NumberedField<'doc>],
        alone: bool,
        steps: &mut Steps<L>,
    ) -> Result<Option<Conflict<'doc>>, ValidationError>
        requires { IsTrue alone → OneDecides self.now.schema.now (pass_of self.now.pass) fields.now }
        ensures cost { steps.new ≤ steps.old + comparisons alone (length fields.now) }
        ensures found { HaveNumbers fields.now → IfOk result (λ found. MatchOption found
            (AllAgree self.now.schema.now (pass_of self.now.pass) fields.now)
            (DisagreeAmong self.now.schema.now (pass_of self.now.pass) fields.now fields.now)) }
    {
        if !alone {
            return self.conflict_of_any(fields, steps);
        }
        match fields.first() {
            Some(first) => self.conflict_with_each(*first, fields, steps),
            None => Ok(None),
        }
    }

    /// Two of these fields that do not agree, if there are any: each is compared with each.
    fn conflict_of_any<L: Ledger>(
        &self,
        fields: &[NumberedField<'doc>],
        steps: &mut Steps<L>,
    ) -> Result<Option<Conflict<'doc>>, ValidationError>
        ensures cost { steps.new ≤ steps.old + length fields.now * length fields.now }
        ensures found { HaveNumbers fields.now → IfOk result (λ found. MatchOption found
            (AllAgree self.now.schema.now (pass_of self.now.pass) fields.now)
            (DisagreeAmong self.now.schema.now (pass_of self.now.pass) fields.now fields.now)) }
    {
        for field in fields {
            if let Some(conflict) = self.conflict_with_each(*field, fields, steps)? {
                return Ok(Some(conflict));
            }
        }
        Ok(None)
    }

    /// Whether fields that agree with this one agree with one another: all but those whose type is not defined.
    fn decides_alone(&self, field: NumberedField) -> bool
        ensures { IsTrue result → DecidesAlone self.now.schema.now (pass_of self.now.pass) (field_of field.entry) }
    {
        match self.pass {
            Pass::Shapes => has_defined_type(self.schema, field.field),
            Pass::NamesAndArguments => true,
        }
    }

    /// The first of these fields that does not agree with this one, if there is any.
    fn conflict_with_each<L: Ledger>(
        &self,
        field: NumberedField<'doc>,
        others: &[NumberedField<'doc>],
        steps: &mut Steps<L>,
    ) -> Result<Option<Conflict<'doc>>, ValidationError>
        ensures cost { steps.new ≤ steps.old + length others.now }
        ensures found { HaveNumbers (field.entry ∷ others.now) → IfOk result (λ found. MatchOption found
            (All (λ other. Agree self.now.schema.now (pass_of self.now.pass) (field_of field.entry) (field_of other)) others.now)
            (DisagreeAmong self.now.schema.now (pass_of self.now.pass) (field.entry ∷ []) others.now)) }
    {
        for other in others {
            steps.take(1);
            if let Some(conflict) = self.conflict_of(field, *other)? {
                return Ok(Some(conflict));
            }
        }
        Ok(None)
    }

    /// The two fields, if they do not agree.
    fn conflict_of(
        &self,
        first: NumberedField<'doc>,
        second: NumberedField<'doc>,
    ) -> Result<Option<Conflict<'doc>>, ValidationError>
        ensures { HaveNumbers (first.entry ∷ second.entry ∷ []) → IfOk result (λ found. MatchOption found
            (Agree self.now.schema.now (pass_of self.now.pass) (field_of first.entry) (field_of second.entry))
            (DisagreeAmong self.now.schema.now (pass_of self.now.pass) (first.entry ∷ []) (second.entry ∷ []))) }
    {
        let found = disagreement_of(
            self.alloc,
            self.hash_seed,
            self.schema,
            self.pass,
            first,
            second,
        )?;
        match found {
            Some(disagreement) => Ok(Some(Conflict {
                first: first.field,
                second: second.field,
                disagreement,
            })),
            None => Ok(None),
        }
    }
}
