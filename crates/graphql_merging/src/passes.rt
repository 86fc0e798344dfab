ghost use Rattle.std.specs.Prelude.{◌≡◌, ◌≤◌, All, ◌+◌, ◌*◌, ◌-◌, ◌∷◌, [], IfErr, IfOk, List, OnOk, filter, length, map};
ghost use Rattle.graphql_contents.specs.Documents.{HasFragments, IsNumberedSet, contents_in, document_in};
ghost use Rattle.graphql_diagnostics.specs.Diagnostics.{entries};
ghost use Rattle.graphql_specification.specs.MergedSets.{Expansion, IsGroup, MergedSet, nested_sets, merging_depth_limit};
ghost use Rattle.graphql_specification.specs.Merging as merging;
ghost use Rattle.graphql_diagnostics.specs.Reports.{KeepsReports};
ghost use Rattle.graphql_documents.specs.Selections.{fragments_of};
ghost use Rattle.graphql_documents.specs.declared.documents.executables.Operation.{Operation};
ghost use Rattle.graphql_nodes.specs.declared.nodes.Node.{Node};
ghost use Rattle.graphql_guards.specs.Guards.{count_limit, count_of};
ghost use Rattle.graphql_merging.specs.NumberedFields.{AreNumberedIn, listed};
ghost use Rattle.graphql_merging.specs.Groups.{pass_of};
ghost use Rattle.graphql_merging.specs.Passes.{Examines, ExaminesSet, GoesBelow, IsConflict, IsNew};
ghost use Rattle.graphql_merging.specs.Stages.{examined_lists, stage_of};
ghost use Rattle.graphql_merging.specs.Tables.{AreInOneTable, IsExaminedIn};
ghost use Rattle.graphql_merging.specs.Works.{IsUnbounded, Pays};
ghost use Rattle.graphql_merging.specs.declared.work.Interruption.TheVariants.{OutOfMemory};

use super::conflicts::compare_groups;
use super::examined::Examined;
use super::groups::{Pass, groups_of};
use super::numbered_expansion::expand_sets;
use super::numbered_fields::{FieldList, NumberedField};
use super::work::{Interruption, Work};
use graphql_contents::{NumberedDocument, NumberedSet};
use graphql_diagnostics::DiagnosticList;
use graphql_documents::documents::Schema;
use graphql_guards::LimitCounter;
use graphql_nodes::ValidationError;
use graphql_steps::Steps;
use std::alloc::Global;
use std::sync::ledger::Ledger;

/// A pass over the fields of operations of a document.
#[derive(Drop)]
pub(crate) struct MergingPass<'s, 'doc> {
    pub(crate) schema: &'s Schema,
    pub(crate) numbered: &'s NumberedDocument<'doc>,
    pub(crate) pass: Pass,
    ghost fragments: { HasFragments numbered.now },
}

impl<'s, 'doc> MergingPass<'s, 'doc> {
    /// Examines the fields of a set, and what is merged below them, unless the same fields were examined
    /// before. The call is interrupted if more is gone through or compared than the work allows.
    pub(crate) fn examine_set<L: Ledger>(
        &self,
        diagnostics: &mut DiagnosticList,
        examined: &mut Examined<'doc>,
        depth: &mut LimitCounter,
        work: &mut Work,
        steps: &mut Steps<L>,
        set: NumberedSet<'s, 'doc>,
    ) -> Result<(), Interruption>
        requires limit { count_limit depth.old ≡ merging_depth_limit }
        requires set { IsNumberedSet (contents_in self.now.numbered.now) set }
        requires known { IsExaminedIn (contents_in self.now.numbered.now) examined.old }
        ensures examines { OnOk result (ExaminesSet self.now.schema.now (fragments_of (document_in self.now.numbered.now)) (pass_of self.now.pass) set.entry.set.now
            (stage_of examined.old depth.old diagnostics.old) (stage_of examined.new depth.new diagnostics.new)) }
        ensures truth { (operations : List (Node Operation)) →
            ((fields : List merging.FieldSelection) → Expansion (fragments_of (document_in self.now.numbered.now)) (set.entry.set.now ∷ []) fields →
            MergedSet self.now.schema.now (fragments_of (document_in self.now.numbered.now)) operations (pass_of self.now.pass) fields) →
            KeepsReports (IsConflict self.now.schema.now (fragments_of (document_in self.now.numbered.now)) operations (pass_of self.now.pass)) (entries diagnostics.old) (entries diagnostics.new) }
        ensures limit { OnOk result (count_limit depth.new ≡ count_limit depth.old) }
        ensures known { IsExaminedIn (contents_in self.now.numbered.now) examined.new }
        ensures unbounded { IsUnbounded work.old → IsUnbounded work.new × IfErr result (λ e. e ≡ OutOfMemory) }
        ensures cost { Pays work.old work.new steps.old steps.new 1 }
    {
        let alloc = diagnostics.allocator();
        let list = self.expand(alloc, work, steps, vec![in alloc; set]?)?;
        steps.take(list.fields.len());
        if examined.knows(&list) {
            return Ok(());
        }
        self.examine(diagnostics, examined, depth, work, steps, list)
    }

    /// Examines a list of fields that was not examined before: compares them group by group, and then
    /// examines what is merged below each group.
    #[cycle(merging)]
    fn examine<L: Ledger>(
        &self,
        diagnostics: &mut DiagnosticList,
        examined: &mut Examined<'doc>,
        depth: &mut LimitCounter,
        work: &mut Work,
        steps: &mut Steps<L>,
        list: FieldList<'doc>,
    ) -> Result<(), Interruption>
        requires limit { count_limit depth.old ≡ merging_depth_limit }
        requires list { AreNumberedIn (contents_in self.now.numbered.now) list.fields.items }
        requires known { IsExaminedIn (contents_in self.now.numbered.now) examined.old }
        requires is_new { IsNew (examined_lists examined.old) (listed list.fields.items) }
        ensures examines { OnOk result (Examines self.now.schema.now (fragments_of (document_in self.now.numbered.now)) (pass_of self.now.pass) (listed list.entry.fields.items)
            (stage_of examined.old depth.old diagnostics.old) (stage_of examined.new depth.new diagnostics.new)) }
        ensures truth { (operations : List (Node Operation)) →
            MergedSet self.now.schema.now (fragments_of (document_in self.now.numbered.now)) operations (pass_of self.now.pass) (listed list.entry.fields.items) →
            KeepsReports (IsConflict self.now.schema.now (fragments_of (document_in self.now.numbered.now)) operations (pass_of self.now.pass)) (entries diagnostics.old) (entries diagnostics.new) }
        ensures limit { OnOk result (count_limit depth.new ≡ count_limit depth.old) }
        ensures known { IsExaminedIn (contents_in self.now.numbered.now) examined.new }
        ensures unbounded { IsUnbounded work.old → IsUnbounded work.new × IfErr result (λ e. e ≡ OutOfMemory) }
        ensures cost { Pays work.old work.new steps.old steps.new (24 * length list.entry.fields.items) }
    {
        let groups = groups_of(
            diagnostics.allocator(),
            self.numbered.hash_seed(),
            work,
            steps,
            self.schema,
            self.pass,
            &list.fields,
        )?;
        steps.take(list.fields.len());
        examined.add(list)?;
        work.count_arguments(self.pass, &groups, steps)?;
        compare_groups(
            diagnostics,
            examined,
            self.schema,
            self.pass,
            &groups,
            steps,
        )?;
        for group in &groups {
            steps.take(1);
            self.examine_below(diagnostics, examined, depth, work, steps, group)?;
        }
        Ok(())
    }

    /// Examines what is merged below a group of fields, one step deeper, unless it was examined before or
    /// is too deep.
    #[cycle(merging)]
    fn examine_below<L: Ledger>(
        &self,
        diagnostics: &mut DiagnosticList,
        examined: &mut Examined<'doc>,
        depth: &mut LimitCounter,
        work: &mut Work,
        steps: &mut Steps<L>,
        group: &[NumberedField<'doc>],
    ) -> Result<(), Interruption>
        requires limit { count_limit depth.old ≡ merging_depth_limit }
        requires group { AreNumberedIn (contents_in self.now.numbered.now) group.now }
        requires known { IsExaminedIn (contents_in self.now.numbered.now) examined.old }
        ensures examines { OnOk result (GoesBelow self.now.schema.now (fragments_of (document_in self.now.numbered.now)) (pass_of self.now.pass) (listed group.now ∷ [])
            (stage_of examined.old depth.old diagnostics.old) (stage_of examined.new depth.new diagnostics.new)) }
        ensures truth { (operations : List (Node Operation)) (above : List merging.FieldSelection) →
            MergedSet self.now.schema.now (fragments_of (document_in self.now.numbered.now)) operations (pass_of self.now.pass) above →
            IsGroup self.now.schema.now above (pass_of self.now.pass) (listed group.now) →
            KeepsReports (IsConflict self.now.schema.now (fragments_of (document_in self.now.numbered.now)) operations (pass_of self.now.pass)) (entries diagnostics.old) (entries diagnostics.new) }
        ensures limit { OnOk result (count_limit depth.new ≡ count_limit depth.old) }
        ensures known { IsExaminedIn (contents_in self.now.numbered.now) examined.new }
        ensures unbounded { IsUnbounded work.old → IsUnbounded work.new × IfErr result (λ e. e ≡ OutOfMemory) }
        ensures cost { Pays work.old work.new steps.old steps.new (2 * length group.now) }
    {
        let alloc = diagnostics.allocator();
        let sets = nested_sets_of(alloc, self.numbered, group, steps)?;
        if sets.is_empty() {
            return Ok(());
        }
        let list = self.expand(alloc, work, steps, sets)?;
        steps.take(list.fields.len());
        if examined.knows(&list) {
            return Ok(());
        }
        if depth.check_and_increment() {
            return Ok(());
        }
        self.examine(diagnostics, examined, depth, work, steps, list)?;
        depth.decrement();
        Ok(())
    }

    /// Lists the fields of these sets, and those of the fragments in them. The call is interrupted if more selections are gone
    /// through than the work allows.
    fn expand<L: Ledger>(
        &self,
        alloc: Global,
        work: &mut Work,
        steps: &mut Steps<L>,
        sets: Vec<NumberedSet<'s, 'doc>>,
    ) -> Result<FieldList<'doc>, Interruption>
        requires { All (IsNumberedSet (contents_in self.now.numbered.now)) sets.items }
        ensures numbers { IfOk result (λ list. AreNumberedIn (contents_in self.now.numbered.now) list.fields.items) }
        ensures fields { IfOk result (λ list. Expansion (fragments_of (document_in self.now.numbered.now)) (map (λ set. set.set.now) sets.entry.items) (listed list.fields.items)) }
        ensures unbounded { IsUnbounded work.old → IsUnbounded work.new × IfErr result (λ e. e ≡ OutOfMemory) }
        ensures spare { IfOk result (λ list.
            Pays work.old work.new (steps.old + length sets.entry.items) (steps.new + 25 * length list.fields.items) 0) }
        ensures cost { Pays work.old work.new steps.old steps.new (length sets.entry.items) }
    {
        let fields = expand_sets(alloc, self.numbered, work, steps, sets)?;
        Ok(FieldList { fields })
    }
}

/// The sets of the fields that select something.
fn nested_sets_of<'s, 'doc, L: Ledger>(
    alloc: Global,
    numbered: &'s NumberedDocument<'doc>,
    group: &[NumberedField<'doc>],
    steps: &mut Steps<L>,
) -> Result<Vec<NumberedSet<'s, 'doc>>, ValidationError>
    requires { AreNumberedIn (contents_in numbered.now) group.now }
    ensures sets { IfOk result (λ sets. map (λ set. set.set.now) sets.items ≡ nested_sets (listed group.now)) }
    ensures numbers { IfOk result (λ sets. All (IsNumberedSet (contents_in numbered.now)) sets.items) }
    ensures count { IfOk result (λ sets. length sets.items ≤ length group.now) }
    ensures steps { steps.new ≤ steps.old + length group.now }
{
    let mut sets = Vec::new(alloc);
    for field in group {
        steps.take(1);
        let set = &field.field.value.selection_set;
        if !set.selections.is_empty() {
            let contents = numbered.nested(field.content);
            sets.push(NumberedSet { set, contents })?;
        }
    }
    Ok(sets)
}
