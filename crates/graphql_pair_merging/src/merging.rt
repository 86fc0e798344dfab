//! Whether all fields of operations that come together in a response agree.

ghost use Rattle.std.specs.List.{Any};
ghost use Rattle.std.specs.Prelude.{◌≡◌, ◌↔◌, ◌+◌, ◌*◌, ◌-◌, ◌^◌, ◌<◌, ◌≤◌, [], All, IfOk, IsErrOf, IsFalse, IsTrue, MatchOption, OnOk};
ghost use Rattle.graphql_diagnostics.specs.Diagnostics.{entries};
ghost use Rattle.graphql_diagnostics.specs.Reports.{Appends, KeepsReports};
ghost use Rattle.graphql_documents.specs.Selections.{fragments_of};
ghost use Rattle.graphql_specification.specs.Merging.{FieldsCanMerge, MergingReport};
ghost use Rattle.graphql_merging.specs.ExpansionSteps.{fragments_in};
ghost use Rattle.graphql_specification.specs.MergedSets.{MeetingFieldsAgree};
ghost use Rattle.graphql_pair_merging.specs.DocumentSizes.{size_of};
ghost use Rattle.graphql_pair_merging.specs.Meetings.{IsMetConflict};
ghost use Rattle.graphql_pair_merging.specs.NumberedSets.{operation_sets};
ghost use Rattle.graphql_pair_merging.specs.Works.{IsPassed, Paid, counted_of, most_of};
ghost use Rattle.graphql_pair_merging.specs.declared.work.Interruption.TheVariants.{OutOfWork};

use super::disagreements::Conflict;
use super::numbered_sets::number_sets;
use super::pairs::PairPass;
use super::work::{Interruption, PairWork};
use graphql_diagnostics::DiagnosticList;
use graphql_documents::documents::{ExecutableDocument, Fragment, Operation, Schema};
use graphql_hash_seeds::HashSeed;
use graphql_merging::groups::Pass;
use graphql_nodes::{Name, Node, ValidationError};
use graphql_steps::Steps;
use indexmap::IndexMap;
use std::alloc::Global;
use std::marker::Brand;
use std::sync::ledger::{Blank, Ledger};

/// Decides whether in each of these operations all fields that come together in a response agree, and reports two
/// that do not, if there are any in one of them: at the second, that their types have different shapes, or that they
/// are not one field with the same arguments though their parents may overlap all the way.
///
/// Two selection sets of the document are looked at together at most once for shapes and once for names and
/// arguments, however many ways and operations lead to them, and fragments may form cycles. The only error is
/// a failed allocation; in any case the old diagnostics stay.
///
/// Specification: 5.3.2 Field Selection Merging.
pub fn merge_by_pairs(
    diagnostics: &mut DiagnosticList,
    schema: &Schema,
    document: &ExecutableDocument,
    operations: &[&Node<Operation>],
) -> Result<(), ValidationError>
    ensures decides { OnOk result (Appends
        (λ added. (added ≡ []) ↔ All (λ o. FieldsCanMerge schema.now (fragments_of document.now) o.now.value.value.selection_set) operations.now)
        (entries diagnostics.old) (entries diagnostics.new)) }
    ensures truth { KeepsReports
        (λ e. Any (λ o. MergingReport schema.now (fragments_of document.now) o.now.value.value.selection_set e.details e.location) operations.now)
        (entries diagnostics.old) (entries diagnostics.new) }
{
    let mut work = PairWork::new(usize::MAX);
    let decided = merge_by_pairs_within(diagnostics, schema, document, operations, &mut work)?;
    let counted = work.counted();
    prove!(decided && counted <= usize::MAX);
    Ok(())
}

/// Decides whether in each of these operations all fields that come together in a response agree, and reports as `merge_by_pairs`
/// does. Answers whether this was decided: it was, unless the work that was counted passes its bound. Then the search stops,
/// and nothing is reported. What was counted before the call counts too, and the bound stays. The only error is a failed
/// allocation. `merge_by_pairs_in_steps`, which this calls, bounds the number of steps.
///
/// Specification: 5.3.2 Field Selection Merging.
pub fn merge_by_pairs_within(
    diagnostics: &mut DiagnosticList,
    schema: &Schema,
    document: &ExecutableDocument,
    operations: &[&Node<Operation>],
    work: &mut PairWork,
) -> Result<bool, ValidationError>
    ensures decides { IfOk result (λ decided. IsTrue decided → Appends
        (λ added. (added ≡ []) ↔ All (λ o. FieldsCanMerge schema.now (fragments_of document.now) o.now.value.value.selection_set) operations.now)
        (entries diagnostics.old) (entries diagnostics.new)) }
    ensures passed { IfOk result (λ decided. IsFalse decided → IsPassed work.new × (entries diagnostics.new ≡ entries diagnostics.old)) }
    ensures truth { KeepsReports
        (λ e. Any (λ o. MergingReport schema.now (fragments_of document.now) o.now.value.value.selection_set e.details e.location) operations.now)
        (entries diagnostics.old) (entries diagnostics.new) }
    ensures most { most_of work.new ≡ most_of work.old }
{
    merge_by_pairs_uncounted::<Brand>(
        diagnostics,
        schema,
        document,
        operations,
        work,
        Blank::new(1),
    )
}

/// Merges with a counter that nobody reads.
fn merge_by_pairs_uncounted<L: Ledger>(
    diagnostics: &mut DiagnosticList,
    schema: &Schema,
    document: &ExecutableDocument,
    operations: &[&Node<Operation>],
    work: &mut PairWork,
    blank: Blank,
) -> Result<bool, ValidationError>
    requires name { blank.name ≡ L.name }
    requires parts { blank.parts ≡ L.parts }
    requires some { 0 < blank.parts }
    ensures decides { IfOk result (λ decided. IsTrue decided → Appends
        (λ added. (added ≡ []) ↔ All (λ o. FieldsCanMerge schema.now (fragments_of document.now) o.now.value.value.selection_set) operations.now)
        (entries diagnostics.old) (entries diagnostics.new)) }
    ensures passed { IfOk result (λ decided. IsFalse decided → IsPassed work.new × (entries diagnostics.new ≡ entries diagnostics.old)) }
    ensures truth { KeepsReports
        (λ e. Any (λ o. MergingReport schema.now (fragments_of document.now) o.now.value.value.selection_set e.details e.location) operations.now)
        (entries diagnostics.old) (entries diagnostics.new) }
    ensures most { most_of work.new ≡ most_of work.old }
{
    let mut steps = Steps::<L>::new(blank);
    merge_by_pairs_in_steps(diagnostics, schema, document, operations, work, &mut steps)
}

/// Does what `merge_by_pairs_within` does, and counts its steps. However it ends, unless the count of the work is full, they are at
/// most a hundred for each unit that was counted, and 23 for each set and selection that is written in the fragments and
/// operations, and ten. A step is a visit of a set, a fragment, a field, a name or a number, a comparison of two fields, whatever their
/// arguments are, or 64 numbers in a row of bits. To number the values in arguments takes steps that are not counted, as does a
/// report.
pub fn merge_by_pairs_in_steps<L: Ledger>(
    diagnostics: &mut DiagnosticList,
    schema: &Schema,
    document: &ExecutableDocument,
    operations: &[&Node<Operation>],
    work: &mut PairWork,
    steps: &mut Steps<L>,
) -> Result<bool, ValidationError>
    ensures decides { IfOk result (λ decided. IsTrue decided → Appends
        (λ added. (added ≡ []) ↔ All (λ o. FieldsCanMerge schema.now (fragments_of document.now) o.now.value.value.selection_set) operations.now)
        (entries diagnostics.old) (entries diagnostics.new)) }
    ensures passed { IfOk result (λ decided. IsFalse decided → IsPassed work.new × (entries diagnostics.new ≡ entries diagnostics.old)) }
    ensures truth { KeepsReports
        (λ e. Any (λ o. MergingReport schema.now (fragments_of document.now) o.now.value.value.selection_set e.details e.location) operations.now)
        (entries diagnostics.old) (entries diagnostics.new) }
    ensures most { most_of work.new ≡ most_of work.old }
    ensures grows { counted_of work.old ≤ counted_of work.new }
    ensures cost { counted_of work.new < 2 ^ 64 - 1 →
        steps.new + 100 * counted_of work.old ≤ steps.old + 100 * counted_of work.new + 23 * size_of document.now.fragments (operation_sets operations.now) + 10 }
{
    let alloc = diagnostics.allocator();
    match find_conflict(alloc, schema, &document.fragments, operations, work, steps) {
        Ok(Some(conflict)) => {
            conflict.report(diagnostics)?;
            Ok(true)
        }
        Ok(None) => Ok(true),
        Err(Interruption::OutOfWork) => Ok(false),
        Err(Interruption::OutOfMemory) => Err(ValidationError::OutOfMemory),
    }
}

/// Two fields that come together in an operation and do not agree, if there are any: by their shapes first.
fn find_conflict<'doc, L: Ledger>(
    alloc: Global,
    schema: &Schema,
    fragments: &'doc IndexMap<Name, Node<Fragment>, HashSeed>,
    operations: &[&'doc Node<Operation>],
    work: &mut PairWork,
    steps: &mut Steps<L>,
) -> Result<Option<Conflict<'doc>>, Interruption>
    ensures found { IfOk result (λ found. MatchOption found
        (All (MeetingFieldsAgree schema.now (fragments_in fragments.now)) (operation_sets operations.now))
        (IsMetConflict schema.now (fragments_in fragments.now) (operation_sets operations.now))) }
    ensures most { most_of work.new ≡ most_of work.old }
    ensures passed { IsErrOf result OutOfWork → IsPassed work.new }
    ensures cost { Paid work.old steps.old work.new steps.new (23 * size_of fragments.now (operation_sets operations.now) + 10) }
{
    let hash_seed = *fragments.hasher();
    let numbered = number_sets(alloc, fragments, operations, steps)?;
    let shapes = PairPass {
        alloc,
        hash_seed,
        schema,
        sets: &numbered.sets,
        pass: Pass::Shapes,
    };
    if let Some(conflict) = shapes.find_conflict(&numbered.starts, work, steps)? {
        return Ok(Some(conflict));
    }
    let fields = PairPass {
        alloc,
        hash_seed,
        schema,
        sets: &numbered.sets,
        pass: Pass::NamesAndArguments,
    };
    fields.find_conflict(&numbered.starts, work, steps)
}
