//! Merging of the operations of a document, up to a bound of work.

use super::merging::FieldsInSetCanMerge;
use super::work::Work;
use graphql_diagnostics::DiagnosticList;
use graphql_documents::documents::{ExecutableDocument, Operation, Schema};
use graphql_nodes::{Node, ValidationError};
use graphql_steps::Steps;
use std::alloc::Global;
use std::marker::Brand;
use std::sync::ledger::{Blank, Ledger};

/// Decides of the operations of a document, one after another, whether all fields that come together in
/// a response agree, as `FieldsInSetCanMerge` does, until a bound of work is passed.
///
/// The work is the number of selections that are gone past to list the fields that come together, once for shapes and once for
/// names and arguments, even if the same list was examined before. A field on an abstract type counts again for each object type
/// whose group it is copied into. If arguments are compared, each four bytes of them count as a selection, and each argument as
/// at least one; those of the first field of a group count at each comparison.
///
/// Specification: 5.3.2 Field Selection Merging.
#[derive(Drop)]
pub struct BoundedMerging<'s, 'doc> {
    merging: FieldsInSetCanMerge<'s, 'doc>,
    work: Work,
    interrupted: bool,
}

impl<'s, 'doc> BoundedMerging<'s, 'doc> {
    ghost use Rattle.std.specs.Prelude.{◌≡◌, ◌<◌, ◌⊎◌, [], IfOk, IsFalse, IsTrue, None};
    ghost use Rattle.graphql_diagnostics.specs.Diagnostics.{entries};
    ghost use Rattle.graphql_diagnostics.specs.Reports.{KeepsReports};
    ghost use Rattle.graphql_documents.specs.Selections.{fragments_of};
    ghost use Rattle.graphql_specification.specs.MergedSets.{MergingLimit};
    ghost use Rattle.graphql_specification.specs.Merging.{MergingReport};
    ghost use Rattle.graphql_merging.specs.MergedOperations.{MergesOneMore};
    ghost use Rattle.graphql_merging.specs.Mergers.{HasNoBound, IsSoundWithin, PaysWithin, left_within, document_of, has_refused, is_interrupted, merger_of, merging_of, schema_of};

    /// No operation was merged yet, and so much may be done; without a bound, anything. It takes no memory.
    pub fn new(
        alloc: Global,
        schema: &'s Schema,
        document: &'doc ExecutableDocument,
        work: Option<usize>,
    ) -> BoundedMerging<'s, 'doc>
        ensures schema { schema_of (merger_of result) ≡ schema.now }
        ensures document { document_of (merger_of result) ≡ document.now }
        ensures operations { (merging_of (merger_of result)).operations ≡ [] }
        ensures conflicting { IsFalse (merging_of (merger_of result)).conflicting }
        ensures too_deep { IsFalse (merging_of (merger_of result)).too_deep }
        ensures refused { IsFalse (has_refused (merger_of result)) }
        ensures interrupted { IsFalse (is_interrupted result) }
        ensures unbounded { work ≡ None → HasNoBound result }
        ensures left { left_within result ≡ work }
        ensures sound { IsSoundWithin result }
    {
        BoundedMerging {
            merging: FieldsInSetCanMerge::new(alloc, schema, document),
            work: Work::new(work),
            interrupted: false,
        }
    }

    /// Merges the fields of an operation as `FieldsInSetCanMerge::validate_operation` does, and answers whether the
    /// operation was decided: it was, unless more was gone through and compared for the operations so far than the bound
    /// allows. Without a bound each operation is decided.
    ///
    /// If it was not decided, each report is true of two chains of fields of the operation, and no limit is reported. No later
    /// operation is decided then, and the calls report nothing of them.
    ///
    /// The only error is a failed allocation. In any case the old diagnostics stay, and each further one is true,
    /// of a value that is sound, as all are that `new` and these calls make.
    ///
    /// `validate_operation_in_steps`, which this calls, bounds the number of steps.
    ///
    /// Specification: 5.3.2 Field Selection Merging.
    pub fn validate_operation(
        &mut self,
        operation: &'doc Node<Operation>,
        diagnostics: &mut DiagnosticList,
    ) -> Result<bool, ValidationError>
        ensures schema { schema_of (merger_of self.new) ≡ schema_of (merger_of self.old) }
        ensures document { document_of (merger_of self.new) ≡ document_of (merger_of self.old) }
        ensures decided { IfOk result (λ decided. IsTrue decided → IsFalse (is_interrupted self.new) × IsFalse (has_refused (merger_of self.new)) ×
            MergesOneMore (schema_of (merger_of self.old)) operation.now (merging_of (merger_of self.old)) (merging_of (merger_of self.new))
            (entries diagnostics.old) (entries diagnostics.new)) }
        ensures interrupted { IfOk result (λ decided. IsFalse decided → IsTrue (is_interrupted self.new) × KeepsReports
            (λ e. MergingReport (schema_of (merger_of self.old)) (fragments_of (document_of (merger_of self.old))) operation.now.value.value.selection_set e.details e.location)
            (entries diagnostics.old) (entries diagnostics.new)) }
        ensures stays { IsTrue (is_interrupted self.old) → IfOk result (λ decided. IsFalse decided) × (entries diagnostics.new ≡ entries diagnostics.old) }
        ensures unbounded { HasNoBound self.old → HasNoBound self.new × (IsFalse (is_interrupted self.old) → IfOk result (λ decided. IsTrue decided)) }
        ensures sound { IsSoundWithin self.old → IsSoundWithin self.new }
        ensures truth { IsSoundWithin self.old → KeepsReports
            (λ e. MergingReport (schema_of (merger_of self.old)) (fragments_of (document_of (merger_of self.old))) operation.now.value.value.selection_set e.details e.location ⊎
            MergingLimit (schema_of (merger_of self.old)) (fragments_of (document_of (merger_of self.old))) (merging_of (merger_of self.old)).operations operation.now e.details e.location)
            (entries diagnostics.old) (entries diagnostics.new) }
    {
        self.validate_operation_uncounted::<Brand>(operation, diagnostics, Blank::new(1))
    }

    /// Merges the fields of an operation with a counter of steps that nobody reads.
    fn validate_operation_uncounted<L: Ledger>(
        &mut self,
        operation: &'doc Node<Operation>,
        diagnostics: &mut DiagnosticList,
        blank: Blank,
    ) -> Result<bool, ValidationError>
        requires name { blank.name ≡ L.name }
        requires parts { blank.parts ≡ L.parts }
        requires some { 0 < blank.parts }
        ensures schema { schema_of (merger_of self.new) ≡ schema_of (merger_of self.old) }
        ensures document { document_of (merger_of self.new) ≡ document_of (merger_of self.old) }
        ensures decided { IfOk result (λ decided. IsTrue decided → IsFalse (is_interrupted self.new) × IsFalse (has_refused (merger_of self.new)) ×
            MergesOneMore (schema_of (merger_of self.old)) operation.now (merging_of (merger_of self.old)) (merging_of (merger_of self.new))
            (entries diagnostics.old) (entries diagnostics.new)) }
        ensures interrupted { IfOk result (λ decided. IsFalse decided → IsTrue (is_interrupted self.new) × KeepsReports
            (λ e. MergingReport (schema_of (merger_of self.old)) (fragments_of (document_of (merger_of self.old))) operation.now.value.value.selection_set e.details e.location)
            (entries diagnostics.old) (entries diagnostics.new)) }
        ensures stays { IsTrue (is_interrupted self.old) → IfOk result (λ decided. IsFalse decided) × (entries diagnostics.new ≡ entries diagnostics.old) }
        ensures unbounded { HasNoBound self.old → HasNoBound self.new × (IsFalse (is_interrupted self.old) → IfOk result (λ decided. IsTrue decided)) }
        ensures sound { IsSoundWithin self.old → IsSoundWithin self.new }
        ensures truth { IsSoundWithin self.old → KeepsReports
            (λ e. MergingReport (schema_of (merger_of self.old)) (fragments_of (document_of (merger_of self.old))) operation.now.value.value.selection_set e.details e.location ⊎
            MergingLimit (schema_of (merger_of self.old)) (fragments_of (document_of (merger_of self.old))) (merging_of (merger_of self.old)).operations operation.now e.details e.location)
            (entries diagnostics.old) (entries diagnostics.new) }
    {
        let mut steps = Steps::<L>::new(blank);
        self.validate_operation_in_steps(operation, diagnostics, &mut steps)
    }

    /// Does what `validate_operation` does, and counts its steps: with a bound, at most 26 for each unit of work that it counts, and
    /// two more. A step is a selection or a set that it goes past, a field that it looks up, puts into a group, copies or compares, a
    /// group, or an argument that it compares. Numbering the contents of the operation takes no steps.
    ///
    /// Specification: 5.3.2 Field Selection Merging.
    pub fn validate_operation_in_steps<L: Ledger>(
        &mut self,
        operation: &'doc Node<Operation>,
        diagnostics: &mut DiagnosticList,
        steps: &mut Steps<L>,
    ) -> Result<bool, ValidationError>
        ensures schema { schema_of (merger_of self.new) ≡ schema_of (merger_of self.old) }
        ensures document { document_of (merger_of self.new) ≡ document_of (merger_of self.old) }
        ensures decided { IfOk result (λ decided. IsTrue decided → IsFalse (is_interrupted self.new) × IsFalse (has_refused (merger_of self.new)) ×
            MergesOneMore (schema_of (merger_of self.old)) operation.now (merging_of (merger_of self.old)) (merging_of (merger_of self.new))
            (entries diagnostics.old) (entries diagnostics.new)) }
        ensures interrupted { IfOk result (λ decided. IsFalse decided → IsTrue (is_interrupted self.new) × KeepsReports
            (λ e. MergingReport (schema_of (merger_of self.old)) (fragments_of (document_of (merger_of self.old))) operation.now.value.value.selection_set e.details e.location)
            (entries diagnostics.old) (entries diagnostics.new)) }
        ensures stays { IsTrue (is_interrupted self.old) → IfOk result (λ decided. IsFalse decided) × (entries diagnostics.new ≡ entries diagnostics.old) }
        ensures unbounded { HasNoBound self.old → HasNoBound self.new × (IsFalse (is_interrupted self.old) → IfOk result (λ decided. IsTrue decided)) }
        ensures sound { IsSoundWithin self.old → IsSoundWithin self.new }
        ensures truth { IsSoundWithin self.old → KeepsReports
            (λ e. MergingReport (schema_of (merger_of self.old)) (fragments_of (document_of (merger_of self.old))) operation.now.value.value.selection_set e.details e.location ⊎
            MergingLimit (schema_of (merger_of self.old)) (fragments_of (document_of (merger_of self.old))) (merging_of (merger_of self.old)).operations operation.now e.details e.location)
            (entries diagnostics.old) (entries diagnostics.new) }
        ensures cost { PaysWithin self.old self.new steps.old steps.new 2 }
    {
        if self.interrupted {
            return Ok(false);
        }
        let decided = self
            .merging
            .validate_operation_within(operation, diagnostics, &mut self.work, steps)?;
        self.interrupted = !decided;
        Ok(decided)
    }
}
