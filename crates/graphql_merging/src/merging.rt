ghost use Rattle.graphql_contents.specs.Documents.{contents_in};
ghost use Rattle.graphql_merging.specs.Tables.{IsExaminedIn};

use super::examined::Examined;
use super::groups::Pass;
use super::passes::MergingPass;
use super::work::{Interruption, Work};
use graphql_contents::{NumberedDocument, NumberedSet};
use graphql_diagnostics::{Details, DiagnosticList};
use graphql_documents::documents::{ExecutableDocument, Operation, Schema};
use graphql_guards::LimitCounter;
use graphql_nodes::{Node, RecursionLimitError, ValidationError};
use graphql_steps::Steps;
use std::alloc::Global;
use std::marker::Brand;
use std::sync::ledger::{Blank, Ledger};

/// How deep fields may be merged.
const FIELD_DEPTH_LIMIT: usize = 128;

/// Decides of the operations of a document, one after another, whether all fields that come together in
/// a response agree. It keeps which lists of fields were examined, so that each is examined once for all
/// operations.
///
/// Specification: 5.3.2 Field Selection Merging.
#[derive(Drop)]
pub struct FieldsInSetCanMerge<'s, 'doc> {
    schema: &'s Schema,
    numbered: NumberedDocument<'doc>,
    operations: Vec<&'doc Node<Operation>>,
    shapes: Examined<'doc>,
    fields: Examined<'doc>,
    conflicting: bool,
    too_deep: bool,
    refused: bool,
    ghost shapes_are: { IsExaminedIn (contents_in numbered) shapes },
    ghost fields_are: { IsExaminedIn (contents_in numbered) fields },
}

impl<'s, 'doc> FieldsInSetCanMerge<'s, 'doc> {
    ghost use Rattle.std.specs.Prelude.{◌≡◌, ◌<◌, ◌⊎◌, ◌++◌, ◌∷◌, [], IfErr, IfOk, IsErr, IsErrOf, IsFalse, IsTrue, OnErr, OnOk, is_err, sum_by};
    ghost use Rattle.graphql_diagnostics.specs.Diagnostics.{IsLimitEntry, entries};
    ghost use Rattle.graphql_specification.specs.Merging.{shape_pass, MergingReport};
    ghost use Rattle.graphql_specification.specs.MergedSets.{MergingLimit, comparisons_of};
    ghost use Rattle.graphql_diagnostics.specs.Reports.{Appends, KeepsReports};
    ghost use Rattle.graphql_documents.specs.Selections.{fragments_of};
    ghost use Rattle.graphql_merging.specs.MergedOperations.{AreLimits, ExaminesInBoth, HasMerged, MergesOneMore};
    ghost use Rattle.graphql_merging.specs.Mergers.{IsSound, document_of, has_refused, merging_of, schema_of};
    ghost use Rattle.graphql_merging.specs.Passes.{counted};
    ghost use Rattle.graphql_merging.specs.Works.{IsUnbounded, Pays};
    ghost use Rattle.graphql_merging.specs.declared.work.Interruption.TheVariants.{OutOfMemory, OutOfWork};

    /// No operation was merged yet. It takes no memory.
    pub fn new(
        alloc: Global,
        schema: &'s Schema,
        document: &'doc ExecutableDocument,
    ) -> FieldsInSetCanMerge<'s, 'doc>
        ensures schema { schema_of result ≡ schema.now }
        ensures document { document_of result ≡ document.now }
        ensures operations { (merging_of result).operations ≡ [] }
        ensures conflicting { IsFalse (merging_of result).conflicting }
        ensures too_deep { IsFalse (merging_of result).too_deep }
        ensures refused { IsFalse (has_refused result) }
        ensures sound { IsSound result }
    {
        FieldsInSetCanMerge {
            schema,
            numbered: NumberedDocument::new(alloc, document),
            operations: Vec::new(alloc),
            shapes: Examined::new(alloc, document.hash_seed()),
            fields: Examined::new(alloc, document.hash_seed()),
            conflicting: false,
            too_deep: false,
            refused: false,
        }
    }

    /// Merges the fields of an operation: all that come together in a response must have one shape, and,
    /// where their parents may overlap, be one field with the same arguments.
    ///
    /// Reports come in this order: the fields whose shapes differ, then those whose names or arguments
    /// do, each list of fields group by group, and each field that does not agree with the first of its
    /// group at that field; last, at the operation, that this operation or an earlier one nests fields
    /// too deep. Lists of fields that were examined for an earlier operation are not examined again.
    ///
    /// The only error is that memory is refused. After it each later call answers the same and reports nothing.
    /// In any case the old diagnostics stay, and each further one is true of two chains of fields of the operation,
    /// or is one of the limit; that one is true too of a value that is sound, as all are that `new` and these
    /// calls make.
    ///
    /// Specification: 5.3.2 Field Selection Merging.
    pub fn validate_operation(
        &mut self,
        operation: &'doc Node<Operation>,
        diagnostics: &mut DiagnosticList,
    ) -> Result<(), ValidationError>
        ensures schema { schema_of self.new ≡ schema_of self.old }
        ensures document { document_of self.new ≡ document_of self.old }
        ensures refused { has_refused self.new ≡ is_err result }
        ensures reports { KeepsReports
            (λ e. MergingReport (schema_of self.old) (fragments_of (document_of self.old)) operation.now.value.value.selection_set e.details e.location ⊎ IsLimitEntry e)
            (entries diagnostics.old) (entries diagnostics.new) }
        ensures stays { IsTrue (has_refused self.old) → IsErr result × (entries diagnostics.new ≡ entries diagnostics.old) }
        ensures merges { OnOk result (MergesOneMore (schema_of self.old) operation.now (merging_of self.old) (merging_of self.new) (entries diagnostics.old) (entries diagnostics.new)) }
        ensures sound { IsSound self.old → IsSound self.new }
        ensures truth { IsSound self.old → KeepsReports
            (λ e. MergingReport (schema_of self.old) (fragments_of (document_of self.old)) operation.now.value.value.selection_set e.details e.location ⊎
            MergingLimit (schema_of self.old) (fragments_of (document_of self.old)) (merging_of self.old).operations operation.now e.details e.location)
            (entries diagnostics.old) (entries diagnostics.new) }
    {
        self.validate_operation_uncounted::<Brand>(operation, diagnostics, Blank::new(1))
    }

    /// Validates an operation with a counter of steps that nobody reads.
    fn validate_operation_uncounted<L: Ledger>(
        &mut self,
        operation: &'doc Node<Operation>,
        diagnostics: &mut DiagnosticList,
        blank: Blank,
    ) -> Result<(), ValidationError>
        requires name { blank.name ≡ L.name }
        requires parts { blank.parts ≡ L.parts }
        requires some { 0 < blank.parts }
        ensures schema { schema_of self.new ≡ schema_of self.old }
        ensures document { document_of self.new ≡ document_of self.old }
        ensures refused { has_refused self.new ≡ is_err result }
        ensures reports { KeepsReports
            (λ e. MergingReport (schema_of self.old) (fragments_of (document_of self.old)) operation.now.value.value.selection_set e.details e.location ⊎ IsLimitEntry e)
            (entries diagnostics.old) (entries diagnostics.new) }
        ensures stays { IsTrue (has_refused self.old) → IsErr result × (entries diagnostics.new ≡ entries diagnostics.old) }
        ensures merges { OnOk result (MergesOneMore (schema_of self.old) operation.now (merging_of self.old) (merging_of self.new) (entries diagnostics.old) (entries diagnostics.new)) }
        ensures sound { IsSound self.old → IsSound self.new }
        ensures truth { IsSound self.old → KeepsReports
            (λ e. MergingReport (schema_of self.old) (fragments_of (document_of self.old)) operation.now.value.value.selection_set e.details e.location ⊎
            MergingLimit (schema_of self.old) (fragments_of (document_of self.old)) (merging_of self.old).operations operation.now e.details e.location)
            (entries diagnostics.old) (entries diagnostics.new) }
    {
        let mut steps = Steps::<L>::new(blank);
        let mut work = Work::new(None);
        self.validate_operation_within(operation, diagnostics, &mut work, &mut steps)?;
        Ok(())
    }

    /// Validates an operation as `validate_operation` does, and answers whether it was decided: it was, unless more was gone
    /// through or compared than the work allows. If it was not decided, each report is true of two chains of fields of the
    /// operation, and the lists that were examined say nothing of further operations.
    pub(crate) fn validate_operation_within<L: Ledger>(
        &mut self,
        operation: &'doc Node<Operation>,
        diagnostics: &mut DiagnosticList,
        work: &mut Work,
        steps: &mut Steps<L>,
    ) -> Result<bool, ValidationError>
        ensures schema { schema_of self.new ≡ schema_of self.old }
        ensures document { document_of self.new ≡ document_of self.old }
        ensures refused { has_refused self.new ≡ is_err result }
        ensures reports { KeepsReports
            (λ e. MergingReport (schema_of self.old) (fragments_of (document_of self.old)) operation.now.value.value.selection_set e.details e.location ⊎ IsLimitEntry e)
            (entries diagnostics.old) (entries diagnostics.new) }
        ensures stays { IsTrue (has_refused self.old) → IsErr result × (entries diagnostics.new ≡ entries diagnostics.old) }
        ensures merges { IfOk result (λ decided. IsTrue decided →
            MergesOneMore (schema_of self.old) operation.now (merging_of self.old) (merging_of self.new) (entries diagnostics.old) (entries diagnostics.new)) }
        ensures interrupted { IfOk result (λ decided. IsFalse decided → KeepsReports
            (λ e. MergingReport (schema_of self.old) (fragments_of (document_of self.old)) operation.now.value.value.selection_set e.details e.location)
            (entries diagnostics.old) (entries diagnostics.new)) }
        ensures unbounded { IsUnbounded work.old → IsUnbounded work.new × IfOk result (λ decided. IsTrue decided) }
        ensures sound { IsSound self.old → IfOk result (λ decided. IsTrue decided → IsSound self.new) }
        ensures truth { IsSound self.old → KeepsReports
            (λ e. MergingReport (schema_of self.old) (fragments_of (document_of self.old)) operation.now.value.value.selection_set e.details e.location ⊎
            MergingLimit (schema_of self.old) (fragments_of (document_of self.old)) (merging_of self.old).operations operation.now e.details e.location)
            (entries diagnostics.old) (entries diagnostics.new) }
        ensures cost { Pays work.old work.new steps.old steps.new 2 }
    {
        if self.refused {
            return Err(ValidationError::OutOfMemory);
        }
        match self.merge_operation(operation, diagnostics, work, steps) {
            Ok(()) => Ok(true),
            Err(Interruption::OutOfWork) => Ok(false),
            Err(Interruption::OutOfMemory) => {
                self.refused = true;
                Err(ValidationError::OutOfMemory)
            }
        }
    }

    /// How often two shapes were compared; it stays at the greatest `u64`. It takes no memory.
    pub fn shape_comparisons(&self) -> u64
        ensures count { result ≡ (merging_of self.now).comparisons }
        ensures lists { IsSound self.now → IsFalse (has_refused self.now) → result ≡ counted shape_pass 0 (sum_by comparisons_of (merging_of self.now).shapes) }
    {
        self.shapes.comparisons
    }

    /// Merges the fields of an operation, pass by pass.
    fn merge_operation<L: Ledger>(
        &mut self,
        operation: &'doc Node<Operation>,
        diagnostics: &mut DiagnosticList,
        work: &mut Work,
        steps: &mut Steps<L>,
    ) -> Result<(), Interruption>
        ensures schema { schema_of self.new ≡ schema_of self.old }
        ensures document { document_of self.new ≡ document_of self.old }
        ensures refused { has_refused self.new ≡ has_refused self.old }
        ensures unbounded { IsUnbounded work.old → IsUnbounded work.new × IfErr result (λ e. e ≡ OutOfMemory) }
        ensures interrupted { IsErrOf result OutOfWork → KeepsReports
            (λ e. MergingReport (schema_of self.old) (fragments_of (document_of self.old)) operation.now.value.value.selection_set e.details e.location)
            (entries diagnostics.old) (entries diagnostics.new) }
        ensures reports { KeepsReports
            (λ e. MergingReport (schema_of self.old) (fragments_of (document_of self.old)) operation.now.value.value.selection_set e.details e.location ⊎ IsLimitEntry e)
            (entries diagnostics.old) (entries diagnostics.new) }
        ensures merges { OnOk result (MergesOneMore (schema_of self.old) operation.now (merging_of self.old) (merging_of self.new) (entries diagnostics.old) (entries diagnostics.new)) }
        ensures merged { OnOk result (HasMerged (schema_of self.old) (fragments_of (document_of self.old)) (merging_of self.old) →
            HasMerged (schema_of self.old) (fragments_of (document_of self.old)) (merging_of self.new)) }
        ensures truth { HasMerged (schema_of self.old) (fragments_of (document_of self.old)) (merging_of self.old) → KeepsReports
            (λ e. MergingReport (schema_of self.old) (fragments_of (document_of self.old)) operation.now.value.value.selection_set e.details e.location ⊎
            MergingLimit (schema_of self.old) (fragments_of (document_of self.old)) (merging_of self.old).operations operation.now e.details e.location)
            (entries diagnostics.old) (entries diagnostics.new) }
        ensures cost { Pays work.old work.new steps.old steps.new 2 }
    {
        self.operations.push(operation)?;
        let reports = diagnostics.len();
        let deep = self.examine_operation(operation, diagnostics, work, steps)?;
        self.conflicting |= diagnostics.len() > reports;
        self.too_deep |= deep;
        self.report_limit(operation, diagnostics)?;
        Ok(())
    }

    /// Reports at the operation that fields nest too deep, if they do.
    fn report_limit(
        &self,
        operation: &Node<Operation>,
        diagnostics: &mut DiagnosticList,
    ) -> Result<(), ValidationError>
        ensures limits { OnOk result (Appends (AreLimits operation.now (merging_of self.now).too_deep) (entries diagnostics.old) (entries diagnostics.new)) }
        ensures err { OnErr result (entries diagnostics.new ≡ entries diagnostics.old) }
    {
        if self.too_deep {
            diagnostics.push(
                operation.location,
                Details::RecursionLimit(RecursionLimitError),
            )?;
        }
        Ok(())
    }

    /// Examines the fields of an operation in both passes, and answers whether they nest too deep.
    #[tactic(auto, using(crate::proofs::NumberedExaminedLemmas::grown_examined))]
    fn examine_operation<L: Ledger>(
        &mut self,
        operation: &'doc Node<Operation>,
        diagnostics: &mut DiagnosticList,
        work: &mut Work,
        steps: &mut Steps<L>,
    ) -> Result<bool, Interruption>
        ensures schema { schema_of self.new ≡ schema_of self.old }
        ensures document { document_of self.new ≡ document_of self.old }
        ensures operations { (merging_of self.new).operations ≡ (merging_of self.old).operations }
        ensures conflicting { (merging_of self.new).conflicting ≡ (merging_of self.old).conflicting }
        ensures too_deep { (merging_of self.new).too_deep ≡ (merging_of self.old).too_deep }
        ensures refused { has_refused self.new ≡ has_refused self.old }
        ensures unbounded { IsUnbounded work.old → IsUnbounded work.new × IfErr result (λ e. e ≡ OutOfMemory) }
        ensures examines { IfOk result (λ deep. ExaminesInBoth (schema_of self.old) (fragments_of (document_of self.old)) operation.now.value.value.selection_set
            (merging_of self.old).shapes (merging_of self.new).shapes (merging_of self.old).fields (merging_of self.new).fields
            (merging_of self.old).comparisons (merging_of self.new).comparisons (entries diagnostics.old) (entries diagnostics.new) deep) }
        ensures truth { KeepsReports (λ e. MergingReport (schema_of self.old) (fragments_of (document_of self.old)) operation.now.value.value.selection_set e.details e.location)
            (entries diagnostics.old) (entries diagnostics.new) }
        ensures cost { Pays work.old work.new steps.old steps.new 2 }
    {
        let set = &operation.value.selection_set;
        let contents = self
            .numbered
            .number_operation(diagnostics.allocator(), set)?;
        let set = NumberedSet {
            set,
            contents: &contents,
        };
        let mut depth = LimitCounter::new(FIELD_DEPTH_LIMIT);
        let shapes = MergingPass {
            schema: self.schema,
            numbered: &self.numbered,
            pass: Pass::Shapes,
        };
        shapes.examine_set(diagnostics, &mut self.shapes, &mut depth, work, steps, set)?;
        let fields = MergingPass {
            schema: self.schema,
            numbered: &self.numbered,
            pass: Pass::NamesAndArguments,
        };
        fields.examine_set(diagnostics, &mut self.fields, &mut depth, work, steps, set)?;
        Ok(depth.high() > FIELD_DEPTH_LIMIT)
    }
}
