//! How much a merger may still examine, and why a walk over lists of fields is interrupted.

ghost use Rattle.std.specs.Prelude.{◌≤◌, length};

use super::groups::Pass;
use super::numbered_fields::NumberedField;
use graphql_documents::documents::Argument;
use graphql_nodes::{Node, SourceSpan, ValidationError};
use graphql_steps::Steps;
use std::alloc::{AllocError, AllocFailed};
use std::sync::ledger::Ledger;

/// Why a walk over lists of fields does not come to its end.
#[derive(Clone, Copy, Debug, PartialEq, Eq)]
pub(crate) enum Interruption {
    /// An allocation failed.
    OutOfMemory,
    /// More was gone through or compared than the work allows.
    OutOfWork,
}

impl From<ValidationError> for Interruption {
    ghost use Rattle.std.specs.Prelude.{◌≡◌};
    ghost use Rattle.graphql_merging.specs.declared.work.Interruption.TheVariants.{OutOfMemory};

    ghost from_gives = { λ _ interruption. interruption ≡ OutOfMemory };

    fn from(_refusal: ValidationError) -> Interruption {
        Interruption::OutOfMemory
    }
}

impl<T: Drop> From<AllocFailed<T>> for Interruption {
    ghost use Rattle.std.specs.Prelude.{◌≡◌};
    ghost use Rattle.graphql_merging.specs.declared.work.Interruption.TheVariants.{OutOfMemory};

    ghost from_gives = { λ _ interruption. interruption ≡ OutOfMemory };

    fn from(_refusal: AllocFailed<T>) -> Interruption {
        Interruption::OutOfMemory
    }
}

impl From<AllocError> for Interruption {
    ghost use Rattle.std.specs.Prelude.{◌≡◌};
    ghost use Rattle.graphql_merging.specs.declared.work.Interruption.TheVariants.{OutOfMemory};

    ghost from_gives = { λ _ interruption. interruption ≡ OutOfMemory };

    fn from(_refusal: AllocError) -> Interruption {
        Interruption::OutOfMemory
    }
}

/// How much may still be gone through and compared, if it is bounded. Each selection that is gone past is one unit of work, each
/// field that is copied into the group of an object type, each argument that is compared, and each four bytes of it: no entry of
/// an object is written in fewer.
#[derive(Clone, Copy, Debug)]
pub(crate) struct Work {
    left: Option<usize>,
}

impl Work {
    ghost use Rattle.std.specs.Prelude.{◌≡◌, ◌≤◌, ◌+◌, IfErr, None, OnOk, length, sum_by};
    ghost use Rattle.graphql_merging.specs.NumberedFields.{listed, lists_of};
    ghost use Rattle.graphql_merging.specs.Works.{IsUnbounded, Spends, arguments_compared, compared_in, weight};
    ghost use Rattle.graphql_merging.specs.declared.groups.Pass.TheVariants.{NamesAndArguments};
    ghost use Rattle.graphql_merging.specs.declared.work.Interruption.TheVariants.{OutOfMemory};

    /// So much may be gone through and compared, or anything.
    pub(crate) fn new(bound: Option<usize>) -> Work
        ensures unbounded { bound ≡ None → IsUnbounded result }
        ensures left { result.left ≡ bound }
    {
        Work { left: bound }
    }

    /// Counts so many units more. Where they are more than are left, none is left.
    pub(crate) fn count(&mut self, units: usize) -> Result<(), Interruption>
        ensures unbounded { IsUnbounded self.old → IsUnbounded self.new × IfErr result (λ e. e ≡ OutOfMemory) }
        ensures spends { OnOk result (Spends self.old self.new units) }
        ensures left { Spends self.old self.new 0 }
    {
        let Some(left) = self.left else {
            return Ok(());
        };
        if left < units {
            self.left = Some(0);
            return Err(Interruption::OutOfWork);
        }
        self.left = Some(left - units);
        Ok(())
    }

    /// Counts the arguments that are compared where fields are put together in these groups in this pass.
    pub(crate) fn count_arguments<L: Ledger>(
        &mut self,
        pass: Pass,
        groups: &[Vec<NumberedField<'_>>],
        steps: &mut Steps<L>,
    ) -> Result<(), Interruption>
        ensures unbounded { IsUnbounded self.old → IsUnbounded self.new × IfErr result (λ e. e ≡ OutOfMemory) }
        ensures spends { OnOk result (Spends self.old self.new (sum_by (compared_in pass) (lists_of groups.now))) }
        ensures left { Spends self.old self.new 0 }
        ensures steps { steps.new ≤ steps.old + weight (lists_of groups.now) }
    {
        match pass {
            Pass::Shapes => Ok(()),
            Pass::NamesAndArguments => self.count_groups(groups, steps),
        }
    }

    /// Counts the arguments that are read when the first field of each group is compared with each other one.
    fn count_groups<L: Ledger>(
        &mut self,
        groups: &[Vec<NumberedField<'_>>],
        steps: &mut Steps<L>,
    ) -> Result<(), Interruption>
        ensures unbounded { IsUnbounded self.old → IsUnbounded self.new × IfErr result (λ e. e ≡ OutOfMemory) }
        ensures spends { OnOk result (Spends self.old self.new (sum_by (compared_in NamesAndArguments) (lists_of groups.now))) }
        ensures left { Spends self.old self.new 0 }
        ensures steps { steps.new ≤ steps.old + weight (lists_of groups.now) }
    {
        if self.left.is_none() {
            return Ok(());
        }
        for group in groups {
            steps.take(1);
            self.count_group(group, steps)?;
        }
        Ok(())
    }

    /// Counts the arguments that are read when the first of these fields is compared with each other one.
    fn count_group<L: Ledger>(
        &mut self,
        group: &[NumberedField<'_>],
        steps: &mut Steps<L>,
    ) -> Result<(), Interruption>
        ensures unbounded { IsUnbounded self.old → IsUnbounded self.new × IfErr result (λ e. e ≡ OutOfMemory) }
        ensures spends { OnOk result (Spends self.old self.new (arguments_compared (listed group.now))) }
        ensures left { Spends self.old self.new 0 }
        ensures steps { steps.new ≤ steps.old + length group.now }
    {
        let Some((first, rest)) = group.split_first() else {
            return Ok(());
        };
        let of_first = units_of(&first.field.value.arguments);
        for field in rest {
            steps.take(1);
            self.count(of_first)?;
            self.count(units_of(&field.field.value.arguments))?;
        }
        Ok(())
    }
}

/// How many units reading arguments counts: one for each four bytes in which they are written, and at least one for each.
fn units_of(arguments: &[Node<Argument>]) -> usize
    ensures { length arguments.now ≤ result }
{
    (written_bytes(arguments) / 4).max(arguments.len())
}

/// In how many bytes arguments are written. Where they are in no file, each counts as four.
fn written_bytes(arguments: &[Node<Argument>]) -> usize {
    let (Some(first), Some(last)) = (arguments.first(), arguments.last()) else {
        return 0;
    };
    match SourceSpan::recompose(first.location, last.location) {
        Some(span) => span.end.saturating_sub(span.start) as usize,
        None => arguments.len().saturating_mul(4),
    }
}
