//! What definitions of the type system list: interfaces, fields, members, values and root operations.

ghost use Rattle.std.specs.Prelude.{IsFalse};
ghost use Rattle.graphql_kept_texts.specs.Faults.{HasNothing};

use crate::cuts::Cut;
use crate::faults::Faults;
use crate::rooms::{cut_part, part_at};
use graphql_blanks::Part;
use graphql_nodes::{Name, SourceSpan};
use graphql_trees::{
    EnumValueDefinition, FieldDefinition, InputValueDefinition, RootOperationTypeDefinition,
};
use std::alloc::AllocError;

/// What a definition lists.
#[derive(Clone, Copy)]
pub(crate) enum Members<'a> {
    Nothing,
    Roots(&'a [RootOperationTypeDefinition]),
    Fields(&'a [FieldDefinition]),
    InputFields(&'a [InputValueDefinition]),
    Values(&'a [EnumValueDefinition]),
    /// Names with `&` or `|` between them.
    Separated(&'a [Name]),
}

impl<'a> Members<'a> {
    /// How many they are.
    pub(crate) fn len(self) -> usize {
        match self {
            Members::Nothing => 0,
            Members::Roots(roots) => roots.len(),
            Members::Fields(fields) => fields.len(),
            Members::InputFields(fields) => fields.len(),
            Members::Values(values) => values.len(),
            Members::Separated(names) => names.len(),
        }
    }

    /// The name of the one at this position.
    fn name(self, position: usize) -> Option<&'a Name> {
        match self {
            Members::Nothing => None,
            Members::Roots(roots) => Some(&roots.get(position)?.name),
            Members::Fields(fields) => Some(&fields.get(position)?.name),
            Members::InputFields(fields) => Some(&fields.get(position)?.name),
            Members::Values(values) => Some(&values.get(position)?.name),
            Members::Separated(names) => names.get(position),
        }
    }

    /// Where the one at this position is.
    fn place(self, position: usize) -> Option<SourceSpan> {
        match self {
            Members::Nothing => None,
            Members::Roots(roots) => Some(roots.get(position)?.span),
            Members::Fields(fields) => Some(fields.get(position)?.span),
            Members::InputFields(fields) => Some(fields.get(position)?.span),
            Members::Values(values) => Some(values.get(position)?.span),
            Members::Separated(names) => names.get(position)?.location(),
        }
    }

    /// The end of the last one.
    pub(crate) fn end(self) -> Option<usize> {
        let last = self.len().checked_sub(1)?;
        Some(part_at(self.place(last)?).end)
    }

    /// What is cut of the one at this position: a name with the separator between it and the one before, or the next one if none is left
    /// before it.
    fn part(self, position: usize, keeps_one: bool) -> Option<Part> {
        let own = part_at(self.place(position)?);
        match self {
            Members::Separated(_) if keeps_one => {
                let before = self.place(position.checked_sub(1)?)?;
                Some(Part {
                    start: part_at(before).end,
                    end: own.end,
                })
            }
            Members::Separated(_) => {
                let next = self.place(position.saturating_add(1));
                Some(Part {
                    start: own.start,
                    end: next.map_or(own.end, |next| part_at(next).start),
                })
            }
            _ => Some(own),
        }
    }

    /// Whether the one at this position is at fault.
    fn is_at_fault(self, position: usize, faults: &Faults) -> bool
        ensures { HasNothing faults.now → IsFalse result }
    {
        match self.name(position) {
            Some(name) => faults.has_name(name),
            None => false,
        }
    }

    /// Whether one of them is at fault.
    pub(crate) fn has_fault(self, faults: &Faults) -> bool
        ensures { HasNothing faults.now → IsFalse result }
    {
        for position in 0..self.len() {
            if self.is_at_fault(position, faults) {
                return true;
            }
        }
        false
    }

    /// Cuts those that are at fault; if all are, this part. Whether one is left.
    pub(crate) fn cut(
        self,
        faults: &Faults,
        whole: Part,
        cuts: &mut Vec<Cut>,
    ) -> Result<bool, AllocError> {
        if self.len() == 0 {
            return Ok(false);
        }
        let before = cuts.len();
        if self.cut_each(faults, cuts)? {
            return Ok(true);
        }
        cuts.truncate(before);
        cut_part(whole, cuts)?;
        Ok(false)
    }

    /// Cuts those that are at fault. Whether one is left.
    fn cut_each(self, faults: &Faults, cuts: &mut Vec<Cut>) -> Result<bool, AllocError> {
        let mut keeps_one = false;
        for position in 0..self.len() {
            if !self.is_at_fault(position, faults) {
                keeps_one = true;
            } else if let Some(part) = self.part(position, keeps_one) {
                cut_part(part, cuts)?;
            }
        }
        Ok(keeps_one)
    }
}
