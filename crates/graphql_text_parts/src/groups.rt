//! Groups of parts that follow one another.

use std::alloc::{AllocError, Global};

/// As many groups there are at first, at most.
const MOST_GROUPS: usize = 32;

/// Parts that follow one another: from this one up to that, by their numbers.
#[derive(Clone, Copy)]
pub(crate) struct Group {
    pub first: usize,
    pub end: usize,
}

impl Group {
    /// Whether it has one part alone.
    pub(crate) fn is_single(self) -> bool {
        self.end.saturating_sub(self.first) <= 1
    }

    /// Splits the group into its first and its second half.
    pub(crate) fn halves(self) -> (Group, Group) {
        let middle = self
            .first
            .saturating_add(self.end.saturating_sub(self.first) / 2);
        let first = Group {
            first: self.first,
            end: middle,
        };
        let second = Group {
            first: middle,
            end: self.end,
        };
        (first, second)
    }
}

/// So many parts in groups of one size, the last group first.
pub(crate) fn first_groups(alloc: Global, parts: usize) -> Result<Vec<Group>, AllocError> {
    let size = (parts / MOST_GROUPS).saturating_add(1);
    let mut groups = Vec::new(alloc);
    let mut end = parts;
    for _ in 0..MOST_GROUPS {
        if end == 0 {
            break;
        }
        let first = end.saturating_sub(size);
        groups.push(Group { first, end })?;
        end = first;
    }
    Ok(groups)
}
