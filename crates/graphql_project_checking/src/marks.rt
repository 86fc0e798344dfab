//! The operations of lists of reports, list by list.

use graphql_frontend::{ListOperation, OperationMark};
use std::mem::replace;
use std::vec::IntoIter;

/// The operations that are left, and the number of the next list.
#[derive(Drop)]
pub(crate) struct Marks {
    rest: IntoIter<ListOperation>,
    next: Option<ListOperation>,
    list: usize,
}

impl Marks {
    pub(crate) fn of(operations: Vec<ListOperation>) -> Marks {
        let mut rest = operations.into_iter();
        let next = rest.next();
        Marks {
            rest,
            next,
            list: 0,
        }
    }

    /// The operation of the next list, if that is about one.
    pub(crate) fn next_mark(&mut self) -> Option<OperationMark> {
        let list = self.list;
        self.list = list.saturating_add(1);
        match &self.next {
            Some(next) if next.list == list => {}
            _ => return None,
        }
        let following = self.rest.next();
        Some(replace(&mut self.next, following)?.operation)
    }
}
