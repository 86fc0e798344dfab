//! What a run keeps of each of its projects.

use crate::kept::{Kept, Repeated};
use std::alloc::{AllocError, Global};
use std::collections::BTreeMap;
use std::mem::replace;

/// What a run keeps for the next one, by the positions of its projects.
#[derive(Drop)]
pub struct KeptRuns {
    /// There is a next run.
    keeps: bool,
    /// What the last run kept.
    last: BTreeMap<usize, Kept>,
    /// What this run keeps.
    next: BTreeMap<usize, Kept>,
}

impl KeptRuns {
    /// Nothing yet, and nothing later, unless there is a next run.
    pub fn new(alloc: Global, keeps: bool) -> KeptRuns {
        KeptRuns {
            keeps,
            last: BTreeMap::new(alloc),
            next: BTreeMap::new(alloc),
        }
    }

    /// What the last run kept of the project at this position.
    pub fn take(&mut self, position: usize) -> Kept {
        match self.last.remove(&position) {
            Some(kept) => kept,
            None => Kept::new(self.keeps),
        }
    }

    /// Keeps this of the project at this position.
    pub fn put(&mut self, position: usize, kept: Kept) -> Result<(), AllocError> {
        self.next.insert(position, kept)?;
        Ok(())
    }

    /// Ends a run. The answer is what it validated again of all projects, if that was not all of each.
    pub fn end(&mut self, alloc: Global) -> Option<Repeated> {
        self.last = replace(&mut self.next, BTreeMap::new(alloc));
        if self.last.is_empty() {
            return None;
        }
        let mut sum = Repeated {
            documents: 0,
            all: 0,
        };
        for kept in self.last.values() {
            let Repeated { documents, all } = kept.repeated()?;
            sum.documents = sum.documents.saturating_add(documents);
            sum.all = sum.all.saturating_add(all);
        }
        Some(sum)
    }
}
