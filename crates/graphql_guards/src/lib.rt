//! How far a walk has come: the names on its path, its depth, and counts up to a limit.
#![tactic(auto)]

pub mod depth;
pub mod limits;
pub mod recursion;

pub use depth::{DepthCounter, DepthGuard};
pub use limits::LimitCounter;
pub use recursion::{CycleError, RecursionGuard, RecursionStack};

/// How many names a path may hold, and how deep a walk may go, unless it is set.
pub const DEFAULT_RECURSION_LIMIT: usize = 32;
