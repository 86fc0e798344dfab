//! How far a traversal has come: the names on its path, its depth, and counts up to a limit.

pub use graphql_rules::cycles::guards::{
    CycleError, DEFAULT_RECURSION_LIMIT, DepthCounter, DepthGuard, LimitCounter, RecursionGuard,
    RecursionStack,
};
