//! Numbers for what selections hold. The contents of each selection of a document are compared once, from the innermost
//! selections up, and are known by their number from then on.
#![tactic(auto)]

mod contents;
mod documents;
mod written;

pub use documents::{NumberedDocument, NumberedSet};
