//! Fragments of several documents, each under its name, and the document of one operation with those of them that it reaches. Nodes
//! are shared: nothing is built anew.
#![tactic(auto)]

pub mod fragments;
pub mod operations;
pub mod uses;

pub use fragments::{borrow_fragments, pool_of};
pub use operations::document_of;
pub use uses::{Used, note_uses};
