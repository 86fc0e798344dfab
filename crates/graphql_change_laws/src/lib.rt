//! What stays valid if a schema changes: if the new schema keeps documents valid (`KeepsDocumentsValid`), each document that is
//! valid against the old one is valid against it, with the same text.
//!
//! Each function here does nothing. Its contract is the law.
#![tactic(auto)]

pub mod documents;
pub mod texts;
