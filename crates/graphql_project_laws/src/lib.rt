//! Laws of projects: what holds of a document holds operation by operation, and a project of one file holds exactly if its text is a
//! valid document.
//!
//! Each function here does nothing. Its contract is the law.
#![tactic(auto)]

pub mod documents;
pub mod projects;
