//! Laws of rules, one by one, against a schema that keeps what an older one had: a document for which a rule held, or a value,
//! passes the rule still. The crate above puts them together.
//!
//! Each function here does nothing. Its contract is the law.
#![tactic(auto)]

pub mod documents;
pub mod schemas;
pub mod texts;
pub mod values;
