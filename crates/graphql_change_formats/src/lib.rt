//! Changes of schemas as text, JSON and Markdown: what changes, where, how grave that is, and a document that shows it.
#![tactic(auto)]

pub mod json_format;
pub mod markdown_format;
pub mod shown_changes;
pub mod text_format;
pub mod verdicts;

pub use shown_changes::{ChangeTally, ComparedTexts, ShownChange};
pub use verdicts::{ChangeVerdict, verdict_of};
