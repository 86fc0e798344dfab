//! What a run keeps for the next one, so that this one validates again only what a change may affect.
//!
//! The next run takes the schema if its texts and its dialect are the same, and compares the texts of the documents with those of the last run.
//! What is reported of an operation depends on its file and on the fragments that it reaches (`operation_is_reported_by_reached`), and that a fragment is
//! unused on the operations that reach it. So these files are validated again, with the fragments that they reach in others:
//!
//! - those that changed
//! - those with a fragment that an operation reaches now and did not before, or the other way around
//! - those that spread a fragment of one of these, or did before, also over others
//!
//! The lists of reports of the other files are those of the last run. The whole run is repeated:
//!
//! - if the schema changes
//! - if the number of texts changes, or which of them are judged; if the limits change
//! - if a file or a folder cannot be read, or a literal of a program is skipped: then reports are withheld
//! - if a text is no document, a definition cannot be built, or two fragments have one name: then reports on other files are withheld
//! - if labels of `@defer` or input fields repeat in the definitions of a file together: such a list does not say of which file it is
//! - for documents that are validated alone, or as one document
//!
//! What is kept of the documents is that of the last run without such a case, so a run after the fault was mended validates only a part again.
#![tactic(auto)]

mod graphs;
mod kept;
mod links;
mod lists;
mod projects;
mod runs;
mod schemas;

pub use kept::{Kept, Repeated};
pub use projects::Part;
pub use runs::KeptRuns;
