//! Tests of what helps with a report: names that may have been meant, and what to write in texts that are no documents.

mod suggestions;
mod syntax_helps;
