ghost use Rattle.std.specs.Prelude.{Some};
ghost use Rattle.graphql_diagnostics.specs.BuildErrorMessages.{counted_message};
ghost use Rattle.graphql_diagnostics.specs.Messages.{details_text};

use super::build_error_messages::BuildErrorMessage;
use super::build_errors::BuildError;
use super::data::DiagnosticData;
use graphql_nodes::RecursionLimitError;
use std::fmt;

/// What a diagnostic is about.
#[derive(Debug, Drop, PartialEq, Eq)]
pub enum Details {
    /// A rule of validation is broken.
    Diagnostic(DiagnosticData),
    /// A rule of subscriptions, of `@defer` or of merging fields is broken.
    Build(BuildError),
    /// A walk over the whole document passed its limit.
    RecursionLimit(RecursionLimitError),
}

/// The message, or the name of what has none.
impl fmt::Display for Details {
    ghost output = { λ details. Some (details_text details) };

    fn fmt<W: fmt::Write>(&self, f: &mut fmt::Formatter<W>) -> fmt::Result {
        match self {
            Details::Diagnostic(data) => write!(f, "{data}"),
            Details::Build(error) => write!(f, "{error}"),
            Details::RecursionLimit(_) => write!(f, "RecursionLimitError"),
        }
    }
}

/// What counts of a diagnostic where a list has a bound: its message, and of what has none the one that texts are shown.
#[derive(Clone, Copy)]
pub(crate) struct CountedMessage<'a>(pub(crate) &'a Details);

impl fmt::Display for CountedMessage<'_> {
    ghost output = { λ counted. Some (counted_message counted.0.now) };

    fn fmt<W: fmt::Write>(&self, f: &mut fmt::Formatter<W>) -> fmt::Result {
        match self.0 {
            Details::Diagnostic(data) => write!(f, "{data}"),
            Details::Build(error) => {
                let message = BuildErrorMessage(error);
                write!(f, "{message}")
            }
            Details::RecursionLimit(_) => write!(f, "RecursionLimitError"),
        }
    }
}
