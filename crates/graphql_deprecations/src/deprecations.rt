//! The directive `@deprecated` and its reason.

ghost use Rattle.std.specs.Option.{option_copied};
ghost use Rattle.std.specs.Prelude.{◌≡◌};
ghost use Rattle.graphql_deprecations.specs.Deprecations.{deprecation_in, reason_argument, reason_in, reason_of};

use graphql_documents::documents::{Argument, Directive, Value};
use graphql_nodes::Node;

/// The application of `@deprecated` among the directives of a definition; the first if there are several.
pub(crate) fn deprecation_in(directives: &[Node<Directive>]) -> Option<&Node<Directive>>
    ensures { option_copied result ≡ deprecation_in directives.now }
{
    directives
        .iter()
        .find(|d| d.value.name.as_str() == "deprecated")
}

/// The reason that an application of `@deprecated` gives, or the default if it gives no string.
pub(crate) fn reason_of(deprecation: &Directive) -> &str
    ensures { result.now ≡ reason_of deprecation.now }
{
    match reason_argument(deprecation) {
        Some(argument) => reason_in(&argument.value.value.value),
        None => "No longer supported",
    }
}

fn reason_argument(deprecation: &Directive) -> Option<&Node<Argument>>
    ensures { option_copied result ≡ reason_argument deprecation.now }
{
    deprecation
        .arguments
        .iter()
        .find(|a| a.value.name.as_str() == "reason")
}

fn reason_in(value: &Value) -> &str
    ensures { result.now ≡ reason_in value.now }
{
    match value {
        Value::String(text) => text.as_str(),
        _ => "No longer supported",
    }
}
