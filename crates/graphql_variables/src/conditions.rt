//! The conditions under which a selection is left out, and the arguments of directives that they go by.

ghost use Rattle.std.specs.Option.{option_copied};
ghost use Rattle.std.specs.Prelude.{◌≡◌};
ghost use Rattle.graphql_documents.specs.Directives.{argument_value, is_boolean, is_literally, may_exclude};
ghost use Rattle.graphql_documents.specs.Selections.{can_be_excluded, directives_of};

use graphql_documents::documents::{Directive, Selection, Value};
use graphql_nodes::Node;

/// The name of the directive that leaves a selection out where its argument `if` is true.
pub const SKIP_DIRECTIVE_NAME: &str = "skip";

/// The name of the directive that leaves a selection out where its argument `if` is false.
pub const INCLUDE_DIRECTIVE_NAME: &str = "include";

/// Whether the conditions of a selection may leave it out: it has `@skip` whose `if` is not literally
/// `false`, or `@include` whose `if` is not literally `true`. What is around the selection does not matter.
///
/// Specification: 3.13.1 @skip; 3.13.2 @include.
pub fn can_be_excluded(selection: &Selection) -> bool
    ensures { result ≡ can_be_excluded selection.now }
{
    directives_of(selection)
        .iter()
        .any(|directive| may_exclude(&directive.value))
}

/// The directives of a selection of any kind.
///
/// Specification: 2.12 Directives.
pub fn directives_of(selection: &Selection) -> &[Node<Directive>]
    ensures { result.now ≡ directives_of selection.now }
{
    match selection {
        Selection::Field(field) => &field.value.directives,
        Selection::FragmentSpread(spread) => &spread.value.directives,
        Selection::InlineFragment(fragment) => &fragment.value.directives,
    }
}

/// The value of the first argument of a directive with this name.
///
/// Specification: 2.6 Arguments.
pub fn argument_value<'a>(directive: &'a Directive, name: &str) -> Option<&'a Node<Value>>
    ensures { option_copied result ≡ argument_value name.now directive.now }
{
    let argument = directive
        .arguments
        .iter()
        .find(|argument| argument.value.name.as_str() == name)?;
    Some(&argument.value.value)
}

/// Whether the argument `if` of a directive is this truth value, as written: a variable is none.
///
/// Specification: 3.13.1 @skip; 3.13.2 @include.
pub fn is_literally(expected: bool, directive: &Directive) -> bool
    ensures { result ≡ is_literally expected directive.now }
{
    match argument_value(directive, "if") {
        Some(value) => is_boolean(expected, &value.value),
        None => false,
    }
}

/// Whether a value is this truth value.
fn is_boolean(expected: bool, value: &Value) -> bool
    ensures { result ≡ is_boolean expected value.now }
{
    match value {
        Value::Boolean(given) => *given == expected,
        _ => false,
    }
}

/// Whether a directive may leave its selection out.
fn may_exclude(directive: &Directive) -> bool
    ensures { result ≡ may_exclude directive.now }
{
    let name = directive.name.as_str();
    (name == SKIP_DIRECTIVE_NAME && !is_literally(false, directive))
        || (name == INCLUDE_DIRECTIVE_NAME && !is_literally(true, directive))
}
