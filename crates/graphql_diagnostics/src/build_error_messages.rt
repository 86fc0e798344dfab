//! The messages of what breaks a rule of subscriptions, of `@defer` or of merging fields.

ghost use Rattle.std.specs.Prelude.{◌≡◌, Some};
ghost use Rattle.graphql_diagnostics.specs.Messages.{name_or_anon_text};
ghost use Rattle.graphql_diagnostics.specs.BuildErrorMessages.{build_error_message, subscription_text};

use crate::build_errors::BuildError;
use crate::names::NameOrAnon;
use graphql_nodes::Name;
use std::fmt;

/// A broken rule, with a message that names what is in conflict. `BuildError` itself prints the name of the rule.
#[derive(Clone, Copy)]
pub struct BuildErrorMessage<'a>(pub &'a BuildError);

impl fmt::Display for BuildErrorMessage<'_> {
    ghost output = { λ message. Some (build_error_message message.0.now) };

    fn fmt<W: fmt::Write>(&self, f: &mut fmt::Formatter<W>) -> fmt::Result {
        match self.0 {
            BuildError::SubscriptionUsesIntrospection { name, field } => {
                let subscription = subscription(name);
                write!(
                    f,
                    "{subscription} can not have an introspection field as a root field: {field}"
                )
            }
            BuildError::SubscriptionUsesConditionalSelection { name } => {
                let subscription = subscription(name);
                write!(
                    f,
                    "{subscription} can not specify @skip or @include on root fields"
                )
            }
            BuildError::SubscriptionUsesMultipleFields { name, .. } => {
                let subscription = subscription(name);
                write!(f, "{subscription} can only have one root field")
            }
            BuildError::DeferLabelMustNotBeVariable => {
                f.write_str("the label of @defer must not be a variable")
            }
            BuildError::DuplicateDeferLabel { label, .. } => write!(
                f,
                "the label \"{label}\" of @defer is used multiple times"
            ),
            BuildError::DeferOnRootMutationOrSubscriptionField { operation_type } => write!(
                f,
                "@defer can not be used on root fields of a {operation_type}"
            ),
            BuildError::DeferInSubscriptionMustBeConditional => {
                f.write_str(
                    "@defer can not be used in a subscription, unless its `if` is a variable or false",
                )
            }
            BuildError::ConflictingFieldName {
                alias,
                original_selection,
                conflicting_selection,
                ..
            } => write!(
                f,
                "fields \"{alias}\" conflict: {original_selection} and {conflicting_selection} are different fields"
            ),
            BuildError::ConflictingFieldArgument {
                alias,
                original_coordinate,
                ..
            } => write!(
                f,
                "fields \"{alias}\" conflict: the argument {original_coordinate} differs"
            ),
            BuildError::ConflictingFieldType {
                alias,
                original_coordinate,
                original_type,
                conflicting_coordinate,
                conflicting_type,
                ..
            } => write!(
                f,
                "fields \"{alias}\" conflict: {original_coordinate} is of type {original_type} and {conflicting_coordinate} of type {conflicting_type}"
            ),
        }
    }
}

/// What a message calls a subscription.
fn subscription(name: &Option<Name>) -> NameOrAnon<'_, Name>
    ensures { name_or_anon_text (λ n. Some n.text) result ≡ Some (subscription_text name.now) }
{
    NameOrAnon {
        name: name.as_ref(),
        if_some_prefix: "subscription",
        if_none: "anonymous subscription",
    }
}
