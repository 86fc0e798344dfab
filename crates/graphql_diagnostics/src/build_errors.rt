ghost use Rattle.std.specs.Prelude.{◌≡◌, Some};
ghost use Rattle.graphql_diagnostics.specs.Messages.{build_error_name};

use graphql_coordinates::{FieldArgumentCoordinate, TypeAttributeCoordinate};
use graphql_documents::documents::type_references::Type;
use graphql_documents::documents::values::Value;
use graphql_nodes::{Name, Node, OperationType, SourceSpan};
use std::fmt;

/// A broken rule of subscriptions, of `@defer` or of merging fields.
#[derive(Drop, PartialEq, Eq)]
pub enum BuildError {
    /// A root field of a subscription is one of introspection. Reported at the field.
    ///
    /// Specification: 5.2.3.1 Single Root Field.
    SubscriptionUsesIntrospection {
        /// The name of the operation; none for the anonymous one.
        name: Option<Name>,
        field: Name,
    },
    /// A root selection of a subscription has `@skip` or `@include`. Reported at the first of them.
    ///
    /// Specification: draft, 5.2.4.1 Single Root Field.
    SubscriptionUsesConditionalSelection {
        /// The name of the operation; none for the anonymous one.
        name: Option<Name>,
    },
    /// A subscription has more than one root field. Reported at the operation.
    ///
    /// Specification: 5.2.3.1 Single Root Field.
    SubscriptionUsesMultipleFields {
        /// The name of the operation; none for the anonymous one.
        name: Option<Name>,
        /// The names of the fields, in the order of the walk.
        fields: Vec<Name>,
    },
    /// The label of a `@defer` is a variable. Reported at the value of the label.
    ///
    /// Specification: the `@defer` proposal.
    DeferLabelMustNotBeVariable,
    /// A `@defer` has the label of an earlier one. Reported at the value of the later label.
    ///
    /// Specification: the `@defer` proposal.
    DuplicateDeferLabel {
        label: String,
        /// The value of the first label.
        original_location: Option<SourceSpan>,
    },
    /// A root selection of a mutation or subscription is deferred. Reported at the directive.
    ///
    /// Specification: the `@defer` proposal.
    DeferOnRootMutationOrSubscriptionField {
        operation_type: OperationType,
    },
    /// A `@defer` in a subscription is not conditional. Reported at the directive.
    ///
    /// Specification: the `@defer` proposal.
    DeferInSubscriptionMustBeConditional,
    /// Two fields with one response key have different names. Reported at the later field.
    ///
    /// Specification: 5.3.2 Field Selection Merging.
    ConflictingFieldName {
        /// The response key.
        alias: Name,
        original_location: Option<SourceSpan>,
        original_selection: TypeAttributeCoordinate,
        conflicting_location: Option<SourceSpan>,
        conflicting_selection: TypeAttributeCoordinate,
    },
    /// Two fields with one response key have different arguments. Reported at the later field.
    ///
    /// Specification: 5.3.2 Field Selection Merging.
    ConflictingFieldArgument {
        /// The name of the fields.
        alias: Name,
        original_location: Option<SourceSpan>,
        original_coordinate: FieldArgumentCoordinate,
        /// None where the field lacks the argument.
        original_value: Option<Node<Value>>,
        conflicting_location: Option<SourceSpan>,
        conflicting_coordinate: FieldArgumentCoordinate,
        /// None where the field lacks the argument.
        conflicting_value: Option<Node<Value>>,
    },
    /// Two fields with one response key have types of different shapes. Reported at the later field.
    ///
    /// Specification: 5.3.2 Field Selection Merging.
    ConflictingFieldType {
        /// The response key.
        alias: Name,
        original_location: Option<SourceSpan>,
        original_coordinate: TypeAttributeCoordinate,
        original_type: Type,
        conflicting_location: Option<SourceSpan>,
        conflicting_coordinate: TypeAttributeCoordinate,
        conflicting_type: Type,
    },
}

impl BuildError {
    /// The name of the rule.
    pub fn name(&self) -> &'static str
        ensures { result.now ≡ build_error_name self.now }
    {
        match self {
            BuildError::SubscriptionUsesIntrospection { .. } => "SubscriptionUsesIntrospection",
            BuildError::SubscriptionUsesConditionalSelection { .. } =>
                "SubscriptionUsesConditionalSelection",
            BuildError::SubscriptionUsesMultipleFields { .. } => "SubscriptionUsesMultipleFields",
            BuildError::DeferLabelMustNotBeVariable => "DeferLabelMustNotBeVariable",
            BuildError::DuplicateDeferLabel { .. } => "DuplicateDeferLabel",
            BuildError::DeferOnRootMutationOrSubscriptionField { .. } =>
                "DeferOnRootMutationOrSubscriptionField",
            BuildError::DeferInSubscriptionMustBeConditional =>
                "DeferInSubscriptionMustBeConditional",
            BuildError::ConflictingFieldName { .. } => "ConflictingFieldName",
            BuildError::ConflictingFieldArgument { .. } => "ConflictingFieldArgument",
            BuildError::ConflictingFieldType { .. } => "ConflictingFieldType",
        }
    }
}

impl fmt::Display for BuildError {
    ghost output = { λ error. Some (build_error_name error) };

    fn fmt<W: fmt::Write>(&self, f: &mut fmt::Formatter<W>) -> fmt::Result {
        f.write_str(self.name())
    }
}

/// The name of the rule.
impl fmt::Debug for BuildError {
    fn fmt<W: fmt::Write>(&self, f: &mut fmt::Formatter<W>) -> fmt::Result {
        fmt::Display::fmt(self, f)
    }
}
