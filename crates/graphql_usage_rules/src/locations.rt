//! The places of values.

ghost use Rattle.std.specs.Prelude.{◌≡◌};
ghost use Rattle.graphql_usage_rules.specs.Parts.{location_at};
ghost use Rattle.graphql_usage_rules.specs.Usages.{item_location, location_of};

use graphql_documents::documents::{InputValueDefinition, Type};

/// What is expected at the place of a value: its type, and whether a default value is there where none is given.
#[derive(Clone, Copy)]
pub(crate) struct UsageLocation<'a> {
    pub(crate) ty: &'a Type,
    pub(crate) has_default: bool,
}

impl<'a> UsageLocation<'a> {
    /// The place of the value of an argument or an input field.
    pub(crate) fn of(definition: &'a InputValueDefinition) -> UsageLocation<'a>
        ensures { location_at result ≡ location_of definition.now }
    {
        UsageLocation {
            ty: &definition.ty.value,
            has_default: definition.default_value.is_some(),
        }
    }

    /// The place of an item of a list.
    pub(crate) fn of_item(self) -> UsageLocation<'a>
        ensures { location_at result ≡ item_location (location_at self.entry) }
    {
        UsageLocation {
            ty: self.ty.item_type(),
            has_default: false,
        }
    }
}
