//! Values of a configuration, whichever language writes it.

ghost use Rattle.std.specs.Option.{option_copied};
ghost use Rattle.std.specs.Prelude.{◌≡◌};
ghost use Rattle.gqlvalidate_settings.specs.Settings.{as_list, as_table, as_text, value_at, value_under};

use crate::keys::Key;

/// A value of a configuration.
#[derive(Debug, Drop)]
pub enum Setting {
    Text(String),
    List(Vec<Setting>),
    /// Keys with their values: an object of JSON, or a table of TOML.
    Table(Vec<(String, Setting)>),
    /// A number as JSON writes it, or an integer of TOML in decimal digits.
    Number(String),
    /// A truth value, a time, `null`, or a number of TOML that is no integer: no setting is one.
    Other,
}

impl Setting {
    /// The text that the value is, if it is one.
    pub fn as_text(&self) -> Option<&str>
        ensures { option_copied result ≡ as_text self.now }
    {
        match self {
            Setting::Text(text) => Some(text.as_str()),
            _ => None,
        }
    }

    /// The items, if the value is a list.
    pub fn as_list(&self) -> Option<&[Setting]>
        ensures { option_copied result ≡ as_list self.now }
    {
        match self {
            Setting::List(items) => Some(items.as_slice()),
            _ => None,
        }
    }

    /// The members, if the value is a table.
    pub fn as_table(&self) -> Option<&[(String, Setting)]>
        ensures { option_copied result ≡ as_table self.now }
    {
        match self {
            Setting::Table(members) => Some(members.as_slice()),
            _ => None,
        }
    }
}

/// The value of the first member with this name.
pub(crate) fn value_under<'a>(members: &'a [(String, Setting)], name: &str) -> Option<&'a Setting>
    ensures { option_copied result ≡ value_under name.now members.now }
{
    let found = members.iter().find(|member| member.0.as_str() == name)?;
    Some(&found.1)
}

/// The value of the first member with this key.
pub(crate) fn value_at(members: &[(String, Setting)], key: Key) -> Option<&Setting>
    ensures { option_copied result ≡ value_at key members.now }
{
    value_under(members, key.name())
}
