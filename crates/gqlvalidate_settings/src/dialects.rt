//! The dialects that a configuration names.

ghost use Rattle.std.specs.Prelude.{◌≡◌, IfErr, IfOk};
ghost use Rattle.gqlvalidate_settings.specs.Dialects.{NamesClient, NamesDialect, NamesFederation, client_in, has_version};
ghost use Rattle.gqlvalidate_settings.specs.Refusals.{RulesOut};

use crate::keys::Key;
use crate::refusals::{Problem, Refusal};
use crate::setting::{Setting, value_at};
use gqlvalidate_dialects::{ClientName, Dialect, is_federation_version};

/// The dialect that a configuration names in what it says of this program. The error says which value is wrong: that of the client is
/// looked at first.
pub(crate) fn dialect_of(own: &[(String, Setting)]) -> Result<Dialect, Refusal>
    ensures dialect { IfOk result (NamesDialect own.now) }
    ensures refused { IfErr result (RulesOut (NamesDialect own.now)) }
{
    let client = client_at(own)?;
    let federation = federation_at(own)?;
    Ok(Dialect { federation, client })
}

/// The client that members name, if they have its key.
fn client_at(own: &[(String, Setting)]) -> Result<Option<ClientName>, Refusal>
    ensures client { IfOk result (NamesClient own.now) }
    ensures refused { IfErr result (RulesOut (NamesClient own.now)) }
{
    let Some(setting) = value_at(own, Key::Client) else {
        return Ok(None);
    };
    match client_in(setting) {
        Some(client) => Ok(Some(client)),
        None => Err(Refusal::Wrong(Key::Client, Problem::NoClient)),
    }
}

/// The client whose name the value is, if it is one.
fn client_in(setting: &Setting) -> Option<ClientName>
    ensures { result ≡ client_in setting.now }
{
    ClientName::named(setting.as_text()?)
}

/// Whether members say that the schema is a subgraph of Federation.
fn federation_at(own: &[(String, Setting)]) -> Result<bool, Refusal>
    ensures federation { IfOk result (NamesFederation own.now) }
    ensures refused { IfErr result (RulesOut (NamesFederation own.now)) }
{
    let Some(setting) = value_at(own, Key::Federation) else {
        return Ok(false);
    };
    if has_version(setting) {
        Ok(true)
    } else {
        Err(Refusal::Wrong(Key::Federation, Problem::NoVersion))
    }
}

/// Whether the value is a version of Federation, as a number or as a text.
fn has_version(setting: &Setting) -> bool
    ensures { result ≡ has_version setting.now }
{
    match setting {
        Setting::Text(version) => is_federation_version(version.as_str()),
        Setting::Number(version) => is_federation_version(version.as_str()),
        _ => false,
    }
}
