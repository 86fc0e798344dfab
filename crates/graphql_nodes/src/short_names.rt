ghost use Rattle.std.specs.Prelude.{◌≡◌, ◌≤◌, IsTrue, take, length};
ghost use Rattle.graphql_nodes.specs.Names.{is_name};
ghost use Rattle.graphql_nodes.specs.declared.short_names.TheConstants.{MAX_SHORT_LENGTH};

use std::str;

/// The most bytes that a short name has. With them and a place, a `Name` is as large as with a `String` and a
/// place.
pub(super) const MAX_SHORT_LENGTH: usize = 26;

/// The text of a short name, which has no memory of its own.
#[derive(Clone, Copy)]
pub(super) struct ShortName {
    len: u8,
    bytes: [u8; MAX_SHORT_LENGTH],
    ghost fits: { len ≤ MAX_SHORT_LENGTH },
    ghost named: { IsTrue (is_name (take len bytes)) },
}

impl ShortName {
    ghost use Rattle.graphql_nodes.specs.NameParts.{short_text};

    /// The name with this text.
    pub(super) fn new(text: &[u8]) -> ShortName
        requires fits { length text.now ≤ MAX_SHORT_LENGTH }
        requires named { IsTrue (is_name text.now) }
        ensures { short_text result ≡ text.now }
    {
        let mut bytes = [0; MAX_SHORT_LENGTH];
        bytes[..text.len()].copy_from_slice(text);
        ShortName {
            len: text.len() as u8,
            bytes,
        }
    }

    /// The text of the name.
    pub(super) fn as_str(&self) -> &str
        ensures { result.now ≡ short_text self.now }
    {
        name_text(&self.bytes[..self.len as usize])
    }
}

/// The text of a name. Its bytes need no test of UTF-8, since names are ASCII.
pub(super) fn name_text(bytes: &[u8]) -> &str
    requires { IsTrue (is_name bytes.now) }
    ensures { result.now ≡ bytes.now }
{
    unsafe { str::from_utf8_unchecked(bytes) }
}
