ghost use Rattle.std.specs.Prelude.{◌≡◌, IsTrue, IsSome, IfOk, IfSome, ◌↔◌, Some, string_bytes};
ghost use Rattle.std.proofs.Common.{rules};
ghost use Rattle.std.specs.Hash as fed;
ghost use Rattle.std.specs.List.{list_all};
ghost use Rattle.std.specs.Cmp.Rules.{comparing, hashing};
ghost use Rattle.graphql_nodes.specs.Names.{is_name, starts_name, continues_name, same_name};

use super::short_names::{MAX_SHORT_LENGTH, ShortName, name_text};
use super::spans::SourceSpan;
use std::alloc::{AllocError, Global};
use std::fmt;
use std::hash::{Hash, Hasher};
use std::marker::Model;

/// A GraphQL name, and where it is. Names are compared by their text alone. A text of up to 26 bytes is in the
/// name itself, and only a longer one in memory of its own.
///
/// Specification: 2.1.9 Names.
pub struct Name {
    parts: Parts,
}

// By hand, so that wherever a name is dropped this is called: the match over the variants is proved once, here.
impl Drop for Name {
    fn drop(self) {
        let Name { parts: _parts } = self;
    }
}

// The variants say whether there is a place, since an `Option` beside the text would make each name larger.
#[derive(Drop)]
enum Parts {
    Short(ShortName),
    ShortAt(ShortName, SourceSpan),
    Long(String),
    LongAt(SourceSpan, String),
}

const _: () = prove!(size_of::<Name>() == 40);

/// The name of a type.
pub type NamedType = Name;

impl Model for Name {
    ghost use Rattle.std.specs.Prelude.{◌≡◌, IsTrue};
    ghost use Rattle.graphql_nodes.specs.Names.{NameText, is_name};

    ghost Value = { NameText };

    ghost use Rattle.graphql_nodes.specs.NameParts.{text_of, location_of};

    ghost view = { λ n. record { text = text_of n.parts; location = location_of n.parts } };

    ghost invariant = { λ n. IsTrue (is_name (text_of n.parts)) };
}

impl Name {
    /// The name with this text, or `None` where the text is no name: a letter or `_`, then letters,
    /// digits and `_`, all ASCII.
    pub fn new(text: String, location: Option<SourceSpan>) -> Option<Name>
        ensures name { IsSome result ↔ IsTrue (is_name (string_bytes text)) }
        ensures text { IfSome result (λ name. name.text ≡ string_bytes text) }
        ensures location { IfSome result (λ name. name.location ≡ location) }
    {
        if !is_name_text(text.as_bytes()) {
            return None;
        }
        let parts = if text.len() <= MAX_SHORT_LENGTH {
            Parts::short(ShortName::new(text.as_bytes()), location)
        } else {
            Parts::long(text, location)
        };
        Some(Name { parts })
    }

    /// The name with these bytes as its text, which have to be those of a name. It allocates only where they are
    /// more than 26.
    pub fn from_bytes(
        alloc: Global,
        bytes: &[u8],
        location: Option<SourceSpan>,
    ) -> Result<Name, AllocError>
        requires { IsTrue (is_name bytes.now) }
        ensures text { IfOk result (λ name. name.text ≡ bytes.now) }
        ensures location { IfOk result (λ name. name.location ≡ location) }
    {
        let parts = if bytes.len() <= MAX_SHORT_LENGTH {
            Parts::short(ShortName::new(bytes), location)
        } else {
            Parts::long(String::from_str(alloc, name_text(bytes))?, location)
        };
        Ok(Name { parts })
    }

    /// A copy of the name, its place included, in memory of this allocator.
    pub fn clone_in(&self, alloc: Global) -> Result<Name, AllocError>
        ensures { IfOk result (λ copy. copy ≡ self.now) }
    {
        let parts = match &self.parts {
            Parts::Short(text) => Parts::Short(*text),
            Parts::ShortAt(text, span) => Parts::ShortAt(*text, *span),
            Parts::Long(text) => Parts::Long(String::from_str(alloc, text.as_str())?),
            Parts::LongAt(span, text) => Parts::LongAt(
                *span,
                String::from_str(alloc, text.as_str())?,
            ),
        };
        Ok(Name { parts })
    }

    /// The text of the name.
    pub fn as_str(&self) -> &str
        ensures text { result.now ≡ self.now.text }
        ensures name { IsTrue (is_name self.now.text) }
    {
        match &self.parts {
            Parts::Short(text) | Parts::ShortAt(text, _) => text.as_str(),
            Parts::Long(text) | Parts::LongAt(_, text) => text.as_str(),
        }
    }

    /// Where the name is.
    pub fn location(&self) -> Option<SourceSpan>
        ensures { result ≡ self.now.location }
    {
        match &self.parts {
            Parts::Short(_) | Parts::Long(_) => None,
            Parts::ShortAt(_, span) | Parts::LongAt(span, _) => Some(*span),
        }
    }
}

impl Parts {
    ghost use Rattle.graphql_nodes.specs.NameParts.{short_text, text_of, location_of};

    fn short(text: ShortName, location: Option<SourceSpan>) -> Parts
        ensures text { text_of result ≡ short_text text }
        ensures location { location_of result ≡ location }
    {
        match location {
            None => Parts::Short(text),
            Some(span) => Parts::ShortAt(text, span),
        }
    }

    fn long(text: String, location: Option<SourceSpan>) -> Parts
        ensures text { text_of result ≡ string_bytes text }
        ensures location { location_of result ≡ location }
    {
        match location {
            None => Parts::Long(text),
            Some(span) => Parts::LongAt(span, text),
        }
    }
}

fn is_name_text(text: &[u8]) -> bool
    ensures { result ≡ is_name text.now }
{
    match text {
        [] => false,
        [first, rest @ ..] => is_name_start(*first) && all_continue_name(rest),
    }
}

fn all_continue_name(rest: &[u8]) -> bool
    ensures { result ≡ list_all continues_name rest.now }
{
    rest.iter().all(|c| is_name_continue(*c))
}

fn is_name_start(c: u8) -> bool
    ensures { result ≡ starts_name c }
{
    c.is_ascii_alphabetic() || c == b'_'
}

fn is_name_continue(c: u8) -> bool
    ensures { result ≡ continues_name c }
{
    c.is_ascii_alphanumeric() || c == b'_'
}

impl PartialEq for Name {
    ghost eq = { same_name };

    ghost laws = { Prim.search (comparing, rules) };

    fn eq(&self, other: &Name) -> bool {
        self.as_str() == other.as_str()
    }
}

impl Eq for Name {
    ghost laws = { Prim.search (comparing, rules) };
}

impl Hash for Name {
    ghost hash_input = { λ name. fed.str name.text };

    ghost respects_eq = { Prim.search (hashing, rules) };

    fn hash<H: Hasher>(&self, state: &mut H) {
        self.as_str().hash(state);
    }
}

impl Clone for Name {
    ghost is_clone = { λ name copy. copy ≡ name };

    fn clone(&self) -> Result<Name, AllocError> {
        let parts = match &self.parts {
            Parts::Short(text) => Parts::Short(*text),
            Parts::ShortAt(text, span) => Parts::ShortAt(*text, *span),
            Parts::Long(text) => Parts::Long(text.clone()?),
            Parts::LongAt(span, text) => Parts::LongAt(*span, text.clone()?),
        };
        Ok(Name { parts })
    }
}

impl fmt::Display for Name {
    ghost output = { λ name. Some name.text };

    fn fmt<W: fmt::Write>(&self, f: &mut fmt::Formatter<W>) -> fmt::Result {
        write!(f, "{}", self.as_str())
    }
}

impl fmt::Debug for Name {
    fn fmt<W: fmt::Write>(&self, f: &mut fmt::Formatter<W>) -> fmt::Result {
        f.debug_struct("Name")
            .field("text", &self.as_str())
            .field("location", &self.location())
            .finish()
    }
}
