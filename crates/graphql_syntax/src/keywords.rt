//! The names that the grammar knows.

ghost use Rattle.std.specs.Prelude.{◌≡◌};
ghost use Rattle.graphql_syntax.specs.Keywords.{keyword_text};

/// A name with a meaning of its own somewhere in the grammar.
///
/// Specification: Appendix B.3 Document Syntax.
#[derive(Clone, Copy, Debug, PartialEq, Eq)]
pub enum Keyword {
    True,
    False,
    Null,
    Query,
    Mutation,
    Subscription,
    Fragment,
    On,
    Extend,
    Schema,
    Scalar,
    Type,
    Implements,
    Interface,
    Union,
    Enum,
    Input,
    Directive,
    Repeatable,
}

impl Keyword {
    /// The text of the keyword.
    pub fn text(self) -> &'static str
        ensures { result.now ≡ keyword_text self }
    {
        match self {
            Keyword::True => "true",
            Keyword::False => "false",
            Keyword::Null => "null",
            Keyword::Query => "query",
            Keyword::Mutation => "mutation",
            Keyword::Subscription => "subscription",
            Keyword::Fragment => "fragment",
            Keyword::On => "on",
            Keyword::Extend => "extend",
            Keyword::Schema => "schema",
            Keyword::Scalar => "scalar",
            Keyword::Type => "type",
            Keyword::Implements => "implements",
            Keyword::Interface => "interface",
            Keyword::Union => "union",
            Keyword::Enum => "enum",
            Keyword::Input => "input",
            Keyword::Directive => "directive",
            Keyword::Repeatable => "repeatable",
        }
    }
}
