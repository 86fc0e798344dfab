//! What helps with a report, in words.

ghost use Rattle.std.specs.Prelude.{IfSome, List, Some};
ghost use Rattle.graphql_helps.specs.HelpWords.{help_words};
ghost use Rattle.graphql_helps.specs.Helps.{IsDidYouMean};
ghost use Rattle.graphql_nodes.specs.Names.{NameText};
ghost use Rattle.graphql_suggestions.specs.Suggestions.{AreSuggested};

use crate::lists::{AnyName, AnyType, EachLocation};
use graphql_nodes::{DirectiveLocation, Name};
use graphql_suggestions::Suggestion;
use std::fmt;

/// What helps with a report.
#[derive(Debug, Drop)]
pub enum Help<'a> {
    /// One of these names may have been meant.
    DidYouMean(Vec<Suggestion>),
    /// These types, of which a value may be at that place, have the field.
    OnTypes { field: &'a Name, types: Vec<Name> },
    /// The field is of this composite type, and needs selections.
    Select { field: &'a Name, ty: &'a Name },
    /// The directive may be applied at these locations.
    Locations(&'a [DirectiveLocation]),
    /// The definition is one that every schema has.
    LeaveOut,
}

/// That one of these names may have been meant, if there is one.
pub(crate) fn did_you_mean<'a>(found: Vec<Suggestion>) -> Option<Help<'a>>
    ensures { (names : List NameText) (wanted : NameText) → AreSuggested names wanted found.items → IfSome result (IsDidYouMean names wanted) }
{
    if found.is_empty() {
        None
    } else {
        Some(Help::DidYouMean(found))
    }
}

impl fmt::Display for Help<'_> {
    ghost output = { λ help. Some (help_words help) };

    fn fmt<W: fmt::Write>(&self, f: &mut fmt::Formatter<W>) -> fmt::Result {
        match self {
            Help::DidYouMean(found) => {
                let names = AnyName(found);
                write!(f, "did you mean {names}?")
            }
            Help::OnTypes { field, types } => {
                let any = AnyType { field, types };
                write!(f, "did you mean {any}?")
            }
            Help::Select { field, ty } => write!(
                f,
                "`{field}` is of type `{ty}`: select fields of it, `{field} {{ .. }}`"
            ),
            Help::Locations(locations) => {
                let each = EachLocation(locations);
                write!(f, "it may be applied at {each}")
            }
            Help::LeaveOut => f.write_str("leave it out: every schema has it"),
        }
    }
}
