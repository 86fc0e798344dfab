//! Lists, in words.

ghost use Rattle.std.specs.Prelude.{Some, codes};
ghost use Rattle.graphql_nodes.specs.DirectiveLocations.{location_text};
ghost use Rattle.graphql_helps.specs.HelpWords.{on_type, quoted, separated};

use graphql_nodes::{DirectiveLocation, Name};
use graphql_suggestions::Suggestion;
use std::fmt;

/// Names, one of which may have been meant.
#[derive(Clone, Copy)]
pub(crate) struct AnyName<'a>(pub &'a [Suggestion]);

/// Types, on one of which the field may have been meant.
#[derive(Clone, Copy)]
pub(crate) struct AnyType<'a> {
    pub field: &'a Name,
    pub types: &'a [Name],
}

/// Locations at which a directive may be applied.
#[derive(Clone, Copy)]
pub(crate) struct EachLocation<'a>(pub &'a [DirectiveLocation]);

impl fmt::Display for AnyName<'_> {
    ghost output = { λ names. Some (separated (codes " or ") quoted names.0.now) };

    fn fmt<W: fmt::Write>(&self, f: &mut fmt::Formatter<W>) -> fmt::Result {
        let Some((first, others)) = self.0.split_first() else {
            return Ok(());
        };
        let name = &first.name;
        write!(f, "`{name}`")?;
        for other in others {
            let name = &other.name;
            write!(f, " or `{name}`")?;
        }
        Ok(())
    }
}

/// A field of one of these types.
#[derive(Clone, Copy)]
struct OnType<'a> {
    field: &'a Name,
    ty: &'a Name,
}

impl fmt::Display for OnType<'_> {
    ghost output = { λ on. Some (on_type on.field.now on.ty.now) };

    fn fmt<W: fmt::Write>(&self, f: &mut fmt::Formatter<W>) -> fmt::Result {
        let field = self.field;
        let ty = self.ty;
        write!(f, "`... on {ty} {{ {field} }}`")
    }
}

impl fmt::Display for AnyType<'_> {
    ghost output = { λ any. Some (separated (codes " or ") (on_type any.field.now) any.types.now) };

    fn fmt<W: fmt::Write>(&self, f: &mut fmt::Formatter<W>) -> fmt::Result {
        let Some((first, others)) = self.types.split_first() else {
            return Ok(());
        };
        let on = OnType {
            field: self.field,
            ty: first,
        };
        write!(f, "{on}")?;
        for other in others {
            let on = OnType {
                field: self.field,
                ty: other,
            };
            write!(f, " or {on}")?;
        }
        Ok(())
    }
}

impl fmt::Display for EachLocation<'_> {
    ghost output = { λ each. Some (separated (codes ", ") location_text each.0.now) };

    fn fmt<W: fmt::Write>(&self, f: &mut fmt::Formatter<W>) -> fmt::Result {
        let Some((first, others)) = self.0.split_first() else {
            return Ok(());
        };
        write!(f, "{first}")?;
        for other in others {
            write!(f, ", {other}")?;
        }
        Ok(())
    }
}
