use graphql_nodes::Name;
use std::fmt;

/// A name, or the words for what has none.
#[derive(Clone, Copy, Debug)]
pub struct NameOrAnon<'a, T> {
    pub name: Option<&'a T>,
    /// What is before a name.
    pub if_some_prefix: &'a str,
    /// What is where there is no name.
    pub if_none: &'a str,
}

/// The prefix, a space and the name in backquotes, or the words for what has no name.
impl<T: fmt::Display> fmt::Display for NameOrAnon<'_, T> {
    ghost use Rattle.graphql_diagnostics.specs.Messages.{name_or_anon_text};

    ghost output = { name_or_anon_text T.output };

    fn fmt<W: fmt::Write>(&self, f: &mut fmt::Formatter<W>) -> fmt::Result {
        match self.name {
            Some(name) => {
                let prefix = self.if_some_prefix;
                write!(f, "{prefix} `{name}`")
            }
            None => {
                let text = self.if_none;
                write!(f, "{text}")
            }
        }
    }
}

/// A field of a type, as a coordinate of the field is written.
#[derive(Clone, Copy)]
pub(crate) struct FieldOf<'a> {
    pub(crate) ty: &'a Name,
    pub(crate) field: &'a Name,
}

impl fmt::Display for FieldOf<'_> {
    ghost use Rattle.std.specs.Prelude.{Some};
    ghost use Rattle.graphql_coordinates.specs.Coordinates.{field_text};

    ghost output = { λ c. Some (field_text c.ty.now c.field.now) };

    fn fmt<W: fmt::Write>(&self, f: &mut fmt::Formatter<W>) -> fmt::Result {
        let ty = self.ty;
        let field = self.field;
        write!(f, "{ty}.{field}")
    }
}
