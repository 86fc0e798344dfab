//! Type references, as `[Int!]!`.
//!
//! Specification: 3.4.1 Wrapping Types, and 4.2.2 The __Type Type.

use super::errors::{Problem, Refusal};
use super::paths::Path;
use super::printer::Printer;
use json::Value;
use std::alloc::AllocError;

/// How many lists and non-null types a type may be inside.
pub const MAX_WRAPPERS: usize = 100;

/// A kind of type.
#[derive(Clone, Copy, PartialEq, Eq)]
pub(crate) enum Kind {
    Scalar,
    Object,
    Interface,
    Union,
    Enum,
    InputObject,
    List,
    NonNull,
}

/// The kind of a type.
pub(crate) fn kind_of(path: &mut Path, definition: &Value<'_>) -> Result<Kind, Refusal> {
    let text = path.string(definition, "kind")?;
    match text {
        "SCALAR" => Ok(Kind::Scalar),
        "OBJECT" => Ok(Kind::Object),
        "INTERFACE" => Ok(Kind::Interface),
        "UNION" => Ok(Kind::Union),
        "ENUM" => Ok(Kind::Enum),
        "INPUT_OBJECT" => Ok(Kind::InputObject),
        "LIST" => Ok(Kind::List),
        "NON_NULL" => Ok(Kind::NonNull),
        _ => {
            path.enter_member("kind")?;
            Err(Refusal::Member(Problem::NotAKind))
        }
    }
}

/// A type around another.
#[derive(Clone, Copy, PartialEq, Eq)]
enum Wrapper {
    List,
    NonNull,
}

/// The wrapper that a type is, inside these. None, if the type has a name.
fn wrapper_of(
    path: &mut Path,
    value: &Value<'_>,
    wrappers: &[Wrapper],
) -> Result<Option<Wrapper>, Refusal> {
    match kind_of(path, value)? {
        Kind::List => Ok(Some(Wrapper::List)),
        Kind::NonNull if wrappers.last() == Some(&Wrapper::NonNull) => {
            Err(Refusal::Member(Problem::NonNullTwice))
        }
        Kind::NonNull => Ok(Some(Wrapper::NonNull)),
        _ => Ok(None),
    }
}

/// Adds the wrappers of a type, the outermost first, at most as many as the depth; the name that is inside them. The path goes down to
/// the type that has it.
fn read_reference<'a>(
    path: &mut Path,
    value: &Value<'a>,
    wrappers: &mut Vec<Wrapper>,
    depth: usize,
) -> Result<&'a str, Refusal> {
    let Some(wrapper) = wrapper_of(path, value, wrappers)? else {
        return path.name(value);
    };
    if depth == 0 {
        return Err(Refusal::Member(Problem::NestedTooDeep));
    }
    wrappers.push(wrapper)?;
    let inside = path.enter(value, "ofType")?;
    read_reference(path, inside, wrappers, depth - 1)
}

/// Adds what is before the name.
fn push_openings(text: &mut String, wrappers: &[Wrapper]) -> Result<(), AllocError> {
    for wrapper in wrappers {
        if *wrapper == Wrapper::List {
            text.push_str("[")?;
        }
    }
    Ok(())
}

/// Adds what is after the name.
fn push_closings(text: &mut String, wrappers: &[Wrapper]) -> Result<(), AllocError> {
    for wrapper in wrappers.iter().rev() {
        match wrapper {
            Wrapper::List => text.push_str("]")?,
            Wrapper::NonNull => text.push_str("!")?,
        }
    }
    Ok(())
}

impl Printer {
    /// Prints the type of an object.
    pub(crate) fn print_type_of(&mut self, object: &Value<'_>) -> Result<(), Refusal> {
        let steps = self.path.len();
        let value = self.path.enter(object, "type")?;
        let mut wrappers = Vec::new(self.alloc);
        let name = read_reference(&mut self.path, value, &mut wrappers, MAX_WRAPPERS)?;
        self.path.leave_to(steps);
        push_openings(&mut self.text, &wrappers)?;
        self.text.push_str(name)?;
        Ok(push_closings(&mut self.text, &wrappers)?)
    }
}
