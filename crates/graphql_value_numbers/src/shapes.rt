//! What values are, with the numbers of the values in them.

use super::named_numbers::NamedNumbers;
use graphql_documents::documents::Value;

/// What a value is, with the numbers of the values in it. The same values are of equal shapes, and different ones of
/// different shapes.
#[derive(Drop, PartialEq, Eq, Hash)]
pub(crate) enum Shape<'doc> {
    /// A value in which no other can be.
    Leaf(&'doc Value),
    List(Vec<usize>),
    Object(NamedNumbers<'doc>),
}
