//! Values.

use graphql_nodes::{Name, SourceSpan};
use graphql_numbers::{FloatValue, IntValue};
use graphql_strings::StringValue;
use sqlite_items::Items;

/// A variable: `$`, and its name.
///
/// Specification: 2.10 Variables.
#[derive(Drop)]
pub struct Variable {
    pub name: Name,
    pub span: SourceSpan,
}

/// A string or a block string: its value, and its place with the quotes.
///
/// Specification: 2.9.4 String Value.
#[derive(Drop)]
pub struct StringLiteral {
    pub value: StringValue,
    pub span: SourceSpan,
}

/// A value. The place of an enum value is that of its name.
///
/// Specification: 2.9 Input Values.
#[cycle(values)]
#[derive(Drop)]
pub enum Value {
    Variable(Variable),
    Int(IntValue, SourceSpan),
    Float(FloatValue, SourceSpan),
    String(StringLiteral),
    Boolean(bool, SourceSpan),
    Null(SourceSpan),
    Enum(Name),
    List(Items<Value>, SourceSpan),
    Object(Items<ObjectField>, SourceSpan),
}

/// A field of an input object value.
///
/// Specification: 2.9.8 Input Object Values.
#[cycle(values)]
#[derive(Drop)]
pub struct ObjectField {
    pub name: Name,
    pub value: Value,
    pub span: SourceSpan,
}
