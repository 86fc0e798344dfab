use graphql_nodes::{Name, Node};
use graphql_numbers::{FloatValue, IntValue};

/// An input value as written.
///
/// Specification: 2.9 Input Values.
#[derive(Debug, Drop, PartialEq, Eq, Hash)]
pub enum Value {
    Null,
    Enum(Name),
    Variable(Name),
    String(String),
    Float(FloatValue),
    Int(IntValue),
    Boolean(bool),
    List(Vec<Node<Value>>),
    Object(Vec<(Name, Node<Value>)>),
}

impl Value {
    ghost use Rattle.std.specs.Prelude.{◌≡◌};
    ghost use Rattle.graphql_documents.specs.Values.{value_kind_text};

    /// What a message calls the kind of the value.
    pub fn describe(&self) -> &'static str
        ensures { result.now ≡ value_kind_text self.now }
    {
        match self {
            Value::Null => "null",
            Value::Enum(_) => "an enum",
            Value::Variable(_) => "a variable",
            Value::String(_) => "a string",
            Value::Float(_) => "a float",
            Value::Int(_) => "an integer",
            Value::Boolean(_) => "a boolean",
            Value::List(_) => "a list",
            Value::Object(_) => "an input object",
        }
    }
}
