//! Whole schemas.
//!
//! Specification: 4.2.1 The __Schema Type.

use super::directives::defines_directive;
use super::errors::{IntrospectionError, Refusal};
use super::faults::fault_of;
use super::printer::Printer;
use json::{Error, Scratch, Value};
use std::alloc::Global;

/// The schema of the answer to an introspection query, in the schema definition language. The answer is JSON:
/// `{"data": {"__schema": ..}}`, or what is in `data` alone.
///
/// The definitions that every schema has are left out: the scalars `Int`, `Float`, `String`, `Boolean` and `ID`, the types whose names
/// begin with `__`, and the directives `@skip`, `@include`, `@deprecated` and `@specifiedBy`. An input object has `@oneOf` only if the
/// answer lists that directive. Directives that are applied in the schema are not part of an answer, except `@deprecated` and
/// `@specifiedBy`.
///
/// The error says that an allocation failed, where the text is not JSON, or which member is not what an answer has there. A member that a
/// query may leave out may be missing or null: a description, `mutationType`, `subscriptionType`, `specifiedByURL`, `isOneOf`,
/// `isRepeatable`, `isDeprecated`, `deprecationReason`, `defaultValue`, and the `interfaces` of an interface. Names have to be GraphQL
/// names, and default values one constant value each, so that the text holds no definition that the answer does not have.
pub fn schema_text(alloc: Global, answer: &str) -> Result<String, IntrospectionError> {
    let mut scratch = Scratch::new(alloc);
    let value = value_of(alloc, answer, &mut scratch)?;
    let mut printer = Printer::new(alloc);
    match printer.print_answer(&value) {
        Ok(()) => {
            let Printer {
                alloc: _,
                text,
                path: _path,
                defines_one_of: _,
            } = printer;
            Ok(text)
        }
        Err(Refusal::OutOfMemory) => Err(IntrospectionError::OutOfMemory),
        Err(Refusal::Member(problem)) => Err(IntrospectionError::InvalidMember {
            path: printer.path.text(alloc)?,
            problem,
        }),
    }
}

/// The value that a text of JSON is.
fn value_of<'a>(
    alloc: Global,
    text: &'a str,
    scratch: &'a mut Scratch,
) -> Result<Value<'a>, IntrospectionError> {
    match Value::parse(alloc, text, scratch) {
        Ok(value) => Ok(value),
        Err(Error::OutOfMemory) => Err(IntrospectionError::OutOfMemory),
        Err(_) => Err(IntrospectionError::InvalidJson {
            byte: fault_of(alloc, text)?,
        }),
    }
}

impl Printer {
    fn print_answer(&mut self, answer: &Value<'_>) -> Result<(), Refusal> {
        if answer.get("data").is_none() {
            let schema = self.path.enter(answer, "__schema")?;
            return self.print_schema(schema);
        }
        let data = self.path.enter(answer, "data")?;
        let schema = self.path.enter(data, "__schema")?;
        self.print_schema(schema)
    }

    fn print_schema(&mut self, schema: &Value<'_>) -> Result<(), Refusal> {
        self.print_description(schema, "\n")?;
        self.print("schema {")?;
        self.print_root(schema, "queryType", "\n  query: ")?;
        self.print_optional_root(schema, "mutationType", "\n  mutation: ")?;
        self.print_optional_root(schema, "subscriptionType", "\n  subscription: ")?;
        self.print("\n}\n")?;
        let directives = self.path.enter_list(schema, "directives")?;
        self.print_directives(directives)?;
        self.path.leave();
        self.defines_one_of = defines_directive(directives, "oneOf");
        self.print_types(schema)
    }

    fn print_root(
        &mut self,
        schema: &Value<'_>,
        member: &'static str,
        before: &str,
    ) -> Result<(), Refusal> {
        let root = self.path.enter(schema, member)?;
        self.print(before)?;
        self.print_name(root)?;
        self.path.leave();
        Ok(())
    }

    fn print_optional_root(
        &mut self,
        schema: &Value<'_>,
        member: &'static str,
        before: &str,
    ) -> Result<(), Refusal> {
        if let Some(root) = self.path.enter_optional(schema, member)? {
            self.print(before)?;
            self.print_name(root)?;
        }
        self.path.leave();
        Ok(())
    }
}
