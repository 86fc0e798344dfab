//! Arguments and input fields.
//!
//! Specification: 4.2.4 The __InputValue Type.

use super::constants::is_constant;
use super::errors::{Problem, Refusal};
use super::printer::Printer;
use json::Value;

/// What is printed around arguments or input fields.
#[derive(Clone, Copy)]
pub(crate) struct Layout {
    /// Before the first.
    before: &'static str,
    /// Before each further one, and after a description.
    between: &'static str,
    /// After the last.
    after: &'static str,
}

/// On one line.
const ON_ONE_LINE: Layout = Layout {
    before: "",
    between: ", ",
    after: "",
};

/// On lines of their own, in the definition of a field.
pub(crate) const IN_FIELD: Layout = Layout {
    before: "\n    ",
    between: "\n    ",
    after: "\n  ",
};

/// On lines of their own, in any other definition.
pub(crate) const IN_DEFINITION: Layout = Layout {
    before: "\n  ",
    between: "\n  ",
    after: "\n",
};

/// Whether one of these has a description.
fn any_is_described(values: &[Value<'_>]) -> bool {
    values.iter().any(|value| match value.get("description") {
        None | Some(Value::Null) => false,
        Some(_) => true,
    })
}

impl Printer {
    /// Prints the arguments of an object in parentheses, if there are any: on one line, or as the layout says, if one has a description.
    pub(crate) fn print_arguments(
        &mut self,
        object: &Value<'_>,
        layout: Layout,
    ) -> Result<(), Refusal> {
        let arguments = self.path.enter_list(object, "args")?;
        if !arguments.is_empty() {
            self.print("(")?;
            if any_is_described(arguments) {
                self.print_input_values(arguments, layout)?;
            } else {
                self.print_input_values(arguments, ON_ONE_LINE)?;
            }
            self.print(")")?;
        }
        self.path.leave();
        Ok(())
    }

    /// Prints the input fields of an input object in braces, if there are any.
    pub(crate) fn print_input_fields(&mut self, object: &Value<'_>) -> Result<(), Refusal> {
        let fields = self.path.enter_list(object, "inputFields")?;
        if !fields.is_empty() {
            self.print(" {")?;
            self.print_input_values(fields, IN_DEFINITION)?;
            self.print("}")?;
        }
        self.path.leave();
        Ok(())
    }

    fn print_input_values(&mut self, values: &[Value<'_>], layout: Layout) -> Result<(), Refusal> {
        let mut separator = layout.before;
        for (index, value) in values.iter().enumerate() {
            self.path.enter_item(index)?;
            self.print(separator)?;
            self.print_input_value(value, layout)?;
            self.path.leave();
            separator = layout.between;
        }
        self.print(layout.after)
    }

    fn print_input_value(&mut self, value: &Value<'_>, layout: Layout) -> Result<(), Refusal> {
        self.print_description(value, layout.between)?;
        self.print_name(value)?;
        self.print(": ")?;
        self.print_type_of(value)?;
        self.print_default_value(value)?;
        self.print_deprecation(value)
    }

    /// Prints the default value, if there is one.
    fn print_default_value(&mut self, value: &Value<'_>) -> Result<(), Refusal> {
        let Some(default) = self.path.optional_string(value, "defaultValue")? else {
            return Ok(());
        };
        if !is_constant(self.alloc, default)? {
            self.path.enter_member("defaultValue")?;
            return Err(Refusal::Member(Problem::NotAConstant));
        }
        self.print(" = ")?;
        self.print(default)
    }
}
