//! Fields and enum values.
//!
//! Specification: 4.2.3 The __Field Type, and 4.2.5 The __EnumValue Type.

use super::errors::Refusal;
use super::input_values::IN_FIELD;
use super::printer::Printer;
use json::Value;

impl Printer {
    /// Prints the fields of an object or interface in braces, if there are any.
    pub(crate) fn print_fields(&mut self, definition: &Value<'_>) -> Result<(), Refusal> {
        let fields = self.path.enter_list(definition, "fields")?;
        if !fields.is_empty() {
            self.print(" {")?;
            self.print_each_field(fields)?;
            self.print("\n}")?;
        }
        self.path.leave();
        Ok(())
    }

    fn print_each_field(&mut self, fields: &[Value<'_>]) -> Result<(), Refusal> {
        for (index, field) in fields.iter().enumerate() {
            self.path.enter_item(index)?;
            self.print("\n  ")?;
            self.print_field(field)?;
            self.path.leave();
        }
        Ok(())
    }

    fn print_field(&mut self, field: &Value<'_>) -> Result<(), Refusal> {
        self.print_description(field, "\n  ")?;
        self.print_name(field)?;
        self.print_arguments(field, IN_FIELD)?;
        self.print(": ")?;
        self.print_type_of(field)?;
        self.print_deprecation(field)
    }

    /// Prints the values of an enum in braces, if there are any.
    pub(crate) fn print_enum_values(&mut self, definition: &Value<'_>) -> Result<(), Refusal> {
        let values = self.path.enter_list(definition, "enumValues")?;
        if !values.is_empty() {
            self.print(" {")?;
            self.print_each_enum_value(values)?;
            self.print("\n}")?;
        }
        self.path.leave();
        Ok(())
    }

    fn print_each_enum_value(&mut self, values: &[Value<'_>]) -> Result<(), Refusal> {
        for (index, value) in values.iter().enumerate() {
            self.path.enter_item(index)?;
            self.print("\n  ")?;
            self.print_description(value, "\n  ")?;
            self.print_name(value)?;
            self.print_deprecation(value)?;
            self.path.leave();
        }
        Ok(())
    }
}
