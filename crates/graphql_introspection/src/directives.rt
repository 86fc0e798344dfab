//! Directive definitions.
//!
//! Specification: 4.2.6 The __Directive Type.

use super::errors::{Problem, Refusal};
use super::input_values::IN_DEFINITION;
use super::names::is_built_in_directive;
use super::printer::Printer;
use json::Value;

/// Whether one of the directives has this name.
pub(crate) fn defines_directive(directives: &[Value<'_>], name: &str) -> bool {
    directives.iter().any(|directive| match directive.get("name") {
        Some(Value::String(other)) => *other == name,
        _ => false,
    })
}

impl Printer {
    /// Prints the directives that not every schema has.
    pub(crate) fn print_directives(&mut self, directives: &[Value<'_>]) -> Result<(), Refusal> {
        for (index, directive) in directives.iter().enumerate() {
            self.path.enter_item(index)?;
            self.print_directive(directive)?;
            self.path.leave();
        }
        Ok(())
    }

    fn print_directive(&mut self, directive: &Value<'_>) -> Result<(), Refusal> {
        let name = self.path.name(directive)?;
        if is_built_in_directive(name) {
            return Ok(());
        }
        self.print("\n")?;
        self.print_description(directive, "\n")?;
        self.print("directive @")?;
        self.print(name)?;
        self.print_arguments(directive, IN_DEFINITION)?;
        if self.path.flag(directive, "isRepeatable")? {
            self.print(" repeatable")?;
        }
        self.print_locations(directive)?;
        self.print("\n")
    }

    fn print_locations(&mut self, directive: &Value<'_>) -> Result<(), Refusal> {
        let locations = self.path.enter_list(directive, "locations")?;
        if locations.is_empty() {
            return Err(Refusal::Member(Problem::Empty));
        }
        let mut separator = " on ";
        for (index, location) in locations.iter().enumerate() {
            self.path.enter_item(index)?;
            let name = self.path.name_itself(location)?;
            self.print(separator)?;
            self.print(name)?;
            self.path.leave();
            separator = " | ";
        }
        self.path.leave();
        Ok(())
    }
}
