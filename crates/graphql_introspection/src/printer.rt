//! What prints.

use super::errors::Refusal;
use super::paths::Path;
use super::quoting::push_quoted;
use json::Value;
use std::alloc::Global;

/// The text so far, and the path of what is being printed.
#[derive(Drop)]
pub(crate) struct Printer {
    pub(crate) alloc: Global,
    pub(crate) text: String,
    pub(crate) path: Path,
    /// Whether the schema defines `@oneOf`.
    pub(crate) defines_one_of: bool,
}

impl Printer {
    pub(crate) fn new(alloc: Global) -> Printer {
        Printer {
            alloc,
            text: String::new(alloc),
            path: Path::new(alloc),
            defines_one_of: false,
        }
    }

    /// Prints the text as it is.
    pub(crate) fn print(&mut self, text: &str) -> Result<(), Refusal> {
        Ok(self.text.push_str(text)?)
    }

    /// Prints the text as a string in quotes.
    pub(crate) fn print_quoted(&mut self, text: &str) -> Result<(), Refusal> {
        Ok(push_quoted(&mut self.text, text)?)
    }

    /// Prints the name of an object.
    pub(crate) fn print_name(&mut self, object: &Value<'_>) -> Result<(), Refusal> {
        let name = self.path.name(object)?;
        self.print(name)
    }

    /// Prints the description of an object, if it has one, and the text that begins the next line.
    pub(crate) fn print_description(
        &mut self,
        object: &Value<'_>,
        next_line: &str,
    ) -> Result<(), Refusal> {
        let Some(description) = self.path.optional_string(object, "description")? else {
            return Ok(());
        };
        self.print_quoted(description)?;
        self.print(next_line)
    }

    /// Prints `@deprecated`, if an object is deprecated.
    ///
    /// Specification: 3.13.3 @deprecated.
    pub(crate) fn print_deprecation(&mut self, object: &Value<'_>) -> Result<(), Refusal> {
        let is_deprecated = self.path.flag(object, "isDeprecated")?;
        match self.path.optional_string(object, "deprecationReason")? {
            Some(reason) => {
                self.print(" @deprecated(reason: ")?;
                self.print_quoted(reason)?;
                self.print(")")
            }
            None if is_deprecated => self.print(" @deprecated"),
            None => Ok(()),
        }
    }

    /// Prints the names of the objects of a list, with these texts before the first and between two.
    pub(crate) fn print_names(
        &mut self,
        objects: &[Value<'_>],
        before: &str,
        between: &str,
    ) -> Result<(), Refusal> {
        let mut separator = before;
        for (index, object) in objects.iter().enumerate() {
            self.path.enter_item(index)?;
            self.print(separator)?;
            self.print_name(object)?;
            self.path.leave();
            separator = between;
        }
        Ok(())
    }
}
