//! Type definitions.
//!
//! Specification: 4.2.2 The __Type Type.

use super::errors::{Problem, Refusal};
use super::members::items_of;
use super::names::{is_built_in_scalar, is_reserved};
use super::printer::Printer;
use super::references::{Kind, kind_of};
use json::Value;

impl Printer {
    /// Prints the types that not every schema has.
    pub(crate) fn print_types(&mut self, schema: &Value<'_>) -> Result<(), Refusal> {
        let types = self.path.enter_list(schema, "types")?;
        for (index, definition) in types.iter().enumerate() {
            self.path.enter_item(index)?;
            self.print_type(definition)?;
            self.path.leave();
        }
        self.path.leave();
        Ok(())
    }

    fn print_type(&mut self, definition: &Value<'_>) -> Result<(), Refusal> {
        let kind = kind_of(&mut self.path, definition)?;
        let name = self.path.name(definition)?;
        if is_reserved(name) || kind == Kind::Scalar && is_built_in_scalar(name) {
            return Ok(());
        }
        self.print("\n")?;
        self.print_description(definition, "\n")?;
        self.print_definition(kind, definition)?;
        self.print("\n")
    }

    fn print_definition(&mut self, kind: Kind, definition: &Value<'_>) -> Result<(), Refusal> {
        match kind {
            Kind::Scalar => self.print_scalar(definition),
            Kind::Object => self.print_object(definition),
            Kind::Interface => self.print_interface(definition),
            Kind::Union => self.print_union(definition),
            Kind::Enum => {
                self.print("enum ")?;
                self.print_name(definition)?;
                self.print_enum_values(definition)
            }
            Kind::InputObject => self.print_input_object(definition),
            Kind::List | Kind::NonNull => {
                self.path.enter_member("kind")?;
                Err(Refusal::Member(Problem::NotADefinition))
            }
        }
    }

    fn print_scalar(&mut self, definition: &Value<'_>) -> Result<(), Refusal> {
        self.print("scalar ")?;
        self.print_name(definition)?;
        let Some(url) = self.path.optional_string(definition, "specifiedByURL")? else {
            return Ok(());
        };
        self.print(" @specifiedBy(url: ")?;
        self.print_quoted(url)?;
        self.print(")")
    }

    fn print_object(&mut self, definition: &Value<'_>) -> Result<(), Refusal> {
        self.print("type ")?;
        self.print_name(definition)?;
        let interfaces = self.path.enter_list(definition, "interfaces")?;
        self.print_names(interfaces, " implements ", " & ")?;
        self.path.leave();
        self.print_fields(definition)
    }

    /// Prints an interface. Its `interfaces` may be missing: before interfaces could implement others, answers had none.
    fn print_interface(&mut self, definition: &Value<'_>) -> Result<(), Refusal> {
        self.print("interface ")?;
        self.print_name(definition)?;
        if let Some(interfaces) = self.path.enter_optional(definition, "interfaces")? {
            self.print_names(items_of(interfaces)?, " implements ", " & ")?;
        }
        self.path.leave();
        self.print_fields(definition)
    }

    fn print_union(&mut self, definition: &Value<'_>) -> Result<(), Refusal> {
        self.print("union ")?;
        self.print_name(definition)?;
        let members = self.path.enter_list(definition, "possibleTypes")?;
        self.print_names(members, " = ", " | ")?;
        self.path.leave();
        Ok(())
    }

    /// Prints an input object, with `@oneOf` if it is one and the schema defines that directive.
    fn print_input_object(&mut self, definition: &Value<'_>) -> Result<(), Refusal> {
        self.print("input ")?;
        self.print_name(definition)?;
        if self.path.flag(definition, "isOneOf")? && self.defines_one_of {
            self.print(" @oneOf")?;
        }
        self.print_input_fields(definition)
    }
}
