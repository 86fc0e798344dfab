//! What a subgraph says by `@link`.

use graphql_schema_checking::definitions::SortedDefinitions;
use graphql_trees::{Directive, ObjectField, SchemaDefinition, Value};
use std::alloc::{AllocError, Global};

/// What the link to the specification of Federation begins with, whatever its version.
const FEDERATION: &str = "https://specs.apollo.dev/federation/";

/// The link of a subgraph to the specification of Federation.
#[derive(Drop)]
pub struct Link<'a> {
    /// What names begin with, before two underscores, that are not imported.
    pub namespace: &'a str,
    pub imports: Vec<Import<'a>>,
}

/// A name of the specification, and the name that the subgraph has for it. Those of directives begin with `@`.
#[derive(Clone, Copy)]
pub struct Import<'a> {
    pub name: &'a str,
    pub local: &'a str,
}

impl<'a> Link<'a> {
    /// What these definitions say. Without a link nothing is imported, and the namespace is `federation`. The only error is a failed allocation.
    pub fn of(alloc: Global, sorted: &SortedDefinitions<'a>) -> Result<Link<'a>, AllocError> {
        let mut link = Link {
            namespace: "federation",
            imports: Vec::new(alloc),
        };
        link.add_all(&sorted.schemas)?;
        link.add_all(&sorted.schema_extensions)?;
        Ok(link)
    }

    fn add_all(&mut self, schemas: &[&'a SchemaDefinition]) -> Result<(), AllocError> {
        for schema in schemas {
            self.add_links(schema.directives.as_slice())?;
        }
        Ok(())
    }

    fn add_links(&mut self, directives: &'a [Directive]) -> Result<(), AllocError> {
        for directive in directives {
            if links_federation(directive) {
                self.add_link(directive)?;
            }
        }
        Ok(())
    }

    fn add_link(&mut self, directive: &'a Directive) -> Result<(), AllocError> {
        if let Some(namespace) = text_argument(directive, "as") {
            self.namespace = namespace;
        }
        match argument(directive, "import") {
            Some(Value::List(values, _)) => self.add_imports(values.as_slice()),
            _ => Ok(()),
        }
    }

    fn add_imports(&mut self, values: &'a [Value]) -> Result<(), AllocError> {
        for value in values {
            if let Some(import) = import_of(value) {
                self.imports.push(import)?;
            }
        }
        Ok(())
    }

    /// Whether a directive of this name is the one of the specification: by the name that it is imported under, or else within the namespace; if
    /// nothing is imported, also by its own name.
    pub fn names(&self, specified: &str, name: &str) -> bool {
        match self.imported(specified) {
            Some(local) => name == local,
            None => {
                (self.imports.is_empty() && name == specified) || self.is_within(specified, name)
            }
        }
    }

    /// Whether the name is this one within the namespace.
    fn is_within(&self, specified: &str, name: &str) -> bool {
        match name.strip_prefix(self.namespace) {
            Some(rest) => rest.strip_prefix("__") == Some(specified),
            None => false,
        }
    }

    /// The name that the subgraph has for a directive of the specification, without its `@`, if it imports the directive.
    pub fn imported(&self, directive: &str) -> Option<&'a str> {
        let import = self
            .imports
            .iter()
            .find(|import| import.name.strip_prefix('@') == Some(directive))?;
        import.local.strip_prefix('@')
    }
}

fn links_federation(directive: &Directive) -> bool {
    directive.name.as_str() == "link"
        && text_argument(directive, "url").is_some_and(|url| url.starts_with(FEDERATION))
}

/// The name that a value imports: a string, or an object with `name` and perhaps `as`.
fn import_of(value: &Value) -> Option<Import<'_>> {
    match value {
        Value::String(literal) => {
            let name = literal.value.as_str();
            Some(Import { name, local: name })
        }
        Value::Object(fields, _) => renamed(fields.as_slice()),
        _ => None,
    }
}

fn renamed(fields: &[ObjectField]) -> Option<Import<'_>> {
    let name = text_field(fields, "name")?;
    let local = text_field(fields, "as").unwrap_or(name);
    Some(Import { name, local })
}

fn text_field<'a>(fields: &'a [ObjectField], name: &str) -> Option<&'a str> {
    let field = fields.iter().find(|field| field.name.as_str() == name)?;
    text_of(&field.value)
}

/// The argument of this name.
pub fn argument<'a>(directive: &'a Directive, name: &str) -> Option<&'a Value> {
    let argument = directive
        .arguments
        .as_slice()
        .iter()
        .find(|argument| argument.name.as_str() == name)?;
    Some(&argument.value)
}

/// The string that is the argument of this name.
fn text_argument<'a>(directive: &'a Directive, name: &str) -> Option<&'a str> {
    text_of(argument(directive, name)?)
}

fn text_of(value: &Value) -> Option<&str> {
    match value {
        Value::String(literal) => Some(literal.value.as_str()),
        _ => None,
    }
}
