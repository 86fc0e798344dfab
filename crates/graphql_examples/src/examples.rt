//! The worked examples, as texts.
ghost use Rattle.std.specs.Prelude.{◌≡◌, IfSome};
ghost use Rattle.std.specs.Option.{option_copied};
ghost use Rattle.graphql_examples.specs.Examples.{example_named};

pub mod up_to_12;
pub mod up_to_19;
pub mod up_to_26;
pub mod up_to_28;
pub mod up_to_31;
pub mod up_to_35;
pub mod up_to_37;
pub mod up_to_38;
pub mod up_to_39;

/// A worked example: what is validated, and the lines that it brings.
#[derive(Clone, Copy)]
pub struct Example {
    pub id: &'static str,
    /// The schema, as `graphql_notation` reads it.
    pub schema: &'static str,
    pub subject: Subject,
    /// Each report with its place, and the types where they are shown, each on a line.
    pub lines: &'static str,
}

/// What is validated, and by which call.
#[derive(Clone, Copy)]
pub enum Subject {
    /// A field set on `Query`, by `validate_field_set`.
    FieldSet(&'static str),
    /// A document against the schema, by `validate_executable_document`.
    Document(&'static str),
    /// A document against the schema, by `validate_executable_document`. Its text is file 1.
    DocumentInFile(&'static str),
    /// A document against the schema, by `validate_executable_document`. Another schema, the builder,
    /// gave its fields their definitions.
    DocumentBuiltBy {
        text: &'static str,
        builder: &'static str,
    },
    /// A document alone, by `validate_standalone_executable`. The schema only gave its fields their
    /// definitions.
    Standalone(&'static str),
    /// The schema, by `validate_schema`.
    Schema,
    /// The schema, by `validate_schema`. Its text is file 1.
    SchemaInFile,
    /// The schema, and the types afterwards are shown.
    RetainedTypes,
    /// The schema, by `validate_schema`, after the same call has validated it once. The types that it
    /// has afterwards are shown.
    TypesRetainedAgain,
}

/// The first example of the table with this name.
pub fn find_example<'a>(examples: &'a [Example], id: &str) -> Option<&'a Example>
    ensures found { option_copied result ≡ example_named id.now examples.now }
    ensures named { IfSome result (λ example. example.now.id.now ≡ id.now) }
{
    examples.iter().find(|example| example.id == id)
}
