//! The keys that are read.

ghost use Rattle.std.specs.Prelude.{◌≡◌};
ghost use Rattle.gqlvalidate_settings.specs.Keys.{name_of};

/// A key of a configuration that is read.
#[derive(Clone, Copy, Debug, PartialEq, Eq)]
pub enum Key {
    Schema,
    Documents,
    Include,
    Exclude,
    Projects,
    Extensions,
    /// What a configuration says of this program, in `extensions`.
    Program,
    /// The files of fragments that all documents may use, in what a configuration says of this program.
    Fragments,
    /// The levels of rules, in what a configuration says of this program.
    Rules,
    /// The client whose directives documents may use, in what a configuration says of this program.
    Client,
    /// The version of Apollo Federation, in what a configuration says of this program.
    Federation,
}

/// The key that leads to `Key::Program`.
const IN_EXTENSIONS: [&str; 1] = ["extensions"];

/// The keys that lead to the settings of this program.
const IN_PROGRAM: [&str; 2] = ["extensions", "gqlvalidate"];

impl Key {
    /// The key as it is written.
    pub fn name(self) -> &'static str
        ensures { result.now ≡ name_of self }
    {
        match self {
            Key::Schema => "schema",
            Key::Documents => "documents",
            Key::Include => "include",
            Key::Exclude => "exclude",
            Key::Projects => "projects",
            Key::Extensions => "extensions",
            Key::Program => "gqlvalidate",
            Key::Fragments => "fragments",
            Key::Rules => "rules",
            Key::Client => "client",
            Key::Federation => "federation",
        }
    }

    /// The keys that lead from a project to the table with this key.
    pub fn parents(self) -> &'static [&'static str] {
        match self {
            Key::Schema
            | Key::Documents
            | Key::Include
            | Key::Exclude
            | Key::Projects
            | Key::Extensions => &[],
            Key::Program => &IN_EXTENSIONS,
            Key::Fragments | Key::Rules | Key::Client | Key::Federation => &IN_PROGRAM,
        }
    }
}
