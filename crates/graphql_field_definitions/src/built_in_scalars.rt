ghost use Rattle.std.specs.Prelude.{◌≡◌, ◌&&◌, ◌∷◌, [], IsFalse, List, not, ℕ};
ghost use Rattle.std.specs.List.{list_all};
ghost use Rattle.graphql_specification.specs.BuiltInScalars.{built_in_scalar_names, names_built_in_scalar};
ghost use Rattle.graphql_field_definitions.specs.BuiltInScalarUses.{Records, holds_text};

use graphql_documents::documents::Schema;
use graphql_nodes::NamedType;

/// The built-in scalars that a schema refers to, as far as it was gone over.
///
/// Specification: 3.5 Scalars, Built-in Scalars.
#[derive(Debug, Drop)]
pub struct BuiltInScalars {
    int: bool,
    float: bool,
    string: bool,
    boolean: bool,
    id: bool,
}

impl BuiltInScalars {
    /// No built-in scalar was visited.
    pub fn new() -> BuiltInScalars
        ensures { (text : List ℕ) → IsFalse (holds_text result text) }
    {
        BuiltInScalars {
            int: false,
            float: false,
            string: false,
            boolean: false,
            id: false,
        }
    }

    /// Records that the schema refers to the type of this name. Answers whether it is a built-in scalar's.
    pub fn record_type_ref(&mut self, _schema: &Schema, name: &NamedType) -> bool
        ensures known { result ≡ names_built_in_scalar name.now.text }
        ensures records { Records self.old self.new (name.now ∷ []) }
    {
        match name.as_str() {
            "Int" => self.int = true,
            "Float" => self.float = true,
            "String" => self.string = true,
            "Boolean" => self.boolean = true,
            "ID" => self.id = true,
            _ => return false,
        }
        true
    }

    /// Whether the built-in scalar of this name was visited.
    pub fn uses(&self, name: &str) -> bool
        ensures { result ≡ holds_text self.now name.now }
    {
        match name {
            "Int" => self.int,
            "Float" => self.float,
            "String" => self.string,
            "Boolean" => self.boolean,
            "ID" => self.id,
            _ => false,
        }
    }

    /// Whether the name is that of a built-in scalar which was not visited.
    pub fn lacks(&self, name: &NamedType) -> bool
        ensures { result ≡ (names_built_in_scalar name.now.text && not (holds_text self.now name.now.text)) }
    {
        match name.as_str() {
            "Int" => !self.int,
            "Float" => !self.float,
            "String" => !self.string,
            "Boolean" => !self.boolean,
            "ID" => !self.id,
            _ => false,
        }
    }

    /// Whether all of them were visited.
    pub fn all_used(&self) -> bool
        ensures { result ≡ list_all (holds_text self.now) built_in_scalar_names }
    {
        self.int && self.float && self.string && self.boolean && self.id
    }
}
