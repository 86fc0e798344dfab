//! The definitions of texts, by their kinds.

ghost use Rattle.std.specs.Prelude.{◌≡◌, ◌++◌, ◌∷◌, [], IfOk, OnOk, flat_map, map};
ghost use Rattle.graphql_schema_checking.specs.Definitions.{definitions_in};
ghost use Rattle.graphql_schema_checking.specs.Sorting.{AreSorted, AreSortedAfter};

use graphql_nodes::ValidationError;
use graphql_trees::{Definition, DirectiveDefinition, Document, SchemaDefinition, TypeDefinition};
use std::alloc::Global;

/// The definitions of texts, by their kinds, those of each in the order of the texts.
///
/// Specification: 2.2 Document, 3 Type System.
#[derive(Drop)]
pub struct SortedDefinitions<'a> {
    pub executables: Vec<&'a Definition>,
    pub schemas: Vec<&'a SchemaDefinition>,
    pub schema_extensions: Vec<&'a SchemaDefinition>,
    pub types: Vec<&'a TypeDefinition>,
    pub type_extensions: Vec<&'a TypeDefinition>,
    pub directives: Vec<&'a DirectiveDefinition>,
}

impl<'a> SortedDefinitions<'a> {
    /// The definitions of these texts. The only error is a failed allocation.
    pub fn of(
        alloc: Global,
        trees: &'a [Document],
    ) -> Result<SortedDefinitions<'a>, ValidationError>
        ensures { IfOk result (AreSorted (definitions_in trees.now)) }
    {
        let mut sorted = SortedDefinitions {
            executables: Vec::new(alloc),
            schemas: Vec::new(alloc),
            schema_extensions: Vec::new(alloc),
            types: Vec::new(alloc),
            type_extensions: Vec::new(alloc),
            directives: Vec::new(alloc),
        };
        for tree in trees {
            sorted.add_all(tree.definitions.as_slice())?;
        }
        Ok(sorted)
    }

    fn add_all(&mut self, definitions: &'a [Definition]) -> Result<(), ValidationError>
        ensures { OnOk result (AreSortedAfter self.old definitions.now self.new) }
    {
        for definition in definitions {
            self.add(definition)?;
        }
        Ok(())
    }

    fn add(&mut self, definition: &'a Definition) -> Result<(), ValidationError>
        ensures { OnOk result (AreSortedAfter self.old (definition.now ∷ []) self.new) }
    {
        match definition {
            Definition::Schema(schema) => self.schemas.push(schema)?,
            Definition::SchemaExtension(schema) => self.schema_extensions.push(schema)?,
            Definition::Type(definition) => self.types.push(definition)?,
            Definition::TypeExtension(definition) => self.type_extensions.push(definition)?,
            Definition::Directive(directive) => self.directives.push(directive)?,
            Definition::Operation(_) => self.executables.push(definition)?,
            Definition::Fragment(_) => self.executables.push(definition)?,
        }
        Ok(())
    }
}
