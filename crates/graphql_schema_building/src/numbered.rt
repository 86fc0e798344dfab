//! The extensions of texts, with their numbers among all definitions.

ghost use Rattle.std.specs.Prelude.{◌≡◌, ◌+◌, ◌++◌, ◌∷◌, [], IfOk, OnOk, filter_map, length};
ghost use Rattle.graphql_schema_checking.specs.Definitions.{definitions_in};
ghost use Rattle.graphql_schema_building.specs.Numbered.{AreNumbered, schema_originated};
ghost use Rattle.graphql_schema_building.specs.TypeParts.{originated};
ghost use Rattle.graphql_schema_building.specs.Parts.{as_schema_extension, as_type_extension, extension_origin, numbered_from};

use crate::types::TypePart;
use graphql_documents::documents::{ComponentOrigin, ExtensionId};
use graphql_nodes::{SourceSpan, ValidationError};
use graphql_schema_checking::kinds::type_span;
use graphql_trees::{Definition, Document, SchemaDefinition};
use std::alloc::Global;

/// A definition or an extension of the schema, with its origin.
///
/// Specification: 3.3.2 Schema Extension.
#[derive(Clone, Copy)]
pub struct SchemaPart<'a> {
    pub origin: ComponentOrigin,
    pub definition: &'a SchemaDefinition,
}

/// The extensions of texts, those of types and those of the schema, each with its number among all definitions
/// and its place.
///
/// Specification: 3.3.2 Schema Extension, 3.4.3 Type Extensions.
#[derive(Drop)]
pub struct NumberedExtensions<'a> {
    /// The number of definitions that were passed.
    pub passed: u32,
    pub types: Vec<TypePart<'a>>,
    pub schemas: Vec<SchemaPart<'a>>,
}

impl<'a> NumberedExtensions<'a> {
    /// The extensions of these texts, in order. Fails where an allocation fails, and where there are 2^32 definitions
    /// or more, which have no numbers.
    pub fn of(
        alloc: Global,
        trees: &'a [Document],
    ) -> Result<NumberedExtensions<'a>, ValidationError>
        ensures { IfOk result (AreNumbered (definitions_in trees.now)) }
    {
        let mut extensions = NumberedExtensions {
            passed: 0,
            types: Vec::new(alloc),
            schemas: Vec::new(alloc),
        };
        for tree in trees {
            extensions.add_all(tree.definitions.as_slice())?;
        }
        Ok(extensions)
    }

    fn add_all(&mut self, definitions: &'a [Definition]) -> Result<(), ValidationError>
        ensures passed { OnOk result (self.new.passed ≡ self.old.passed + length definitions.now) }
        ensures types { OnOk result (originated self.new.types.items ≡
            originated self.old.types.items ++ filter_map as_type_extension (numbered_from self.old.passed definitions.now)) }
        ensures schemas { OnOk result (schema_originated self.new.schemas.items ≡
            schema_originated self.old.schemas.items ++ filter_map as_schema_extension (numbered_from self.old.passed definitions.now)) }
    {
        for definition in definitions {
            self.add(definition)?;
            self.passed = next_number(self.passed)?;
        }
        Ok(())
    }

    fn add(&mut self, definition: &'a Definition) -> Result<(), ValidationError>
        ensures passed { OnOk result (self.new.passed ≡ self.old.passed) }
        ensures types { OnOk result (originated self.new.types.items ≡
            originated self.old.types.items ++ filter_map as_type_extension ((self.old.passed, definition.now) ∷ [])) }
        ensures schemas { OnOk result (schema_originated self.new.schemas.items ≡
            schema_originated self.old.schemas.items ++ filter_map as_schema_extension ((self.old.passed, definition.now) ∷ [])) }
    {
        match definition {
            Definition::TypeExtension(definition) => {
                let origin = extension_origin(self.passed, type_span(definition));
                self.types.push(TypePart { origin, definition })?;
            }
            Definition::SchemaExtension(definition) => {
                let origin = extension_origin(self.passed, definition.span);
                self.schemas.push(SchemaPart { origin, definition })?;
            }
            _ => {}
        }
        Ok(())
    }
}

fn next_number(number: u32) -> Result<u32, ValidationError>
    ensures { IfOk result (λ next. next ≡ number + 1) }
{
    match number.checked_add(1) {
        Some(next) => Ok(next),
        None => Err(ValidationError::OutOfMemory),
    }
}

fn extension_origin(number: u32, span: SourceSpan) -> ComponentOrigin
    ensures { result ≡ extension_origin number span }
{
    ComponentOrigin::Extension(ExtensionId {
        number,
        location: Some(span),
    })
}
