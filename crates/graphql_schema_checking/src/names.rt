//! The names of types and directives that may be there once.

ghost use Rattle.std.specs.Prelude.{◌≡◌, ◌∷◌, ◌++◌, [], IfOk, OnOk, filter, map, not};
ghost use Rattle.graphql_schema_checking.specs.Definitions.{is_built_in_name, is_built_in_scalar_text, redefines_scalar};
ghost use Rattle.graphql_schema_checking.specs.SchemaReports.{repeatable_type_names};
ghost use Rattle.graphql_repetitions.specs.References.{nows};

use crate::kinds::type_name;
use graphql_nodes::{FileId, Name, ValidationError};
use graphql_trees::{DirectiveDefinition, TypeDefinition};
use std::alloc::Global;

/// The names of the types, but for those of built-in scalars that a text defines. The only error is a
/// failed allocation.
pub(crate) fn repeatable_type_names<'a>(
    alloc: Global,
    types: &[&'a TypeDefinition],
) -> Result<Vec<&'a Name>, ValidationError>
    ensures { IfOk result (λ names. nows names.items ≡ repeatable_type_names (nows types.now)) }
{
    let mut names = Vec::new(alloc);
    for definition in types {
        if !redefines_scalar(*definition) {
            names.push(type_name(*definition))?;
        }
    }
    Ok(names)
}

/// Whether a text defines a built-in scalar.
///
/// Specification: 3.5 Scalars.
pub(crate) fn redefines_scalar(definition: &TypeDefinition) -> bool
    ensures { result ≡ redefines_scalar definition.now }
{
    matches!(definition, TypeDefinition::Scalar(_))
        && is_built_in_scalar(type_name(definition).as_str())
        && !is_built_in(type_name(definition))
}

fn is_built_in_scalar(text: &str) -> bool
    ensures { result ≡ is_built_in_scalar_text text.now }
{
    text == "Int" || text == "Float" || text == "String" || text == "Boolean" || text == "ID"
}

/// Whether the name stands in the file of the definitions that every schema has.
///
/// Specification: 3.5 Scalars; 3.13 Directives.
pub fn is_built_in(name: &Name) -> bool
    ensures { result ≡ is_built_in_name name.now }
{
    match name.location() {
        Some(place) => place.file_id.0 == FileId::BUILT_IN.0,
        None => false,
    }
}

/// The names of directives: those that texts define, and those that every schema has.
#[derive(Drop)]
pub(crate) struct DirectiveNames<'a> {
    pub(crate) own: Vec<&'a Name>,
    pub(crate) built_in: Vec<&'a Name>,
}

impl<'a> DirectiveNames<'a> {
    /// The names of these directives. The only error is a failed allocation.
    pub(crate) fn of(
        alloc: Global,
        directives: &[&'a DirectiveDefinition],
    ) -> Result<DirectiveNames<'a>, ValidationError>
        ensures own { IfOk result (λ names. nows names.own.items ≡
            filter (λ name. not (is_built_in_name name)) (map (λ d. d.name) (nows directives.now))) }
        ensures built_in { IfOk result (λ names. nows names.built_in.items ≡
            filter is_built_in_name (map (λ d. d.name) (nows directives.now))) }
    {
        let mut names = DirectiveNames {
            own: Vec::new(alloc),
            built_in: Vec::new(alloc),
        };
        for directive in directives {
            names.add(&directive.name)?;
        }
        Ok(names)
    }

    fn add(&mut self, name: &'a Name) -> Result<(), ValidationError>
        ensures own { OnOk result (nows self.new.own.items ≡
            nows self.old.own.items ++ filter (λ name. not (is_built_in_name name)) (name.now ∷ [])) }
        ensures built_in { OnOk result (nows self.new.built_in.items ≡
            nows self.old.built_in.items ++ filter is_built_in_name (name.now ∷ [])) }
    {
        if is_built_in(name) {
            self.built_in.push(name)?;
        } else {
            self.own.push(name)?;
        }
        Ok(())
    }
}
