ghost use Rattle.std.specs.Option.{option_copied};
ghost use Rattle.std.specs.Prelude.{◌≡◌, ◌∷◌, ◌++◌, [], IfOk, List, OnOk};
ghost use Rattle.graphql_documents.specs.Definitions.{variable_named};
ghost use Rattle.graphql_documents.specs.declared.documents.definitions.VariableDefinition.{VariableDefinition};
ghost use Rattle.graphql_nodes.specs.declared.nodes.Node.{Node};
ghost use Rattle.graphql_variables.specs.VariablesByName.{FindsFirst};

use graphql_documents::documents::VariableDefinition;
use graphql_hash_seeds::HashSeed;
use graphql_nodes::{Name, Node, ValidationError};
use std::alloc::Global;
use std::collections::HashMap;
use std::marker::Model;

/// Up to so many variables are looked through for each name: that takes no memory, and no more time than a map.
const FEW: usize = 8;

/// The first variable of each name.
type FirstOfEachName<'a> = HashMap<&'a Name, &'a Node<VariableDefinition>, HashSeed>;

/// The variables of an operation, each found by its name in about constant time. Of those with one name the first is
/// found.
///
/// Specification: 5.8.1 Variable Uniqueness.
#[derive(Drop)]
pub struct VariablesByName<'a> {
    definitions: &'a [Node<VariableDefinition>],
    // none where the variables are few
    first: Option<FirstOfEachName<'a>>,
}

impl<'a> Model for VariablesByName<'a> {
    ghost use Rattle.std.specs.Option.{ForSome};
    ghost use Rattle.std.specs.Prelude.{List};
    ghost use Rattle.graphql_documents.specs.declared.documents.definitions.VariableDefinition.{VariableDefinition};
    ghost use Rattle.graphql_nodes.specs.declared.nodes.Node.{Node};
    ghost use Rattle.graphql_variables.specs.VariablesByName.{FindsFirst};
    ghost use Rattle.graphql_documents.specs.contracts.documents.type_references.Type as types;
    ghost use Rattle.graphql_documents.specs.contracts.documents.values.Value as values;
    ghost use Rattle.std.specs.Coded.{codes};

    ghost Value = { List (Node VariableDefinition) };

    ghost coded = { Prim.hlevel (codes, types.the_row.coded, values.the_row.coded) };

    ghost view = { λ variables. variables.definitions.now };

    ghost invariant = { λ variables. ForSome variables.first (λ first. FindsFirst first variables.definitions.now) };
}

impl<'a> VariablesByName<'a> {
    /// The variables with these definitions, their names hashed by this seed. The only error is a failed allocation; few
    /// variables take no memory.
    pub fn new(
        alloc: Global,
        hash_seed: HashSeed,
        definitions: &'a [Node<VariableDefinition>],
    ) -> Result<VariablesByName<'a>, ValidationError>
        ensures { IfOk result (λ variables. variables ≡ definitions.now) }
    {
        if definitions.len() <= FEW {
            return Ok(VariablesByName {
                definitions,
                first: None,
            });
        }
        let first = first_of_each_name(alloc, hash_seed, definitions)?;
        Ok(VariablesByName {
            definitions,
            first: Some(first),
        })
    }

    /// The first variable with this name.
    pub fn find(&self, name: &Name) -> Option<&'a Node<VariableDefinition>>
        ensures { option_copied result ≡ variable_named name.now self.now }
    {
        match &self.first {
            None => first_named(self.definitions, name),
            Some(first) => first.get(&name).copied(),
        }
    }
}

/// The first of these variables that has the name.
fn first_named<'a>(
    definitions: &'a [Node<VariableDefinition>],
    name: &Name,
) -> Option<&'a Node<VariableDefinition>>
    ensures { option_copied result ≡ variable_named name.now definitions.now }
{
    definitions
        .iter()
        .find(|definition| definition.value.name == *name)
}

/// The first variable of each name.
fn first_of_each_name<'a>(
    alloc: Global,
    hash_seed: HashSeed,
    definitions: &'a [Node<VariableDefinition>],
) -> Result<FirstOfEachName<'a>, ValidationError>
    ensures { IfOk result (λ first. FindsFirst first definitions.now) }
{
    let mut first = HashMap::with_hasher(alloc, hash_seed);
    for definition in definitions {
        add_if_new(&mut first, definition)?;
    }
    Ok(first)
}

/// Adds a variable, unless one of its name is there.
fn add_if_new<'a>(
    first: &mut FirstOfEachName<'a>,
    definition: &'a Node<VariableDefinition>,
) -> Result<(), ValidationError>
    ensures { OnOk result ((before : List (Node VariableDefinition)) → FindsFirst first.old before →
        FindsFirst first.new (before ++ definition.now ∷ [])) }
{
    let name = &definition.value.name;
    if !first.contains_key(&name) {
        first.insert(name, definition)?;
    }
    Ok(())
}
