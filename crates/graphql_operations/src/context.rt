ghost use Rattle.std.specs.Option.{option_copied};
ghost use Rattle.std.specs.Prelude.{◌≡◌, IfSome, Some};
ghost use Rattle.std.specs.Coded.{Coded-set, codes};
ghost use Rattle.std.proofs.Props.{props};
ghost use Rattle.graphql_documents.specs.contracts.documents.schemas.Schema as schema_type;

use super::possible_types::PossibleTypes;
use graphql_documents::documents::{ExtendedType, Schema};
use graphql_hash_seeds::HashSeed;
use graphql_nodes::{Name, ValidationError};
use graphql_variables::VariablesByName;
use indexmap::IndexSet;
use std::alloc::Global;

/// What the checks of an operation's selections share: the schema, if there is one, the variables, and
/// the names of the fragments that were visited. Which objects are values of which types is found on
/// first need, and kept.
#[derive(Drop)]
pub struct OperationValidationContext<'a> {
    pub schema: Option<&'a Schema>,
    pub variables: VariablesByName<'a>,
    pub visited_fragments: IndexSet<&'a Name, HashSeed>,
    possible_types: Option<PossibleTypes<'a>>,
    ghost possible: { IfSome possible_types (λ possible. option_copied schema ≡ Some possible.schema.now) } by { Prim.hlevel (props, Coded-set, codes, schema_type.the_row.coded) },
}

impl<'a> OperationValidationContext<'a> {
    ghost use Rattle.std.specs.Option.{option_copied};
    ghost use Rattle.std.specs.Prelude.{◌≡◌, ◌↔◌, [], not, IfOk, IsTrue, OnErr, OnOk, Some};
    ghost use Rattle.graphql_specification.specs.Fragments.{HaveCommonObject};
    ghost use Rattle.graphql_nodes.specs.Names.{stands_on, with_name};
    ghost use Rattle.graphql_operations.specs.Contexts.{SharesWith, visited_fragment_names, schema_of, variables_of};

    /// The context of an operation with these variables, which has visited no fragment. It takes no
    /// memory; what it holds later grows by this allocator, and is hashed by this seed.
    pub fn new(
        alloc: Global,
        hash_seed: HashSeed,
        schema: Option<&'a Schema>,
        variables: VariablesByName<'a>,
    ) -> OperationValidationContext<'a>
        ensures schema { schema_of result ≡ option_copied schema.entry }
        ensures variables { variables_of result ≡ variables.entry }
        ensures visited_fragments { visited_fragment_names result ≡ [] }
    {
        OperationValidationContext {
            schema,
            variables,
            visited_fragments: IndexSet::with_hasher(alloc, hash_seed),
            possible_types: None,
        }
    }

    /// The context of the next operation of the document, with these variables: it has visited no
    /// fragment, and keeps what was found of the schema. It takes no memory.
    pub fn next(
        self,
        alloc: Global,
        variables: VariablesByName<'a>,
    ) -> OperationValidationContext<'a>
        ensures schema { schema_of result ≡ schema_of self.entry }
        ensures variables { variables_of result ≡ variables.entry }
        ensures visited_fragments { visited_fragment_names result ≡ [] }
    {
        let visited_fragments = IndexSet::with_hasher(alloc, *self.visited_fragments.hasher());
        OperationValidationContext {
            schema: self.schema,
            variables,
            visited_fragments,
            possible_types: self.possible_types,
        }
    }

    /// Goes into the fragment of this name, and answers whether it is the first time. The only error is a
    /// failed allocation.
    pub fn enter(&mut self, name: &'a Name) -> Result<bool, ValidationError>
        ensures is_new { IfOk result (λ new. new ≡ not (stands_on (visited_fragment_names self.old) name.now)) }
        ensures names { OnOk result (visited_fragment_names self.new ≡ with_name (visited_fragment_names self.old) name.now) }
        ensures kept { OnErr result (visited_fragment_names self.new ≡ visited_fragment_names self.old) }
        ensures shared { SharesWith self.old self.new }
    {
        Ok(self.visited_fragments.insert(name)?)
    }

    /// Whether some object is a value of both types of the schema. The only error is a failed allocation.
    pub(crate) fn have_common_object(
        &mut self,
        alloc: Global,
        schema: &'a Schema,
        a: &ExtendedType,
        b: &ExtendedType,
    ) -> Result<bool, ValidationError>
        requires { option_copied self.old.schema ≡ Some schema.now }
        ensures common { IfOk result (λ common. IsTrue common ↔ HaveCommonObject schema.now a.now b.now) }
        ensures schema { self.new.schema ≡ self.old.schema }
        ensures variables { self.new.variables ≡ self.old.variables }
        ensures visited_fragments { self.new.visited_fragments ≡ self.old.visited_fragments }
    {
        match &self.possible_types {
            Some(possible) => Ok(possible.have_common_object(a, b)),
            None => {
                let possible = PossibleTypes::new(alloc, schema)?;
                let common = possible.have_common_object(a, b);
                self.possible_types = Some(possible);
                Ok(common)
            }
        }
    }
}
