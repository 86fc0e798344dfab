//! The directives of clients.

ghost use Rattle.std.specs.Prelude.{IfOk, string_bytes};
ghost use Rattle.graphql_schema_checking.specs.Definitions.{definitions_in};
ghost use Rattle.graphql_dialects.specs.Lacking.{AddsOnlyLacking};

use crate::client_tables::{
    apollo_directives, apollo_types, relay_directives, relay_types, urql_directives,
};
use crate::definitions::definitions_lacking;
use crate::rows::Row;
use graphql_nodes::ValidationError;
use graphql_schema_checking::definitions::SortedDefinitions;
use graphql_trees::Document;
use std::alloc::Global;

/// A client whose documents have directives of its own, which it takes out or handles before a server sees them.
#[derive(Clone, Copy)]
pub enum Client {
    /// Apollo Client.
    Apollo,
    Relay,
    Urql,
}

/// The definitions of the client's directives that these texts lack, as a text. The only error is a failed allocation.
///
/// Relay's `@arguments` and `@argumentDefinitions` are not defined: they give a fragment variables, which the specification does not have.
pub fn client_definitions(
    alloc: Global,
    client: Client,
    trees: &[Document],
) -> Result<String, ValidationError>
    ensures { IfOk result (λ text. AddsOnlyLacking (definitions_in trees.now) (string_bytes text)) }
{
    let sorted = SortedDefinitions::of(alloc, trees)?;
    Ok(definitions_lacking(alloc, &sorted, types_of(client), directives_of(client))?)
}

/// The types that definitions of the client's directives name.
fn types_of(client: Client) -> &'static [Row<'static>] {
    match client {
        Client::Apollo => apollo_types(),
        Client::Relay => relay_types(),
        Client::Urql => &[],
    }
}

fn directives_of(client: Client) -> &'static [Row<'static>] {
    match client {
        Client::Apollo => apollo_directives(),
        Client::Relay => relay_directives(),
        Client::Urql => urql_directives(),
    }
}
