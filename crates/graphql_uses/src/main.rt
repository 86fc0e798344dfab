//! Validates the texts of a schema and of a document, as the README shows it.
#![tactic(auto)]

ghost use Rattle.std.specs.Prelude.{◌≡◌, Ok, true};
ghost use Rattle.graphql_frontend.specs.Verdicts.{IsValidText};

use graphql_frontend::{Bounds, ValidationError, Verdict, validate_texts};
use std::alloc::Global;
use std::process::ExitCode;

/// Whether both texts are GraphQL, they build, and every rule holds. The only error is a failed allocation.
fn is_valid(
    alloc: Global,
    schema: &str,
    document: &str,
    bounds: Bounds,
) -> Result<bool, ValidationError>
    ensures { result ≡ Ok true → IsValidText bounds schema.now document.now }
{
    match validate_texts(alloc, schema, document, bounds)? {
        Verdict::Valid => Ok(true),
        _ => Ok(false),
    }
}

fn main(rt: HostRuntime) -> ExitCode {
    let schema = "type Query { user(id: ID!): User } type User { name: String }";
    let document = "{ user(id: 1) { name } }";
    match is_valid(rt.alloc(), schema, document, Bounds::DEFAULT) {
        Ok(true) => ExitCode::SUCCESS,
        _ => ExitCode::from(1),
    }
}
