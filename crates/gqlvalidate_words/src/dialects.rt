//! The dialects that a command line names.

use clap::{Arg, ArgAction, ArgMatches, Command, Error};
use gqlvalidate_dialects::{CLIENTS, ClientName, Dialect, VERSIONS, is_federation_version};
use std::alloc::Global;

/// The names of the arguments.
pub const FEDERATION: &str = "federation";

pub const CLIENT: &str = "client";

/// The dialect that the arguments name, of a command with both options.
pub(crate) fn dialect_of(given: &ArgMatches<'_>) -> Dialect {
    Dialect {
        federation: is_federation(given),
        client: given.get_str(CLIENT).and_then(ClientName::named),
    }
}

/// Whether the schema is a subgraph of Federation.
pub(crate) fn is_federation(given: &ArgMatches<'_>) -> bool {
    given.get_str(FEDERATION).is_some_and(is_federation_version)
}

/// Adds the options that name a dialect of the schema and of documents.
pub(crate) fn with_dialect<'a>(alloc: Global, command: Command<'a>) -> Result<Command<'a>, Error> {
    let command = with_federation(alloc, command)?;
    Ok(command.arg(client(alloc))?)
}

/// Adds the option that names a dialect of the schema.
pub(crate) fn with_federation<'a>(
    alloc: Global,
    command: Command<'a>,
) -> Result<Command<'a>, Error> {
    Ok(command.arg(federation(alloc))?)
}

fn federation<'a>(alloc: Global) -> Arg<'a> {
    Arg::new(alloc, FEDERATION)
        .long(FEDERATION)
        .value_name("VERSION")
        .help(
            "Read the schema as a subgraph of Apollo Federation: its directives are defined, and an extension may define its type",
        )
        .value_parser(VERSIONS.as_slice())
        .action(ArgAction::Set)
}

fn client<'a>(alloc: Global) -> Arg<'a> {
    Arg::new(alloc, CLIENT)
        .long(CLIENT)
        .value_name("NAME")
        .help("Define the directives of this client, which documents may use")
        .value_parser(CLIENTS.as_slice())
        .action(ArgAction::Set)
}
