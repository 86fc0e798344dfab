//! Dialects, and how a command line or a configuration names them.

ghost use Rattle.std.specs.Option.{option_or};
ghost use Rattle.std.specs.Prelude.{◌≡◌, ◌||◌};
ghost use Rattle.gqlvalidate_dialects.specs.Dialects.{client_named, is_version};

/// The names of the clients.
pub static CLIENTS: [&str; 3] = ["apollo", "relay", "urql"];

/// The versions of Apollo Federation.
pub static VERSIONS: [&str; 1] = ["2"];

/// A client whose documents have directives of its own.
#[derive(Clone, Copy, Debug, PartialEq, Eq)]
pub enum ClientName {
    Apollo,
    Relay,
    Urql,
}

impl ClientName {
    /// The client of this name, if there is one: `apollo`, `relay` or `urql`.
    pub fn named(name: &str) -> Option<ClientName>
        ensures { result ≡ client_named name.now }
    {
        if name == "apollo" {
            Some(ClientName::Apollo)
        } else if name == "relay" {
            Some(ClientName::Relay)
        } else if name == "urql" {
            Some(ClientName::Urql)
        } else {
            None
        }
    }
}

/// Whether this is a version of Apollo Federation as whose subgraph a schema can be read: `2`.
pub fn is_federation_version(version: &str) -> bool
    ensures { result ≡ is_version version.now }
{
    version == "2"
}

/// What the schema and the documents of a run mean beyond the specification.
#[derive(Clone, Copy, Debug, PartialEq, Eq)]
pub struct Dialect {
    /// The schema is a subgraph of Apollo Federation 2.
    pub federation: bool,
    /// The client that takes its own directives and fields out of the documents.
    pub client: Option<ClientName>,
}

impl Dialect {
    /// What the specification says, and no more.
    pub const NONE: Dialect = Dialect {
        federation: false,
        client: None,
    };

    /// This dialect, with what `over` names in place of its own.
    pub fn under(self, over: Dialect) -> Dialect
        ensures federation { result.federation ≡ (over.federation || self.federation) }
        ensures client { result.client ≡ option_or over.client self.client }
    {
        Dialect {
            federation: over.federation || self.federation,
            client: over.client.or(self.client),
        }
    }
}
