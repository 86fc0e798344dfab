//! Names.

ghost use Rattle.std.specs.Prelude.{◌≡◌};
ghost use Rattle.std.specs.List.{list_all};
ghost use Rattle.graphql_nodes.specs.Names.{continues_name, is_name, starts_name};

/// Whether the text is a GraphQL name: a letter or `_`, then letters, digits and `_`.
///
/// Specification: 2.1.9 Names.
pub fn is_name(text: &str) -> bool
    ensures { result ≡ is_name text.now }
{
    match text.as_bytes() {
        [] => false,
        [first, rest @ ..] => is_name_start(*first) && all_continue_name(rest),
    }
}

fn all_continue_name(rest: &[u8]) -> bool
    ensures { result ≡ list_all continues_name rest.now }
{
    rest.iter().all(|c| is_name_continue(*c))
}

fn is_name_start(c: u8) -> bool
    ensures { result ≡ starts_name c }
{
    c.is_ascii_alphabetic() || c == b'_'
}

fn is_name_continue(c: u8) -> bool
    ensures { result ≡ continues_name c }
{
    c.is_ascii_alphanumeric() || c == b'_'
}

/// Whether the name is reserved for introspection.
///
/// Specification: 4.1 Reserved Names.
pub(crate) fn is_reserved(name: &str) -> bool {
    matches!(name.as_bytes(), [b'_', b'_', ..])
}

/// Whether every schema has a scalar of this name.
pub(crate) fn is_built_in_scalar(name: &str) -> bool {
    matches!(name, "Int" | "Float" | "String" | "Boolean" | "ID")
}

/// Whether every schema has a directive of this name.
pub(crate) fn is_built_in_directive(name: &str) -> bool {
    matches!(name, "skip" | "include" | "deprecated" | "specifiedBy")
}
