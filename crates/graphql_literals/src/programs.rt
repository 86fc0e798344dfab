//! Files that are programs.

ghost use Rattle.std.specs.Prelude.{◌≡◌, nat_eq};
ghost use Rattle.std.specs.List.{ends_with};
ghost use Rattle.graphql_literals.specs.Programs.{is_component, is_javascript, is_program, is_typescript};

/// Whether a path is that of a program in which there may be literals. Only its extension decides: `.ts`, `.tsx`, `.mts`, `.cts`, `.js`, `.jsx`,
/// `.mjs`, `.cjs`, `.vue` or `.svelte`, in lower case.
pub fn is_program(path: &str) -> bool
    ensures { result ≡ is_program path.now }
{
    is_typescript(path) || is_javascript(path) || is_component(path)
}

fn is_typescript(path: &str) -> bool
    ensures { result ≡ is_typescript path.now }
{
    has_ending(path, ".ts")
        || has_ending(path, ".tsx")
        || has_ending(path, ".mts")
        || has_ending(path, ".cts")
}

fn is_javascript(path: &str) -> bool
    ensures { result ≡ is_javascript path.now }
{
    has_ending(path, ".js")
        || has_ending(path, ".jsx")
        || has_ending(path, ".mjs")
        || has_ending(path, ".cjs")
}

/// Whether it is a file of a framework, in which a program is a part.
fn is_component(path: &str) -> bool
    ensures { result ≡ is_component path.now }
{
    has_ending(path, ".vue") || has_ending(path, ".svelte")
}

fn has_ending(path: &str, ending: &str) -> bool
    ensures { result ≡ ends_with nat_eq path.now ending.now }
{
    path.ends_with(ending)
}
