//! What is between tokens.

ghost use Rattle.std.specs.Prelude.{◌≡◌};
ghost use Rattle.graphql_tokens.specs.Scans.{Gives, ignored_at, after_return, after_all};

use crate::characters::{Class, after_run, is_blank, strip};

/// The text behind the ignored token that it begins with, if it begins with one.
///
/// Specification: 2.1.7 Ignored Tokens.
#[inline(always)]
#[tactic(auto, unfolding(crate::specs::Scans::ignored_at))]
fn ignored(text: &[u8]) -> Option<&[u8]>
    ensures { Gives (λ rest. rest.now) result (ignored_at text.now) }
{
    let [first, rest @ ..] = text else {
        return None;
    };
    if is_blank(*first) {
        Some(rest)
    } else if *first == b'\r' {
        Some(after_return(rest))
    } else if *first == b'#' {
        Some(after_run(rest, Class::Comment))
    } else if *first == 0xEF {
        strip(strip(rest, 0xBB)?, 0xBF)
    } else {
        None
    }
}

/// The text behind all that is ignored at its start.
#[inline(always)]
pub(crate) fn after_ignored(text: &[u8]) -> &[u8]
    ensures { result.now ≡ after_all ignored_at text.now }
{
    let mut rest = after_run(text, Class::Blank);
    while let Some(behind) = ignored(rest) {
        rest = after_run(behind, Class::Blank);
    }
    rest
}

fn after_return(rest: &[u8]) -> &[u8]
    ensures { result.now ≡ after_return rest.now }
{
    match strip(rest, b'\n') {
        Some(behind) => behind,
        None => rest,
    }
}
