//! Spreads of fragments, and how far a search went through those of a set.

ghost use Rattle.std.specs.Prelude.{◌≡◌, IfOk, slice_get};
ghost use Rattle.graphql_nesting.specs.Spreads.{AddsKnown, GoesOn, StopsAt};

use graphql_nodes::ValidationError;

/// A spread of a defined fragment: the number of the fragment, and how many levels are above its set.
#[derive(Clone, Copy, Debug)]
pub(crate) struct PlacedSpread {
    pub(crate) fragment: usize,
    pub(crate) above: usize,
}

/// How far a search went through the spreads of a set: the number of the next one, and the most levels that it found.
#[derive(Clone, Copy, Debug)]
pub(crate) struct Progress {
    pub(crate) next: usize,
    pub(crate) levels: usize,
}

/// A fragment whose spreads were gone through so far.
#[derive(Clone, Copy, Debug)]
pub(crate) struct WaitingFragment {
    pub(crate) fragment: usize,
    pub(crate) progress: Progress,
}

/// The levels of a fragment, once they are known; until then the fragments that wait for them.
#[derive(Debug, Drop)]
pub(crate) enum FragmentLevels {
    Known(usize),
    Awaited(Vec<WaitingFragment>),
}

/// Goes on through the spreads of a set: up to the first of a fragment whose levels are not known, or to the end. Fails where a
/// number of levels does not fit: no memory holds so many sets.
pub(crate) fn go_on(
    known: &[FragmentLevels],
    spreads: &[PlacedSpread],
    start: Progress,
) -> Result<Progress, ValidationError>
    ensures { IfOk result (λ end. GoesOn known.now spreads.now start end × StopsAt known.now spreads.now end.next) }
{
    let mut progress = start;
    while progress.next < spreads.len() {
        let Some(levels) = levels_through(known, &spreads[progress.next])? else {
            return Ok(progress);
        };
        progress = Progress {
            next: progress.next + 1,
            levels: progress.levels.max(levels),
        };
    }
    Ok(progress)
}

/// The spread of this number, if there is one.
pub(crate) fn spread_at(spreads: &[PlacedSpread], number: usize) -> Option<PlacedSpread>
    ensures { result ≡ slice_get spreads.now number }
{
    spreads.get(number).copied()
}

/// The levels of the ways down through a spread, if those of its fragment are known.
fn levels_through(
    known: &[FragmentLevels],
    spread: &PlacedSpread,
) -> Result<Option<usize>, ValidationError>
    ensures { IfOk result (AddsKnown known.now spread.now) }
{
    match known.get(spread.fragment) {
        Some(FragmentLevels::Known(levels)) => match spread.above.checked_add(*levels) {
            Some(levels) => Ok(Some(levels)),
            None => Err(ValidationError::OutOfMemory),
        },
        _ => Ok(None),
    }
}
