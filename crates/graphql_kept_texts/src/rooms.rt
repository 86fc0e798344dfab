//! Where a field may come in the place of others.

use crate::cuts::{Cut, Fill, TYPE_NAME};
use graphql_blanks::Part;
use graphql_nodes::SourceSpan;
use std::alloc::AllocError;

/// The part of a text at this place.
pub(crate) fn part_at(place: SourceSpan) -> Part {
    Part {
        start: place.start as usize,
        end: place.end as usize,
    }
}

/// Cuts what is at this place.
pub(crate) fn cut_at(place: SourceSpan, cuts: &mut Vec<Cut>) -> Result<(), AllocError> {
    cut_part(part_at(place), cuts)
}

/// Cuts this part.
pub(crate) fn cut_part(part: Part, cuts: &mut Vec<Cut>) -> Result<(), AllocError> {
    cuts.push(Cut {
        part,
        fill: Fill::Blank,
    })?;
    Ok(())
}

/// Cuts all that is in the braces of the set at this place, but for `__typename`, which comes first if there is room for it. False, and nothing is
/// cut, if there is none.
pub(crate) fn fill_set(
    text: &str,
    set: SourceSpan,
    cuts: &mut Vec<Cut>,
) -> Result<bool, AllocError> {
    let Part { start, end } = part_at(set);
    let start = start.saturating_add(1);
    let end = end.saturating_sub(1);
    let Some(inner) = text.as_bytes().get(start..end) else {
        return Ok(false);
    };
    let Some(room) = room_in(inner) else {
        return Ok(false);
    };
    let room = start.saturating_add(room);
    let behind = room.saturating_add(TYPE_NAME.len());
    cut_part(Part { start, end: room }, cuts)?;
    cuts.push(Cut {
        part: Part {
            start: room,
            end: behind,
        },
        fill: Fill::TypeName,
    })?;
    cut_part(Part { start: behind, end }, cuts)?;
    Ok(true)
}

/// The first of as many bytes in a line as `__typename` has.
fn room_in(bytes: &[u8]) -> Option<usize> {
    let mut first = 0_usize;
    for (position, byte) in bytes.iter().enumerate() {
        if *byte == b'\n' || *byte == b'\r' {
            first = position.saturating_add(1);
        } else if position.saturating_sub(first).saturating_add(1) == TYPE_NAME.len() {
            return Some(first);
        }
    }
    None
}
