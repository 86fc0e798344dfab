//! Files of a run, some of which have several texts.

ghost use Rattle.std.specs.BTreeMap.{get_by};
ghost use Rattle.std.specs.Option.{unwrap_or};
ghost use Rattle.std.specs.Ordering.{nat_cmp};
ghost use Rattle.std.specs.Prelude.{◌≡◌};

use gqlvalidate_formats::Finding;
use gqlvalidate_formats::named_texts::{NamedText, Subject};
use std::alloc::{AllocError, Global};
use std::collections::BTreeMap;

/// The number of the first text of the file of this text.
pub fn first_of(file: u32, firsts: &BTreeMap<u32, u32>) -> u32
    ensures { result ≡ unwrap_or (get_by (nat_cmp file) firsts.now) file }
{
    firsts.get(&file).copied().unwrap_or(file)
}

/// Where a finding is: its file, by the number of the first text, and the bytes at which it begins and ends. What has no place comes first.
pub fn place_in(finding: &Finding<'_>, firsts: &BTreeMap<u32, u32>) -> Option<(u32, u32, u32)> {
    let place = finding.report.location?;
    Some((first_of(place.file_id.0, firsts), place.start, place.end))
}

/// The number of the first text of the same file, by the number of each text: the parts of a text come after it, under its path.
pub fn first_texts(
    alloc: Global,
    texts: &[NamedText<'_>],
) -> Result<BTreeMap<u32, u32>, AllocError> {
    let mut firsts = BTreeMap::new(alloc);
    let mut path = None;
    let mut first = 0_u32;
    for text in texts {
        let number = text.source.file_id.0;
        if text.path.is_none() || text.path != path {
            path = text.path;
            first = number;
        }
        firsts.insert(number, first)?;
    }
    Ok(firsts)
}

/// Sorts findings by their places.
pub fn sort(
    alloc: Global,
    findings: &mut Vec<Finding<'_>>,
    subject: Subject<'_>,
) -> Result<(), AllocError> {
    let firsts = first_texts(alloc, subject.texts)?;
    findings.sort_by(|a, b| place_in(a, &firsts).cmp(&place_in(b, &firsts)))?;
    Ok(())
}
