//! The texts of a project, with what is reported of them.

use crate::graphs::{Graph, affected_files};
use crate::links::{Links, links_of};
use crate::lists::{KeptList, lists_of, merged};
use graphql_frontend::{Bounds, ProjectReports, SourceText, ValidationError};
use std::alloc::{AllocError, Global};
use std::collections::{BTreeMap, BTreeSet};

/// A text of a project, and the number of its file.
#[derive(Drop)]
struct KeptText {
    file: u32,
    text: String,
    links: Links,
}

impl KeptText {
    fn of(alloc: Global, source: SourceText<'_>) -> Result<KeptText, AllocError> {
        Ok(KeptText {
            file: source.file_id.0,
            text: String::from_str(alloc, source.text)?,
            links: links_of(alloc, source.text)?,
        })
    }

    /// Whether it is this one.
    fn is(&self, source: SourceText<'_>) -> bool {
        self.file == source.file_id.0 && self.text.as_str() == source.text
    }
}

/// The texts of a whole project in which each text is a document that can be built, with what is reported of them.
#[derive(Drop)]
pub(crate) struct KeptProject {
    /// So many texts come first that are judged; the others lend fragments.
    judged: usize,
    bounds: Bounds,
    texts: Vec<KeptText>,
    /// None while a run has them.
    lists: Option<Vec<KeptList>>,
}

/// The texts that are to be validated again.
#[derive(Drop)]
pub struct Part<'a> {
    /// Those that are judged.
    pub own: Vec<SourceText<'a>>,
    /// Those with fragments that these reach, and those that changed of the ones that are lent.
    pub lent: Vec<SourceText<'a>>,
    /// How many texts of the project are judged.
    pub(crate) all: usize,
    /// The numbers of the files about which something else may be reported.
    files: BTreeSet<u32>,
}

impl<'a> Part<'a> {
    /// The texts at the affected positions, and those at the reached ones, which lend fragments.
    fn of(
        alloc: Global,
        read: &[SourceText<'a>],
        judged: usize,
        affected: &BTreeSet<usize>,
        reached: &BTreeSet<usize>,
    ) -> Result<Part<'a>, AllocError> {
        let mut part = Part {
            own: Vec::new(alloc),
            lent: Vec::new(alloc),
            all: judged,
            files: BTreeSet::new(alloc),
        };
        for (position, source) in read.iter().enumerate() {
            let is_own = position < judged && affected.contains(&position);
            if is_own {
                part.add_own(*source)?;
            } else if reached.contains(&position) {
                part.lent.push(*source)?;
            }
        }
        Ok(part)
    }

    fn add_own(&mut self, source: SourceText<'a>) -> Result<(), AllocError> {
        self.files.insert(source.file_id.0)?;
        self.own.push(source)?;
        Ok(())
    }
}

impl KeptProject {
    /// These texts, with what is reported of them. The links of texts that were kept before are kept.
    pub(crate) fn of(
        alloc: Global,
        read: &[SourceText<'_>],
        judged: usize,
        bounds: Bounds,
        lists: Vec<KeptList>,
        before: Option<KeptProject>,
    ) -> Result<KeptProject, AllocError> {
        let old = match before {
            Some(before) => before.into_texts(),
            None => Vec::new(alloc),
        };
        Ok(KeptProject {
            judged,
            bounds,
            texts: kept_texts(alloc, read, old)?,
            lists: Some(lists),
        })
    }

    fn into_texts(self) -> Vec<KeptText> {
        let KeptProject { texts, .. } = self;
        texts
    }

    /// Whether these are as many texts as before, and are judged in the same way.
    fn is_like(&self, read: &[SourceText<'_>], judged: usize, bounds: Bounds) -> bool {
        self.judged == judged && self.bounds == bounds && self.texts.len() == read.len()
    }

    /// What is to be validated again if the project has these texts now. None, if that is the whole project: if there are more texts or fewer, or two
    /// fragments have one name.
    pub(crate) fn part<'a>(
        &self,
        alloc: Global,
        read: &[SourceText<'a>],
        judged: usize,
        bounds: Bounds,
    ) -> Result<Option<Part<'a>>, AllocError> {
        if !self.is_like(read, judged, bounds) {
            return Ok(None);
        }
        let changed = self.changed_links(alloc, read)?;
        let part = self.part_beside(alloc, read, &changed);
        drop(changed);
        part
    }

    /// What is to be validated again if texts with these links changed.
    fn part_beside<'a>(
        &self,
        alloc: Global,
        read: &[SourceText<'a>],
        changed: &BTreeMap<usize, Links>,
    ) -> Result<Option<Part<'a>>, AllocError> {
        let none = BTreeMap::new(alloc);
        let old_links = links_with(alloc, &self.texts, &none)?;
        let links = links_with(alloc, &self.texts, changed)?;
        let Some(before) = Graph::of(alloc, &old_links, self.judged)? else {
            return Ok(None);
        };
        let Some(now) = Graph::of(alloc, &links, self.judged)? else {
            return Ok(None);
        };
        let changed = positions_of(alloc, changed)?;
        let affected = affected_files(alloc, &before, &now, &links, &changed)?;
        let reached = now.spreads.reached(alloc, &affected)?;
        let part = Part::of(alloc, read, self.judged, &affected, &reached)?;
        Ok(Some(part))
    }

    /// The links of those of these texts that are others than before, by their positions.
    fn changed_links(
        &self,
        alloc: Global,
        read: &[SourceText<'_>],
    ) -> Result<BTreeMap<usize, Links>, AllocError> {
        let mut changed = BTreeMap::new(alloc);
        for (position, (text, source)) in self.texts.iter().zip(read.iter()).enumerate() {
            if !text.is(*source) {
                changed.insert(position, links_of(alloc, source.text)?)?;
            }
        }
        Ok(changed)
    }

    /// What is reported of the project now, of which this part was validated again, with these reports. None, if the whole project is to be validated: if a text
    /// of the part is no document or cannot be built, or something is reported of the definitions of a file together.
    pub(crate) fn merge(
        &mut self,
        alloc: Global,
        part: &Part<'_>,
        found: ProjectReports,
    ) -> Result<Option<ProjectReports>, ValidationError> {
        let Some(new) = lists_of(alloc, found)? else {
            return Ok(None);
        };
        match self.lists.take() {
            Some(kept) => Ok(Some(merged(alloc, kept, new, &part.files)?)),
            None => Ok(None),
        }
    }
}

/// These texts. One that was kept before at the same place is taken from there.
fn kept_texts(
    alloc: Global,
    read: &[SourceText<'_>],
    old: Vec<KeptText>,
) -> Result<Vec<KeptText>, AllocError> {
    let mut old = old.into_iter();
    let mut texts = Vec::new(alloc);
    for source in read {
        texts.push(kept_text(alloc, *source, old.next())?)?;
    }
    Ok(texts)
}

fn kept_text(
    alloc: Global,
    source: SourceText<'_>,
    old: Option<KeptText>,
) -> Result<KeptText, AllocError> {
    if let Some(old) = old {
        if old.is(source) {
            return Ok(old);
        }
    }
    KeptText::of(alloc, source)
}

/// The links of texts, of which these changed.
fn links_with<'a>(
    alloc: Global,
    texts: &'a [KeptText],
    changed: &'a BTreeMap<usize, Links>,
) -> Result<Vec<&'a Links>, AllocError> {
    let mut all = Vec::new(alloc);
    for (position, text) in texts.iter().enumerate() {
        match changed.get(&position) {
            Some(links) => all.push(links)?,
            None => all.push(&text.links)?,
        }
    }
    Ok(all)
}

fn positions_of(
    alloc: Global,
    changed: &BTreeMap<usize, Links>,
) -> Result<BTreeSet<usize>, AllocError> {
    let mut positions = BTreeSet::new(alloc);
    for position in changed.keys() {
        positions.insert(*position)?;
    }
    Ok(positions)
}
