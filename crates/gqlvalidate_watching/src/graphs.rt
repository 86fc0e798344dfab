//! Which files of a project spread fragments of which others, and which fragments no operation reaches.

use crate::links::{FragmentLinks, Links};
use std::alloc::{AllocError, Global};
use std::collections::{BTreeMap, BTreeSet};

/// The positions of files to which edges lead, by the position of the file from which they lead.
#[derive(Drop)]
pub(crate) struct Edges {
    ends: Vec<Vec<usize>>,
}

impl Edges {
    /// No edges between so many files.
    fn none(alloc: Global, count: usize) -> Result<Edges, AllocError> {
        let mut ends = Vec::new(alloc);
        for _ in 0..count {
            ends.push(Vec::new(alloc))?;
        }
        Ok(Edges { ends })
    }

    /// Adds an edge.
    fn add(&mut self, from: usize, to: usize) -> Result<(), AllocError> {
        if let Some(ends) = self.ends.get_mut(from) {
            ends.push(to)?;
        }
        Ok(())
    }

    /// Adds the edges of others, each in the other direction.
    fn add_turned(&mut self, edges: &Edges) -> Result<(), AllocError> {
        for (from, ends) in edges.ends.iter().enumerate() {
            self.add_from_each(ends, from)?;
        }
        Ok(())
    }

    /// Adds an edge from each of these to this one.
    fn add_from_each(&mut self, sources: &[usize], to: usize) -> Result<(), AllocError> {
        for from in sources {
            self.add(*from, to)?;
        }
        Ok(())
    }

    /// These files, and those to which edges lead from them, also over others.
    pub(crate) fn reached(
        &self,
        alloc: Global,
        start: &BTreeSet<usize>,
    ) -> Result<BTreeSet<usize>, AllocError> {
        let mut reached = BTreeSet::new(alloc);
        let mut pending = Vec::new(alloc);
        for file in start {
            add_new(*file, &mut reached, &mut pending)?;
        }
        self.follow(&mut reached, &mut pending)?;
        Ok(reached)
    }

    /// Adds the files to which edges lead from the pending ones, also over others.
    fn follow(
        &self,
        reached: &mut BTreeSet<usize>,
        pending: &mut Vec<usize>,
    ) -> Result<(), AllocError> {
        // Each file is added once.
        for _ in 0..self.ends.len() {
            let Some(file) = pending.pop() else {
                break;
            };
            if let Some(ends) = self.ends.get(file) {
                add_each_new(ends, reached, pending)?;
            }
        }
        Ok(())
    }
}

/// Adds those of these files that are not reached yet.
fn add_each_new(
    files: &[usize],
    reached: &mut BTreeSet<usize>,
    pending: &mut Vec<usize>,
) -> Result<(), AllocError> {
    for file in files {
        add_new(*file, reached, pending)?;
    }
    Ok(())
}

/// Adds a file, unless it is reached already.
fn add_new(
    file: usize,
    reached: &mut BTreeSet<usize>,
    pending: &mut Vec<usize>,
) -> Result<(), AllocError> {
    if reached.insert(file)? {
        pending.push(file)?;
    }
    Ok(())
}

/// A fragment, and the position of its file.
#[derive(Clone, Copy)]
struct Defined<'a> {
    file: usize,
    fragment: &'a FragmentLinks,
}

/// The fragments of a project, by their names, which differ.
type Definitions<'a> = BTreeMap<&'a str, Defined<'a>>;

/// What the files of a project have to do with one another.
#[derive(Drop)]
pub(crate) struct Graph<'a> {
    /// An edge leads from each file to those that define what it spreads.
    pub spreads: Edges,
    /// The fragments of files that are judged which no operation reaches.
    unused: BTreeSet<&'a str>,
}

impl<'a> Graph<'a> {
    /// The graph of files with these links. So many come first that are judged. None, if two fragments have one name.
    pub(crate) fn of(
        alloc: Global,
        files: &[&'a Links],
        judged: usize,
    ) -> Result<Option<Graph<'a>>, AllocError> {
        let Some(definitions) = definitions_in(alloc, files)? else {
            return Ok(None);
        };
        let mut spreads = Edges::none(alloc, files.len())?;
        for (file, links) in files.iter().enumerate() {
            add_edges(file, links, &definitions, &mut spreads)?;
        }
        let (own, _) = files.split_at(judged.min(files.len()));
        let used = used_in(alloc, own, &definitions)?;
        Ok(Some(Graph {
            spreads,
            unused: unused_in(alloc, judged, &definitions, &used)?,
        }))
    }

    /// Whether an operation reaches a fragment of the file in one of the two graphs alone.
    fn differs_in(&self, other: &Graph<'_>, file: &Links) -> bool {
        file.fragments.iter().any(|fragment| {
            let name = fragment.name.as_str();
            self.unused.contains(name) != other.unused.contains(name)
        })
    }
}

/// The fragments of these files. None, if two have one name.
fn definitions_in<'a>(
    alloc: Global,
    files: &[&'a Links],
) -> Result<Option<Definitions<'a>>, AllocError> {
    let mut definitions = BTreeMap::new(alloc);
    for (file, links) in files.iter().enumerate() {
        if !add_definitions(file, links, &mut definitions)? {
            return Ok(None);
        }
    }
    Ok(Some(definitions))
}

/// Adds the fragments of a file. False, if one of them has the name of another.
fn add_definitions<'a>(
    file: usize,
    links: &'a Links,
    definitions: &mut Definitions<'a>,
) -> Result<bool, AllocError> {
    for fragment in &links.fragments {
        let defined = Defined { file, fragment };
        let other = definitions.insert(fragment.name.as_str(), defined)?;
        if other.is_some() {
            return Ok(false);
        }
    }
    Ok(true)
}

/// Adds an edge for each name that the definitions of a file spread.
fn add_edges(
    file: usize,
    links: &Links,
    definitions: &Definitions<'_>,
    edges: &mut Edges,
) -> Result<(), AllocError> {
    add_edges_to(file, &links.operations, definitions, edges)?;
    for fragment in &links.fragments {
        add_edges_to(file, &fragment.spreads, definitions, edges)?;
    }
    Ok(())
}

/// Adds an edge to the file of each fragment with one of these names.
fn add_edges_to(
    file: usize,
    names: &[String],
    definitions: &Definitions<'_>,
    edges: &mut Edges,
) -> Result<(), AllocError> {
    for name in names {
        if let Some(defined) = definitions.get(name.as_str()) {
            edges.add(file, defined.file)?;
        }
    }
    Ok(())
}

/// The fragments that operations of these files reach.
///
/// Specification: 5.5.1.4 Fragments Must Be Used.
fn used_in<'a>(
    alloc: Global,
    own: &[&'a Links],
    definitions: &Definitions<'a>,
) -> Result<BTreeSet<&'a str>, AllocError> {
    let mut used = BTreeSet::new(alloc);
    let mut pending = Vec::new(alloc);
    for links in own {
        use_names(&links.operations, definitions, &mut used, &mut pending)?;
    }
    // Each fragment is added once.
    for _ in 0..definitions.len() {
        let Some(fragment) = pending.pop() else {
            break;
        };
        use_names(&fragment.spreads, definitions, &mut used, &mut pending)?;
    }
    Ok(used)
}

/// Adds those of the fragments with these names that are not used yet.
fn use_names<'a>(
    names: &[String],
    definitions: &Definitions<'a>,
    used: &mut BTreeSet<&'a str>,
    pending: &mut Vec<&'a FragmentLinks>,
) -> Result<(), AllocError> {
    for name in names {
        let Some(defined) = definitions.get(name.as_str()) else {
            continue;
        };
        if used.insert(defined.fragment.name.as_str())? {
            pending.push(defined.fragment)?;
        }
    }
    Ok(())
}

/// The other fragments of so many first files.
fn unused_in<'a>(
    alloc: Global,
    judged: usize,
    definitions: &Definitions<'a>,
    used: &BTreeSet<&'a str>,
) -> Result<BTreeSet<&'a str>, AllocError> {
    let mut unused = BTreeSet::new(alloc);
    for (name, defined) in definitions {
        if defined.file < judged && !used.contains(name) {
            unused.insert(*name)?;
        }
    }
    Ok(unused)
}

/// The files of which something else may be reported than before these changed: these themselves, those with a fragment that is now used or no longer,
/// and those that spread, or spread before, a fragment of one of them, also over others. The links are those of now.
pub(crate) fn affected_files(
    alloc: Global,
    before: &Graph<'_>,
    now: &Graph<'_>,
    files: &[&Links],
    changed: &BTreeSet<usize>,
) -> Result<BTreeSet<usize>, AllocError> {
    let mut start = BTreeSet::new(alloc);
    for (file, links) in files.iter().enumerate() {
        if changed.contains(&file) || now.differs_in(before, links) {
            start.insert(file)?;
        }
    }
    let mut users = Edges::none(alloc, files.len())?;
    users.add_turned(&before.spreads)?;
    users.add_turned(&now.spreads)?;
    users.reached(alloc, &start)
}
