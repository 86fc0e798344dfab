use super::bounds::ReportBound;
use super::details::{CountedMessage, Details};
use graphql_hash_seeds::HashSeed;
use graphql_nodes::{SourceSpan, ValidationError};
use std::alloc::Global;
use std::slice;

/// One report, and its place.
#[derive(Debug, PartialEq, Eq)]
pub struct DiagnosticEntry {
    pub location: Option<SourceSpan>,
    pub details: Details,
}

// Written out, so that only this crate proves it: a derived one is proved again in each crate that drops reports.
impl Drop for DiagnosticEntry {
    fn drop(self) {
        let DiagnosticEntry {
            location: _,
            details: _,
        } = self;
    }
}

impl DiagnosticEntry {
    ghost use Rattle.std.specs.Prelude.{◌≡◌};

    /// The place, and the report.
    pub fn into_parts(self) -> (Option<SourceSpan>, Details)
        ensures place { result.0 ≡ self.location }
        ensures report { result.1 ≡ self.details }
    {
        let DiagnosticEntry { location, details } = self;
        (location, details)
    }
}

/// Reports in the order in which they were pushed, and the seed by which a check that fills the list hashes names. A list may
/// have a bound: then it keeps the first reports, one at least, and refuses the others.
#[derive(Debug)]
pub struct DiagnosticList {
    entries: Vec<DiagnosticEntry>,
    hash_seed: HashSeed,
    room: Option<ReportBound>,
    has_more: bool,
}

// Written out, as the one above.
impl Drop for DiagnosticList {
    fn drop(self) {
        let DiagnosticList {
            entries: _,
            hash_seed: _,
            room: _,
            has_more: _,
        } = self;
    }
}

impl DiagnosticList {
    ghost use Rattle.std.specs.Prelude.{◌≡◌, ◌↔◌, IsTrue, IfOk, None, Some, [], ◌∷◌, ◌++◌, false, length, OnOk, OnErr};
    ghost use Rattle.std.specs.Slice.Iter.{iter_rest};
    ghost use Rattle.graphql_diagnostics.specs.Diagnostics.{entries, allocator_of, has_more_of, hash_seed_of, room_of};
    ghost use Rattle.graphql_diagnostics.specs.Bounds.{LeavesRoom};
    ghost use Rattle.graphql_diagnostics.specs.BuildErrorMessages.{counted_message};
    ghost use Rattle.graphql_hash_seeds.specs.Seeds.{seed_of};

    /// A list of no reports, which grows by this allocator. Names are hashed by the default seed.
    pub fn new(alloc: Global) -> DiagnosticList
        ensures empty { entries result ≡ [] }
        ensures allocator { allocator_of result ≡ alloc }
        ensures hash_seed { hash_seed_of result ≡ seed_of 0 }
        ensures room { room_of result ≡ None }
        ensures no_more { has_more_of result ≡ false }
    {
        DiagnosticList::with_hash_seed(alloc, HashSeed::default())
    }

    /// A list of no reports, which grows by this allocator. Names are hashed by this seed.
    pub fn with_hash_seed(alloc: Global, hash_seed: HashSeed) -> DiagnosticList
        ensures empty { entries result ≡ [] }
        ensures allocator { allocator_of result ≡ alloc }
        ensures hash_seed { hash_seed_of result ≡ hash_seed }
        ensures room { room_of result ≡ None }
        ensures no_more { has_more_of result ≡ false }
    {
        DiagnosticList {
            entries: Vec::new(alloc),
            hash_seed,
            room: None,
            has_more: false,
        }
    }

    /// A list of no reports, which grows by this allocator and has a bound: it keeps the first report, and those after it
    /// that the bound admits. It refuses the next one, and each one after that, as if memory were refused. Names are hashed
    /// by this seed.
    pub fn with_bound(alloc: Global, hash_seed: HashSeed, bound: ReportBound) -> DiagnosticList
        ensures empty { entries result ≡ [] }
        ensures allocator { allocator_of result ≡ alloc }
        ensures hash_seed { hash_seed_of result ≡ hash_seed }
        ensures room { room_of result ≡ Some bound }
        ensures no_more { has_more_of result ≡ false }
    {
        DiagnosticList {
            entries: Vec::new(alloc),
            hash_seed,
            room: Some(bound),
            has_more: false,
        }
    }

    /// The allocator of the list.
    pub fn allocator(&self) -> Global
        ensures { result ≡ allocator_of self.now }
    {
        *self.entries.allocator()
    }

    /// The seed by which names are hashed.
    pub fn hash_seed(&self) -> HashSeed
        ensures { result ≡ hash_seed_of self.now }
    {
        self.hash_seed
    }

    /// Adds a diagnostic at the end. If memory is refused or the bound of the list is passed, the list keeps the diagnostics
    /// that it has, and the new one is dropped. The list keeps its allocator and its seed.
    pub fn push(
        &mut self,
        location: Option<SourceSpan>,
        details: Details,
    ) -> Result<(), ValidationError>
        ensures ok { OnOk result (entries self.new ≡ entries self.old ++ record { location = location; details = details } ∷ []) }
        ensures err { OnErr result (entries self.new ≡ entries self.old) }
        ensures allocator { allocator_of self.new ≡ allocator_of self.old }
        ensures hash_seed { hash_seed_of self.new ≡ hash_seed_of self.old }
        ensures room { OnOk result (LeavesRoom (entries self.old) (room_of self.old) (counted_message details) (room_of self.new)) }
        ensures refused_room { OnErr result (room_of self.new ≡ room_of self.old) }
        ensures no_more { OnOk result ((has_more_of self.old ≡ false) × (has_more_of self.new ≡ false)) }
    {
        let room = self.room_beside(&details)?;
        self.entries.push(DiagnosticEntry { location, details })?;
        self.room = room;
        Ok(())
    }

    /// What the list may keep beside this diagnostic. If its bound does not admit it, the list has more from now on.
    fn room_beside(&mut self, details: &Details) -> Result<Option<ReportBound>, ValidationError>
        ensures room { IfOk result (LeavesRoom (entries self.old) (room_of self.old) (counted_message details.now)) }
        ensures no_more { OnOk result ((has_more_of self.old ≡ false) × (has_more_of self.new ≡ false)) }
        ensures stays { (self.new.entries ≡ self.old.entries) × (self.new.hash_seed ≡ self.old.hash_seed) × (self.new.room ≡ self.old.room) }
    {
        if !self.has_more {
            let Some(bound) = self.room else {
                return Ok(None);
            };
            if let Some(left) = bound.after(CountedMessage(details)) {
                return Ok(Some(left));
            }
            if self.entries.is_empty() {
                return Ok(Some(ReportBound::NOTHING));
            }
        }
        self.has_more = true;
        Err(ValidationError::OutOfMemory)
    }

    /// Whether the list refused a report that its bound does not admit: there is more to report than it keeps.
    pub fn has_more(&self) -> bool
        ensures { result ≡ has_more_of self.now }
    {
        self.has_more
    }

    /// How many reports there are.
    pub fn len(&self) -> usize
        ensures { result ≡ length (entries self.now) }
    {
        self.entries.len()
    }

    /// Whether there is no report.
    pub fn is_empty(&self) -> bool
        ensures { IsTrue result ↔ (entries self.now ≡ []) }
    {
        self.entries.is_empty()
    }

    /// The reports of the list, in the order in which they were pushed.
    pub fn into_entries(self) -> Vec<DiagnosticEntry>
        ensures { result.items ≡ entries self }
    {
        let DiagnosticList {
            entries,
            hash_seed: _,
            room: _,
            has_more: _,
        } = self;
        entries
    }

    /// The diagnostics, in the order in which they were pushed.
    pub fn iter(&self) -> slice::Iter<'_, DiagnosticEntry>
        ensures { iter_rest result ≡ entries self.now }
    {
        self.entries.iter()
    }
}
