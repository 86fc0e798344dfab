//! Reports, and lists of them.

ghost use Rattle.std.specs.Prelude.{◌≡◌, ◌↔◌, IsTrue, IfOk, None, Some, [], ◌∷◌, ◌++◌, false, OnOk, OnErr};
ghost use Rattle.std.specs.Slice.Iter.{iter_rest};
ghost use Rattle.graphql_building_reports.specs.Checks.{allocator_of, has_more_of, hash_seed_of, reports_of, room_of};
ghost use Rattle.graphql_building_reports.specs.Messages.{building_message};
ghost use Rattle.graphql_diagnostics.specs.Bounds.{LeavesRoom};
ghost use Rattle.graphql_hash_seeds.specs.Seeds.{seed_of};

use crate::rules::BuildingRule;
use graphql_diagnostics::ReportBound;
use graphql_hash_seeds::HashSeed;
use graphql_nodes::{SourceSpan, ValidationError};
use std::alloc::Global;
use std::slice;

/// A broken rule, and where it is broken.
#[derive(Debug)]
pub struct BuildingReport {
    pub location: Option<SourceSpan>,
    pub rule: BuildingRule,
}

// Written out, so that only this crate proves it: a derived one is proved again in each crate that drops reports.
impl Drop for BuildingReport {
    fn drop(self) {
        let BuildingReport {
            location: _,
            rule: _,
        } = self;
    }
}

/// Reports in the order in which they were pushed, and the seed by which a check that fills the list hashes names. A list may
/// have a bound: then it keeps the first reports, one at least, and refuses the others.
#[derive(Debug)]
pub struct BuildingReportList {
    reports: Vec<BuildingReport>,
    hash_seed: HashSeed,
    room: Option<ReportBound>,
    has_more: bool,
}

// Written out, as the one above.
impl Drop for BuildingReportList {
    fn drop(self) {
        let BuildingReportList {
            reports: _,
            hash_seed: _,
            room: _,
            has_more: _,
        } = self;
    }
}

impl BuildingReportList {
    /// A list without reports, which grows by this allocator. Names are hashed by the default seed.
    pub fn new(alloc: Global) -> BuildingReportList
        ensures empty { reports_of result ≡ [] }
        ensures allocator { allocator_of result ≡ alloc }
        ensures hash_seed { hash_seed_of result ≡ seed_of 0 }
        ensures room { room_of result ≡ None }
        ensures no_more { has_more_of result ≡ false }
    {
        BuildingReportList::with_hash_seed(alloc, HashSeed::default())
    }

    /// A list without reports, which grows by this allocator. Names are hashed by this seed.
    pub fn with_hash_seed(alloc: Global, hash_seed: HashSeed) -> BuildingReportList
        ensures empty { reports_of result ≡ [] }
        ensures allocator { allocator_of result ≡ alloc }
        ensures hash_seed { hash_seed_of result ≡ hash_seed }
        ensures room { room_of result ≡ None }
        ensures no_more { has_more_of result ≡ false }
    {
        BuildingReportList {
            reports: Vec::new(alloc),
            hash_seed,
            room: None,
            has_more: false,
        }
    }

    /// A list without reports, which grows by this allocator and has a bound: it keeps the first report, and those after it
    /// that the bound admits. It refuses the next one, and each one after that, as if memory were refused. Names are hashed
    /// by this seed.
    pub fn with_bound(alloc: Global, hash_seed: HashSeed, bound: ReportBound) -> BuildingReportList
        ensures empty { reports_of result ≡ [] }
        ensures allocator { allocator_of result ≡ alloc }
        ensures hash_seed { hash_seed_of result ≡ hash_seed }
        ensures room { room_of result ≡ Some bound }
        ensures no_more { has_more_of result ≡ false }
    {
        BuildingReportList {
            reports: Vec::new(alloc),
            hash_seed,
            room: Some(bound),
            has_more: false,
        }
    }

    /// The allocator of the list.
    pub fn allocator(&self) -> Global
        ensures { result ≡ allocator_of self.now }
    {
        *self.reports.allocator()
    }

    /// The seed by which names are hashed.
    pub fn hash_seed(&self) -> HashSeed
        ensures { result ≡ hash_seed_of self.now }
    {
        self.hash_seed
    }

    /// Adds a report at the end. If memory is refused or the bound of the list is passed, the list keeps the reports that it
    /// has, and the new one is dropped. The list keeps its allocator and its seed.
    pub fn push(
        &mut self,
        location: Option<SourceSpan>,
        rule: BuildingRule,
    ) -> Result<(), ValidationError>
        ensures ok { OnOk result (reports_of self.new ≡ reports_of self.old ++ record { location = location; rule = rule } ∷ []) }
        ensures err { OnErr result (reports_of self.new ≡ reports_of self.old) }
        ensures allocator { allocator_of self.new ≡ allocator_of self.old }
        ensures hash_seed { hash_seed_of self.new ≡ hash_seed_of self.old }
        ensures room { OnOk result (LeavesRoom (reports_of self.old) (room_of self.old) (building_message rule) (room_of self.new)) }
        ensures refused_room { OnErr result (room_of self.new ≡ room_of self.old) }
        ensures no_more { OnOk result ((has_more_of self.old ≡ false) × (has_more_of self.new ≡ false)) }
    {
        let room = self.room_beside(&rule)?;
        self.reports.push(BuildingReport { location, rule })?;
        self.room = room;
        Ok(())
    }

    /// What the list may keep beside a report of this rule. If its bound does not admit it, the list has more from now on.
    fn room_beside(&mut self, rule: &BuildingRule) -> Result<Option<ReportBound>, ValidationError>
        ensures room { IfOk result (LeavesRoom (reports_of self.old) (room_of self.old) (building_message rule.now)) }
        ensures no_more { OnOk result ((has_more_of self.old ≡ false) × (has_more_of self.new ≡ false)) }
        ensures stays { (self.new.reports ≡ self.old.reports) × (self.new.hash_seed ≡ self.old.hash_seed) × (self.new.room ≡ self.old.room) }
    {
        if !self.has_more {
            let Some(bound) = self.room else {
                return Ok(None);
            };
            if let Some(left) = bound.after(rule) {
                return Ok(Some(left));
            }
            if self.reports.is_empty() {
                return Ok(Some(ReportBound::NOTHING));
            }
        }
        self.has_more = true;
        Err(ValidationError::OutOfMemory)
    }

    /// Whether the list refused a report that its bound does not admit: there is more to report than it keeps.
    pub fn has_more(&self) -> bool
        ensures { result ≡ has_more_of self.now }
    {
        self.has_more
    }

    /// Whether there is no report.
    pub fn is_empty(&self) -> bool
        ensures { IsTrue result ↔ (reports_of self.now ≡ []) }
    {
        self.reports.is_empty()
    }

    /// The reports, in the order in which they were pushed.
    pub fn iter(&self) -> slice::Iter<'_, BuildingReport>
        ensures { iter_rest result ≡ reports_of self.now }
    {
        self.reports.iter()
    }
}
