//! Lists of reports that keep the first ones.

ghost use Rattle.std.specs.Prelude.{◌≡◌, ◌↔◌, IfSome, IsTrue, None, OnErr, OnOk, Some, [], ◌∷◌, ◌++◌, false};
ghost use Rattle.graphql_diagnostics.specs.Bounds.{LeavesRoom};
ghost use Rattle.graphql_reporting.specs.Lists.{allocator_of, has_more_of, reports_of, room_of};

use graphql_diagnostics::ReportBound;
use graphql_nodes::ValidationError;
use std::alloc::Global;
use std::fmt;

/// Reports in the order in which they were pushed. A list may have a bound: then it keeps the first reports, one at least, and
/// refuses the others.
#[derive(Debug, Drop)]
pub struct ReportList<T> {
    kept: Vec<T>,
    room: Option<ReportBound>,
    has_more: bool,
}

impl<T: Drop> ReportList<T> {
    /// A list without reports, which grows by this allocator.
    pub fn new(alloc: Global) -> ReportList<T>
        ensures empty { reports_of result ≡ [] }
        ensures allocator { allocator_of result ≡ alloc }
        ensures room { room_of result ≡ None }
        ensures no_more { has_more_of result ≡ false }
    {
        ReportList {
            kept: Vec::new(alloc),
            room: None,
            has_more: false,
        }
    }

    /// A list without reports, which grows by this allocator and has a bound: it admits a first report, and those after it for
    /// which the bound has room.
    pub fn with_bound(alloc: Global, bound: ReportBound) -> ReportList<T>
        ensures empty { reports_of result ≡ [] }
        ensures allocator { allocator_of result ≡ alloc }
        ensures room { room_of result ≡ Some bound }
        ensures no_more { has_more_of result ≡ false }
    {
        ReportList {
            kept: Vec::new(alloc),
            room: Some(bound),
            has_more: false,
        }
    }

    /// The allocator of the list.
    pub fn allocator(&self) -> Global
        ensures { result ≡ allocator_of self.now }
    {
        *self.kept.allocator()
    }

    /// Takes room for a report with this message, which is pushed next. If the bound has no room for it, the list has more from
    /// now on, and refuses it and each one after it as if memory were refused.
    pub fn admit<M: fmt::Display + Drop>(&mut self, message: M) -> Result<(), ValidationError>
        ensures reports { self.new.kept ≡ self.old.kept }
        ensures room { OnOk result (IfSome (M.output message) (λ text. LeavesRoom (reports_of self.old) (room_of self.old) text (room_of self.new))) }
        ensures no_more { OnOk result ((has_more_of self.old ≡ false) × (has_more_of self.new ≡ false)) }
    {
        if !self.has_more {
            let Some(bound) = self.room else {
                return Ok(());
            };
            if let Some(left) = bound.after(message) {
                self.room = Some(left);
                return Ok(());
            }
            if self.kept.is_empty() {
                self.room = Some(ReportBound::NOTHING);
                return Ok(());
            }
        }
        self.has_more = true;
        Err(ValidationError::OutOfMemory)
    }

    /// Adds a report at the end. If memory is refused, the list stays as it is, and the report is dropped.
    pub fn push(&mut self, report: T) -> Result<(), ValidationError>
        ensures ok { OnOk result (reports_of self.new ≡ reports_of self.old ++ report ∷ []) }
        ensures err { OnErr result (reports_of self.new ≡ reports_of self.old) }
        ensures allocator { allocator_of self.new ≡ allocator_of self.old }
        ensures room { room_of self.new ≡ room_of self.old }
        ensures has_more { has_more_of self.new ≡ has_more_of self.old }
    {
        self.kept.push(report)?;
        Ok(())
    }

    /// Whether the list refused a report for which its bound has no room: there is more to report than it keeps.
    pub fn has_more(&self) -> bool
        ensures { result ≡ has_more_of self.now }
    {
        self.has_more
    }

    /// Whether there is no report.
    pub fn is_empty(&self) -> bool
        ensures { IsTrue result ↔ (reports_of self.now ≡ []) }
    {
        self.kept.is_empty()
    }

    /// The reports alone, in order.
    pub fn into_reports(self) -> Vec<T>
        ensures { result.items ≡ reports_of self }
    {
        self.kept
    }
}
