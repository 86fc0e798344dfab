//! Changes as they are shown, and the texts that they are about.

ghost use Rattle.std.specs.Prelude.{◌≡◌, Some, count_by, true, unwrap_or};
ghost use Rattle.std.specs.Option.{option_map};
ghost use Rattle.graphql_report_formats.specs.NamedTexts.{part, path_of};
ghost use Rattle.graphql_change_formats.specs.ShownChanges.{is_breaking, is_dangerous, is_other, level_name, reason_name, shown_place};

use graphql_change_kinds::{BreakingReason, Level, SchemaChange};
use graphql_nodes::SourceSpan;
use graphql_report_formats::named_texts::{CountedSubject, Located};
use std::fmt;

/// A change, how grave it is for the documents that are asked of, and a document that shows it.
#[derive(Drop)]
pub struct ShownChange<'a> {
    pub change: &'a SchemaChange,
    pub level: Level,
    /// It is valid against the old schema and no longer against the new one.
    pub witness: Option<String>,
    /// Whether a document that was valid uses what changes, if it was asked of documents.
    pub used: Option<bool>,
}

/// The texts of the old and of the new schema.
#[derive(Drop)]
pub struct ComparedTexts<'a> {
    pub old: CountedSubject<'a>,
    pub new: CountedSubject<'a>,
}

impl<'a> ComparedTexts<'a> {
    /// Where a change is shown: in the new schema, or if it has no place there, in the old one.
    pub fn place_of(&self, change: &SchemaChange) -> Option<Located<'a>>
        ensures { option_map part result ≡ shown_place self.now change.now }
    {
        match self.new.locate(change.new) {
            Some(located) => Some(located),
            None => self.old.locate(change.old),
        }
    }

    /// Where what changed was, if the change is shown elsewhere.
    pub fn earlier_place_of(&self, change: &SchemaChange) -> Option<Located<'a>> {
        let _shown = self.new.locate(change.new)?;
        self.old.locate(earlier(change))
    }
}

/// The place in the old schema; none of what was added.
fn earlier(change: &SchemaChange) -> Option<SourceSpan> {
    if change.is_addition() {
        None
    } else {
        change.old
    }
}

impl ShownChange<'_> {
    /// Whether a list for people has the change: all changes, or those of what documents use, if it was asked of these.
    pub fn is_listed(&self) -> bool
        ensures { result ≡ unwrap_or self.now.used true }
    {
        self.used.unwrap_or(true)
    }

    /// What the output calls the level. A change that is neither breaking nor dangerous is another one: only a whole comparison
    /// says that documents stay valid.
    pub fn level_name(&self) -> &'static str
        ensures { result.now ≡ level_name self.now.level }
    {
        match self.level {
            Level::Breaking(_) => "breaking",
            Level::Dangerous => "dangerous",
            Level::Safe => "other",
        }
    }

    /// What a breaking change breaks.
    pub fn reason_name(&self) -> Option<&'static str>
        ensures { path_of result ≡ reason_name self.now.level }
    {
        match self.level {
            Level::Breaking(reason) => Some(name_of_reason(reason)),
            Level::Dangerous | Level::Safe => None,
        }
    }
}

fn name_of_reason(reason: BreakingReason) -> &'static str
    ensures { Some result.now ≡ reason_name (Level.Breaking reason) }
{
    match reason {
        BreakingReason::Documents => "documents",
        BreakingReason::Merging => "merging",
        BreakingReason::Responses => "responses",
    }
}

/// How many changes there are of each level.
#[derive(Clone, Copy, Debug, PartialEq, Eq)]
pub struct ChangeTally {
    pub breaking: usize,
    pub dangerous: usize,
    pub other: usize,
}

impl ChangeTally {
    /// Counts the changes.
    pub fn of(changes: &[ShownChange<'_>]) -> ChangeTally
        ensures breaking { result.breaking ≡ count_by (λ shown. is_breaking shown.level) changes.now }
        ensures dangerous { result.dangerous ≡ count_by (λ shown. is_dangerous shown.level) changes.now }
        ensures other { result.other ≡ count_by (λ shown. is_other shown.level) changes.now }
    {
        ChangeTally {
            breaking: changes
                .iter()
                .filter(|shown| is_breaking(shown.level))
                .count(),
            dangerous: changes
                .iter()
                .filter(|shown| is_dangerous(shown.level))
                .count(),
            other: changes.iter().filter(|shown| is_other(shown.level)).count(),
        }
    }
}

fn is_breaking(level: Level) -> bool
    ensures { result ≡ is_breaking level }
{
    matches!(level, Level::Breaking(_))
}

fn is_dangerous(level: Level) -> bool
    ensures { result ≡ is_dangerous level }
{
    matches!(level, Level::Dangerous)
}

fn is_other(level: Level) -> bool
    ensures { result ≡ is_other level }
{
    matches!(level, Level::Safe)
}

impl fmt::Display for ChangeTally {
    fn fmt<W: fmt::Write>(&self, f: &mut fmt::Formatter<W>) -> fmt::Result {
        let breaking = self.breaking;
        let dangerous = self.dangerous;
        let other = self.other;
        write!(
            f,
            "{breaking} breaking, {dangerous} dangerous, {other} other"
        )
    }
}
