//! Comments that ignore findings.

ghost use Rattle.std.specs.BTreeMap.{get_by};
ghost use Rattle.std.specs.Option.{unwrap_or};
ghost use Rattle.std.specs.Ordering.{nat_cmp};
ghost use Rattle.std.specs.Prelude.{◌≡◌, ◌-◌, IfOk, filter, length, map, not, ℕ};
ghost use Rattle.gqlvalidate_formats.specs.NamedTexts.{named_text, part_at, texts_of};
ghost use Rattle.gqlvalidate_runs.specs.Ignored.{is_ignored, spot_at};

use crate::files::{first_of, first_texts};
use gqlvalidate_formats::named_texts::{CountedSubject, Subject};
use gqlvalidate_formats::{Finding, ShownReport, SourceText};
use gqlvalidate_ignores::{Ignorable, Ignore, ignores_in, meaning_of};
use graphql_nodes::{FileId, SourceSpan};
use std::alloc::{AllocError, Global};
use std::collections::{BTreeMap, BTreeSet};

/// The name of the rule on comments.
pub const UNUSED_IGNORE: &str = "UnusedIgnore";

/// A longer name is not repeated in a message.
const LONGEST: usize = 100;

/// A file, by the number of its first text; a line of it; and a rule.
pub type Spot = (u32, usize, &'static str);

/// The reports that comments ignore, and the names of rules in these comments.
#[derive(Drop)]
pub struct Comments<'a> {
    /// The reports of a rule on a line of a file.
    ignored: BTreeSet<Spot>,
    /// The names in comments of files that are judged.
    names: Vec<NameOfRule<'a>>,
    /// Where names are that were read: the first text of the file, and the byte. A text and its parts have the same comments.
    read: BTreeSet<(u32, usize)>,
}

/// A name in a comment.
#[derive(Clone, Copy)]
struct NameOfRule<'a> {
    /// The text that has the comment.
    file: FileId,
    /// The number of the first text of its file.
    first: u32,
    ignore: Ignore<'a>,
    meaning: Ignorable,
}

impl<'a> Comments<'a> {
    /// What the comments of a subject ignore. So many of its texts come first that are judged.
    pub fn of(
        alloc: Global,
        subject: Subject<'a>,
        judged: usize,
    ) -> Result<Comments<'a>, AllocError> {
        let firsts = first_texts(alloc, subject.texts)?;
        let mut comments = Comments {
            ignored: BTreeSet::new(alloc),
            names: Vec::new(alloc),
            read: BTreeSet::new(alloc),
        };
        for (position, source) in subject.sources.iter().enumerate() {
            let first = first_of(source.file_id.0, &firsts);
            comments.read_text(alloc, *source, first, position < judged)?;
        }
        Ok(comments)
    }

    /// Reads the comments of a text.
    fn read_text(
        &mut self,
        alloc: Global,
        source: SourceText<'a>,
        first: u32,
        is_judged: bool,
    ) -> Result<(), AllocError> {
        for ignore in ignores_in(alloc, source.text)? {
            let name = NameOfRule {
                file: source.file_id,
                first,
                ignore,
                meaning: meaning_of(ignore.name),
            };
            self.add(name, is_judged)?;
        }
        Ok(())
    }

    /// Adds a name, unless it was added with another text of its file.
    fn add(&mut self, name: NameOfRule<'a>, is_judged: bool) -> Result<(), AllocError> {
        let is_new = self.read.insert((name.first, name.ignore.start))?;
        if !is_new {
            return Ok(());
        }
        if let Some(spot) = name.spot() {
            self.ignored.insert(spot)?;
        }
        if is_judged {
            self.names.push(name)?;
        }
        Ok(())
    }

    /// Of what is ignored, the spots of these findings.
    pub fn heard(
        &self,
        alloc: Global,
        findings: &[Finding<'_>],
        subject: Subject<'_>,
    ) -> Result<BTreeSet<Spot>, AllocError> {
        let mut heard = BTreeSet::new(alloc);
        if self.ignored.is_empty() {
            return Ok(heard);
        }
        let counted = CountedSubject::new(alloc, subject)?;
        let firsts = first_texts(alloc, subject.texts)?;
        for finding in findings {
            if let Some(spot) = self.ignored_spot(finding, &counted, &firsts) {
                heard.insert(spot)?;
            }
        }
        Ok(heard)
    }

    /// Takes out the findings that are ignored, and no others. The answer is how many they are.
    pub fn take_out(
        &self,
        alloc: Global,
        findings: &mut Vec<Finding<'_>>,
        subject: Subject<'_>,
    ) -> Result<usize, AllocError>
        ensures { IfOk result (λ count. (first : ℕ → ℕ) ×
            (findings.new.items ≡ filter (λ f. not (is_ignored self.now (map named_text subject.entry.texts.now) first f.report.rule f.report.location)) findings.old.items) ×
            (count ≡ length findings.old.items - length findings.new.items)) }
    {
        if self.ignored.is_empty() {
            return Ok(0);
        }
        let before = findings.len();
        let counted = CountedSubject::new(alloc, subject)?;
        let firsts = first_texts(alloc, subject.texts)?;
        self.keep_others(findings, &counted, &firsts);
        Ok(before.saturating_sub(findings.len()))
    }

    /// Keeps the findings that are not ignored.
    fn keep_others(
        &self,
        findings: &mut Vec<Finding<'_>>,
        counted: &CountedSubject<'_>,
        firsts: &BTreeMap<u32, u32>,
    )
        ensures { findings.new.items ≡ filter (λ f. not (is_ignored self.now (texts_of counted.now) (λ n. unwrap_or (get_by (nat_cmp n) firsts.now) n) f.report.rule f.report.location))
            findings.old.items }
    {
        findings.retain(|finding| !self.ignores(finding, counted, firsts));
    }

    /// Whether the finding is ignored.
    fn ignores(
        &self,
        finding: &Finding<'_>,
        counted: &CountedSubject<'_>,
        firsts: &BTreeMap<u32, u32>,
    ) -> bool
        ensures { result ≡ is_ignored self.now (texts_of counted.now) (λ n. unwrap_or (get_by (nat_cmp n) firsts.now) n) finding.now.report.rule finding.now.report.location }
    {
        match spot_of(finding, counted, firsts) {
            Some(spot) => self.ignored.contains(&spot),
            None => false,
        }
    }

    /// The spot of a finding, if it is ignored.
    fn ignored_spot(
        &self,
        finding: &Finding<'_>,
        counted: &CountedSubject<'_>,
        firsts: &BTreeMap<u32, u32>,
    ) -> Option<Spot> {
        let spot = spot_of(finding, counted, firsts)?;
        if self.ignored.contains(&spot) {
            Some(spot)
        } else {
            None
        }
    }

    /// Adds a finding for each name that ignores nothing, when findings at these spots are ignored.
    pub fn add_unused(
        &self,
        alloc: Global,
        heard: &BTreeSet<Spot>,
        findings: &mut Vec<Finding<'_>>,
    ) -> Result<(), AllocError> {
        for name in &self.names {
            if !name.is_heard(heard) {
                findings.push(name.finding(alloc)?)?;
            }
        }
        Ok(())
    }
}

impl<'a> NameOfRule<'a> {
    /// What the name ignores, if it is that of a rule.
    fn spot(&self) -> Option<Spot> {
        match self.meaning {
            Ignorable::Rule(rule) => Some((self.first, self.ignore.line, rule)),
            Ignorable::Never | Ignorable::Unknown => None,
        }
    }

    /// Whether findings that it ignores are at these spots.
    fn is_heard(&self, heard: &BTreeSet<Spot>) -> bool {
        match self.spot() {
            Some(spot) => heard.contains(&spot),
            None => false,
        }
    }

    /// The finding that the name ignores nothing.
    fn finding<'b>(&self, alloc: Global) -> Result<Finding<'b>, AllocError> {
        let location = SourceSpan {
            file_id: self.file,
            start: u32::try_from(self.ignore.start).unwrap_or(u32::MAX),
            end: u32::try_from(self.ignore.end).unwrap_or(u32::MAX),
        };
        let report = ShownReport {
            location: Some(location),
            rule: UNUSED_IGNORE,
            message: self.message(alloc)?,
            original: None,
        };
        Ok(Finding {
            report,
            notes: Vec::new(alloc),
            help: None,
            operations: Vec::new(alloc),
        })
    }

    /// Why the name ignores nothing.
    fn message(&self, alloc: Global) -> Result<String, AllocError> {
        let Ignore { name, line, .. } = self.ignore;
        match self.meaning {
            Ignorable::Rule(rule) => format!(in alloc;
                "this ignores nothing: `{rule}` is not reported on line {line}"
            ),
            Ignorable::Never => format!(in alloc; "reports of `{name}` cannot be ignored"),
            Ignorable::Unknown if name.is_empty() => {
                String::from_str(alloc, "the comment names no rule to ignore")
            }
            Ignorable::Unknown if name.len() > LONGEST => {
                String::from_str(alloc, "no rule has this name")
            }
            Ignorable::Unknown => format!(in alloc; "no rule has the name `{name}`"),
        }
    }
}

/// The spot of a finding, if it has a place in a text of the subject.
fn spot_of(
    finding: &Finding<'_>,
    counted: &CountedSubject<'_>,
    firsts: &BTreeMap<u32, u32>,
) -> Option<Spot>
    ensures { result ≡ spot_at (texts_of counted.now) (λ n. unwrap_or (get_by (nat_cmp n) firsts.now) n) finding.now.report.rule finding.now.report.location }
{
    let located = counted.locate(finding.report.location)?;
    let first = first_of(located.span.file_id.0, firsts);
    Some((first, located.start.line, finding.report.rule))
}
