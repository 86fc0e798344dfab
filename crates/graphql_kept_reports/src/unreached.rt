//! Fragments that no operation reaches.

ghost use Rattle.std.specs.Prelude.{◌≡◌, ◌++◌, IfOk, List, OnOk, filter, flat_map, map};
ghost use Rattle.std.specs.String.{string_bytes};
ghost use Rattle.graphql_diagnostics.specs.Diagnostics.{entries};
ghost use Rattle.graphql_kept_reports.specs.Unreached.{has_unreached, is_elsewhere, is_known_of_fragment, is_of_unreached, is_of_variable, spreading};

use crate::doubts::Doubts;
use crate::spreads::Spreads;
use graphql_diagnostics::{Details, DiagnosticData, DiagnosticEntry, DiagnosticList};
use graphql_nodes::{FileId, Name, SourceSpan, ValidationError};
use std::alloc::{AllocError, Global};
use std::collections::BTreeSet;

/// The fragments that operations which are added reach have at most so many times as many tokens as the texts.
const MOST_TOKENS: usize = 4;

/// The names of fragments that no operation reaches, as reports say.
#[derive(Drop)]
pub struct Unreached {
    names: Vec<String>,
}

/// Those of these names that are chosen.
#[derive(Drop)]
struct Chosen {
    names: Vec<String>,
    /// The fragments that those reach.
    reached: BTreeSet<String>,
    /// The others may reach fragments with so many tokens.
    room: usize,
}

impl Unreached {
    /// No names.
    pub fn new(alloc: Global) -> Unreached {
        Unreached {
            names: Vec::new(alloc),
        }
    }

    /// Whether there are none.
    pub fn is_empty(&self) -> bool {
        self.names.is_empty()
    }

    /// Adds those that these reports name as unused. The only error is a failed allocation.
    pub fn add(&mut self, alloc: Global, reports: &DiagnosticList) -> Result<(), AllocError> {
        for entry in reports.iter().as_slice() {
            if let Details::Diagnostic(DiagnosticData::UnusedFragment { name }) = &entry.details {
                self.names.push(String::from_str(alloc, name.as_str())?)?;
            }
        }
        Ok(())
    }

    /// Of these names so many that the fragments of these texts that no operation reaches are reached from them: first those that no other
    /// fragment spreads. If they reach too much, the last ones are left out. The only error is a failed allocation.
    pub fn roots(&self, alloc: Global, texts: &[&str]) -> Result<Vec<String>, AllocError> {
        let spreads = spreads_of(alloc, texts)?;
        let mut chosen = Chosen {
            names: Vec::new(alloc),
            reached: BTreeSet::new(alloc),
            room: spreads.tokens.saturating_mul(MOST_TOKENS),
        };
        chosen.add_all(alloc, &spreads, &self.names, false)?;
        chosen.add_all(alloc, &spreads, &self.names, true)?;
        Ok(chosen.names)
    }
}

fn spreads_of(alloc: Global, texts: &[&str]) -> Result<Spreads, AllocError> {
    let mut spreads = Spreads::new(alloc);
    for text in texts {
        spreads.add(alloc, *text)?;
    }
    Ok(spreads)
}

impl Chosen {
    /// Adds those of these names that another fragment spreads, or the others.
    fn add_all(
        &mut self,
        alloc: Global,
        spreads: &Spreads,
        names: &[String],
        are_spread: bool,
    ) -> Result<(), AllocError> {
        for name in names {
            if spreads.is_spread_by_another(name.as_str()) == are_spread {
                self.add(alloc, spreads, name.as_str())?;
            }
        }
        Ok(())
    }

    /// Adds a name, unless its fragment is reached, or reaches too much.
    fn add(&mut self, alloc: Global, spreads: &Spreads, name: &str) -> Result<(), AllocError> {
        if self.room == 0 || self.reached.contains(name) {
            return Ok(());
        }
        let mut reached = spreads.reached_from(alloc, name)?;
        if reached.tokens > self.room {
            self.room = 0;
            return Ok(());
        }
        self.room = self.room.saturating_sub(reached.tokens);
        self.reached.append(&mut reached.names)?;
        self.names.push(String::from_str(alloc, name)?)?;
        Ok(())
    }
}

/// Whether one of these reports says that no operation reaches a fragment.
pub fn has_unreached(reports: &DiagnosticList) -> bool
    ensures { result ≡ has_unreached reports.now }
{
    reports.iter().any(is_of_unreached)
}

fn is_of_unreached(entry: &DiagnosticEntry) -> bool
    ensures { result ≡ is_of_unreached entry.now }
{
    matches!(
        entry.details,
        Details::Diagnostic(DiagnosticData::UnusedFragment { .. })
    )
}

/// The text of operations that each spread one fragment alone, and have its name. The only error is a failed allocation.
///
/// Specification: 2.3 Operations, 2.8 Fragments.
pub fn spreading_operations(alloc: Global, names: &[String]) -> Result<String, AllocError>
    ensures { IfOk result (λ text. string_bytes text ≡ flat_map spreading (map string_bytes names.now)) }
{
    let mut text = String::new(alloc);
    for name in names {
        add_operation(name.as_str(), &mut text)?;
    }
    Ok(text)
}

fn add_operation(name: &str, text: &mut String) -> Result<(), AllocError>
    ensures { OnOk result (string_bytes text.new ≡ string_bytes text.old ++ spreading name.now) }
{
    text.push_str("query ")?;
    text.push_str(name)?;
    text.push_str("{...")?;
    text.push_str(name)?;
    text.push_str("}\n")?;
    Ok(())
}

/// Adds those of these reports on what is left of texts, and on operations of this further text that each spread a fragment, which are known to be true of the
/// fragments of the whole texts: none is about the further text, says that a variable is not defined, or could be false of the whole. The only error is a
/// failed allocation.
///
/// Specification: 5.8.3 All Variable Uses Defined.
pub fn add_known_of_fragments(
    reports: Vec<DiagnosticEntry>,
    doubts: &Doubts,
    further: FileId,
    known: &mut DiagnosticList,
) -> Result<(), ValidationError>
    ensures { OnOk result (entries known.new ≡ entries known.old ++ filter (is_known_of_fragment doubts.now further) reports.items) }
{
    for entry in reports {
        if is_known(&entry, doubts, further) {
            let (location, details) = entry.into_parts();
            known.push(location, details)?;
        }
    }
    Ok(())
}

fn is_known(entry: &DiagnosticEntry, doubts: &Doubts, further: FileId) -> bool
    ensures { result ≡ is_known_of_fragment doubts.now further entry.now }
{
    is_elsewhere(entry.location, further) && !is_of_variable(&entry.details) && !doubts.has(entry)
}

/// Whether the place is in another text.
fn is_elsewhere(place: Option<SourceSpan>, further: FileId) -> bool
    ensures { result ≡ is_elsewhere further place }
{
    match place {
        Some(span) => span.file_id != further,
        None => false,
    }
}

/// Whether it says that a variable is not defined.
fn is_of_variable(details: &Details) -> bool
    ensures { result ≡ is_of_variable details.now }
{
    matches!(
        details,
        Details::Diagnostic(DiagnosticData::UndefinedVariable { .. })
    )
}
