//! Which reports on what is left of texts could be false of the whole texts.

ghost use Rattle.std.specs.Prelude.{◌≡◌};
ghost use Rattle.std.specs.BTreeSet.{contains_text};
ghost use Rattle.graphql_kept_reports.specs.Doubtful.{asks_for_what_is_there, has_doubtful, is_doubtful, may_be_of_type_name};

use crate::names::add_name;
use crate::uses::{Meaning, meaning_of};
use graphql_diagnostics::{BuildError, Details, DiagnosticData, DiagnosticEntry, DiagnosticList};
use graphql_nodes::Name;
use graphql_tokens::{Token, scan};
use std::alloc::{AllocError, Global};
use std::collections::BTreeSet;

/// What is used in whole texts, and in the parts that are left out of them.
#[derive(Drop)]
pub struct Doubts {
    /// The variables that are used in a part that is left out.
    left_out: BTreeSet<String>,
    /// The variables that are used in the whole texts.
    used: BTreeSet<String>,
    /// The fragments that are spread in the whole texts.
    spread: BTreeSet<String>,
    /// The fragments that the whole texts define.
    defined: BTreeSet<String>,
    /// A fragment is spread in a part that is left out.
    has_spread: bool,
    /// `__typename` is in the place of a part.
    has_type_name: bool,
}

impl Doubts {
    /// Nothing is left out of no text.
    pub fn new(alloc: Global) -> Doubts {
        Doubts {
            left_out: BTreeSet::new(alloc),
            used: BTreeSet::new(alloc),
            spread: BTreeSet::new(alloc),
            defined: BTreeSet::new(alloc),
            has_spread: false,
            has_type_name: false,
        }
    }

    /// `__typename` is in the place of a part.
    pub fn note_type_name(&mut self) {
        self.has_type_name = true;
    }

    /// Adds a text of which this is left. The only error is a failed allocation.
    pub fn add(&mut self, alloc: Global, whole: &str, left: &str) -> Result<(), AllocError> {
        let scanned = scan(alloc, whole, usize::MAX)?;
        let mut tokens = scanned.tokens.as_slice();
        while let [first, rest @ ..] = tokens {
            self.add_token(alloc, whole, left, *first, tokens)?;
            tokens = rest;
        }
        Ok(())
    }

    /// Adds the first of these tokens.
    fn add_token(
        &mut self,
        alloc: Global,
        whole: &str,
        left: &str,
        first: Token,
        tokens: &[Token],
    ) -> Result<(), AllocError> {
        match meaning_of(whole, tokens) {
            Meaning::Nothing => Ok(()),
            Meaning::UsesVariable(name) => {
                if is_left_out(whole, left, first) {
                    add_name(alloc, name, &mut self.left_out)?;
                }
                add_name(alloc, name, &mut self.used)
            }
            Meaning::Spreads(name) => {
                if is_left_out(whole, left, first) {
                    self.has_spread = true;
                }
                add_name(alloc, name, &mut self.spread)
            }
            Meaning::Defines(name) => add_name(alloc, name, &mut self.defined),
        }
    }

    /// Whether one of these reports on what is left could be false of the whole.
    pub fn has_any(&self, list: &DiagnosticList) -> bool
        ensures { result ≡ has_doubtful self.now list.now }
    {
        list.iter().any(|entry| self.has(entry))
    }

    /// Whether the report on what is left could be false of the whole:
    ///
    /// - a variable is reported as unused which is used in a part that is left out, or may be in a fragment that is spread there
    /// - a fragment is reported as unused that is spread, if a spread is left out: the one that is left out may lead to it
    /// - a fragment is reported as undefined that is defined
    /// - a field `__typename` is compared, or counted, that is in the place of a part
    ///
    /// Specification: 5.2.3.1 Single Root Field, 5.3.2 Field Selection Merging, 5.5.1.4 Fragments Must Be Used, 5.5.2.1 Fragment Spread Target Defined,
    /// 5.8.4 All Variables Used.
    pub fn has(&self, entry: &DiagnosticEntry) -> bool
        ensures { result ≡ is_doubtful self.now entry.now }
    {
        match &entry.details {
            Details::Diagnostic(diagnostic) => self.has_rule(diagnostic),
            Details::Build(error) => self.has_type_name && may_be_of_type_name(error),
            Details::RecursionLimit(_) => false,
        }
    }

    fn has_rule(&self, diagnostic: &DiagnosticData) -> bool
        ensures { result ≡ asks_for_what_is_there self.now diagnostic.now }
    {
        match diagnostic {
            DiagnosticData::UnusedVariable { name } => {
                has_name(&self.left_out, name) || self.has_spread && has_name(&self.used, name)
            }
            DiagnosticData::UnusedFragment { name } => {
                self.has_spread && has_name(&self.spread, name)
            }
            DiagnosticData::UndefinedFragment { name } => has_name(&self.defined, name),
            _ => false,
        }
    }
}

/// Whether the report could be of a field `__typename`.
fn may_be_of_type_name(error: &BuildError) -> bool
    ensures { result ≡ may_be_of_type_name error.now }
{
    match error {
        BuildError::SubscriptionUsesIntrospection { .. }
        | BuildError::SubscriptionUsesMultipleFields { .. } => true,
        BuildError::ConflictingFieldName { alias, .. }
        | BuildError::ConflictingFieldArgument { alias, .. }
        | BuildError::ConflictingFieldType { alias, .. } => alias.as_str() == "__typename",
        _ => false,
    }
}

/// Whether the first byte of a token is no longer there.
fn is_left_out(whole: &str, left: &str, token: Token) -> bool {
    let at = token.start as usize;
    whole.as_bytes().get(at) != left.as_bytes().get(at)
}

pub(crate) fn has_name(names: &BTreeSet<String>, name: &Name) -> bool
    ensures { result ≡ contains_text names.now name.now.text }
{
    names.contains(name.as_str())
}
