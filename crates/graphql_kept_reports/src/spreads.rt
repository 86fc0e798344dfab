//! Which fragments spread which.

use crate::names::add_name;
use crate::uses::{Meaning, meaning_of};
use graphql_tokens::{Token, TokenKind, scan};
use std::alloc::{AllocError, Global};
use std::collections::{BTreeMap, BTreeSet};

/// A fragment of a text.
#[derive(Drop)]
struct Fragment {
    /// How many tokens it has.
    tokens: usize,
    /// The fragments that it spreads.
    spreads: Vec<String>,
}

/// The fragments of texts, and which each of them spreads.
#[derive(Drop)]
pub(crate) struct Spreads {
    fragments: BTreeMap<String, Fragment>,
    /// Those that another fragment spreads.
    spread_by_others: BTreeSet<String>,
    /// How many tokens the texts have.
    pub(crate) tokens: usize,
}

/// Where a text is read.
#[derive(Drop)]
struct Reading<'a> {
    /// How many braces are open.
    depth: usize,
    /// The fragment whose definition it is.
    fragment: Option<&'a str>,
}

/// The fragments that one reaches, itself among them, and how many tokens they have together.
#[derive(Drop)]
pub(crate) struct Reached {
    pub(crate) names: BTreeSet<String>,
    pub(crate) tokens: usize,
}

impl Spreads {
    /// The fragments of no texts.
    pub(crate) fn new(alloc: Global) -> Spreads {
        Spreads {
            fragments: BTreeMap::new(alloc),
            spread_by_others: BTreeSet::new(alloc),
            tokens: 0,
        }
    }

    /// Adds those of a text.
    pub(crate) fn add(&mut self, alloc: Global, text: &str) -> Result<(), AllocError> {
        let scanned = scan(alloc, text, usize::MAX)?;
        let mut reading = Reading {
            depth: 0,
            fragment: None,
        };
        let mut tokens = scanned.tokens.as_slice();
        while let [first, rest @ ..] = tokens {
            self.add_token(alloc, text, *first, tokens, &mut reading)?;
            tokens = rest;
        }
        Ok(())
    }

    /// Adds the first of these tokens.
    fn add_token<'a>(
        &mut self,
        alloc: Global,
        text: &'a str,
        first: Token,
        tokens: &[Token],
        reading: &mut Reading<'a>,
    ) -> Result<(), AllocError> {
        self.tokens = self.tokens.saturating_add(1);
        match meaning_of(text, tokens) {
            Meaning::Defines(name) if reading.depth == 0 => {
                reading.fragment = Some(name);
                self.begin(alloc, name)?;
            }
            Meaning::Spreads(name) => self.add_spread(alloc, reading.fragment, name)?,
            _ => {}
        }
        self.count_token(reading.fragment);
        reading.pass(first.kind);
        Ok(())
    }

    /// Begins the definition of a fragment.
    fn begin(&mut self, alloc: Global, name: &str) -> Result<(), AllocError> {
        if self.fragments.contains_key(name) {
            return Ok(());
        }
        let fragment = Fragment {
            tokens: 0,
            spreads: Vec::new(alloc),
        };
        self.fragments
            .insert(String::from_str(alloc, name)?, fragment)?;
        Ok(())
    }

    /// Counts a token of a fragment.
    fn count_token(&mut self, name: Option<&str>) {
        let Some(name) = name else {
            return;
        };
        if let Some(fragment) = self.fragments.get_mut(name) {
            fragment.tokens = fragment.tokens.saturating_add(1);
        }
    }

    /// Adds a spread in a fragment.
    fn add_spread(
        &mut self,
        alloc: Global,
        spreading: Option<&str>,
        spread: &str,
    ) -> Result<(), AllocError> {
        let Some(spreading) = spreading else {
            return Ok(());
        };
        if spreading != spread {
            add_name(alloc, spread, &mut self.spread_by_others)?;
        }
        if let Some(fragment) = self.fragments.get_mut(spreading) {
            fragment.spreads.push(String::from_str(alloc, spread)?)?;
        }
        Ok(())
    }

    /// Whether another fragment spreads the one of this name.
    pub(crate) fn is_spread_by_another(&self, name: &str) -> bool {
        self.spread_by_others.contains(name)
    }

    /// The fragments that the one of this name reaches.
    pub(crate) fn reached_from(&self, alloc: Global, name: &str) -> Result<Reached, AllocError> {
        let mut reached = Reached {
            names: BTreeSet::new(alloc),
            tokens: 0,
        };
        let mut waiting = Vec::new(alloc);
        waiting.push(String::from_str(alloc, name)?)?;
        for _ in 0..self.tokens {
            let Some(name) = waiting.pop() else {
                break;
            };
            self.reach(alloc, name, &mut waiting, &mut reached)?;
        }
        Ok(reached)
    }

    /// Adds a fragment to those that are reached. What it spreads waits.
    fn reach(
        &self,
        alloc: Global,
        name: String,
        waiting: &mut Vec<String>,
        reached: &mut Reached,
    ) -> Result<(), AllocError> {
        if reached.names.contains(name.as_str()) {
            return Ok(());
        }
        if let Some(fragment) = self.fragments.get(name.as_str()) {
            reached.tokens = reached.tokens.saturating_add(fragment.tokens);
            add_names(alloc, &fragment.spreads, waiting)?;
        }
        reached.names.insert(name)?;
        Ok(())
    }
}

impl Reading<'_> {
    /// Goes on after a token.
    fn pass(&mut self, kind: TokenKind) {
        match kind {
            TokenKind::LeftBrace => self.depth = self.depth.saturating_add(1),
            TokenKind::RightBrace => {
                self.depth = self.depth.saturating_sub(1);
                if self.depth == 0 {
                    self.fragment = None;
                }
            }
            _ => {}
        }
    }
}

fn add_names(alloc: Global, names: &[String], all: &mut Vec<String>) -> Result<(), AllocError> {
    for name in names {
        all.push(String::from_str(alloc, name.as_str())?)?;
    }
    Ok(())
}
