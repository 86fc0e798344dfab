//! Tests of the way from texts to a verdict: what each stage reports, and where. `scripts/check-texts` has more texts.
#![tactic(auto)]

#[cfg(test)]
mod bounds;
#[cfg(test)]
mod documents;
#[cfg(test)]
mod introspection;
#[cfg(test)]
mod reach;
#[cfg(test)]
mod reports;
#[cfg(test)]
mod sequences;
#[cfg(test)]
mod standalone;
#[cfg(test)]
mod verdicts;
