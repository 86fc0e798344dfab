//! Hashes that depend on a seed, for maps whose keys come from outside: without the seed no keys are known that collide.
#![tactic(auto)]

pub mod seeds;

pub use seeds::HashSeed;
