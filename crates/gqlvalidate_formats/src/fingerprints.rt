//! What tells findings apart from run to run, wherever their lines have gone.

use sha2::{Digest, Sha256};
use std::alloc::{AllocError, Global};
use std::collections::BTreeMap;

/// How often each digest has come until now.
#[derive(Drop)]
pub struct Fingerprints {
    counts: BTreeMap<[u8; 32], u64>,
}

impl Fingerprints {
    /// None has come yet.
    pub fn new(alloc: Global) -> Fingerprints {
        Fingerprints {
            counts: BTreeMap::new(alloc),
        }
    }

    /// The fingerprint of a finding: a digest of its file, its rule, its message, and how many of these came before it. Its
    /// line is no part of it, so it stays if lines are added above.
    pub fn next(
        &mut self,
        alloc: Global,
        file: &str,
        rule: &str,
        message: &str,
    ) -> Result<String, AllocError> {
        let digest = digest_of(file, rule, message, 0);
        let count = self.counts.entry(digest)?.or_insert(0);
        let before = *count;
        *count = before.saturating_add(1);
        hexadecimal(alloc, &digest_of(file, rule, message, before))
    }
}

fn digest_of(file: &str, rule: &str, message: &str, before: u64) -> [u8; 32] {
    let mut hasher = Sha256::new();
    hasher.update(file.as_bytes());
    hasher.update(&[0u8]);
    hasher.update(rule.as_bytes());
    hasher.update(&[0u8]);
    hasher.update(message.as_bytes());
    hasher.update(&[0u8]);
    hasher.update(&before.to_be_bytes());
    hasher.finalize()
}

fn hexadecimal(alloc: Global, bytes: &[u8]) -> Result<String, AllocError> {
    let mut text = String::new(alloc);
    for byte in bytes {
        write!(&mut text, "{byte:02x}")?;
    }
    Ok(text)
}
