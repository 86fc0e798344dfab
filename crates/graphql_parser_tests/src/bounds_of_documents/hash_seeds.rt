//! Seeds of hashes.

use graphql_hash_seeds::HashSeed;
use std::hash::BuildHasher;

#[test]
fn one_seed_hashes_a_text_to_one_number(rt: HostRuntime) {
    let seed = HashSeed::of_text("{ a }");
    assert_eq!(rt; seed.hash_one("name"), seed.hash_one("name"));
    assert_ne!(rt; seed.hash_one("name"), seed.hash_one("names"));
}

#[test]
fn other_texts_and_numbers_give_other_seeds(rt: HostRuntime) {
    let a = HashSeed::of_text("{ a }");
    let b = HashSeed::of_text("{ b }");
    assert_ne!(rt; a.hash_one("name"), b.hash_one("name"));
    let first = HashSeed::new(1);
    let second = HashSeed::new(2);
    assert_ne!(rt; first.hash_one("name"), second.hash_one("name"));
}
