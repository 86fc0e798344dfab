//! Seeds, and the hashers of a seed.

ghost use Rattle.std.specs.Prelude.{◌≡◌};
ghost use Rattle.graphql_hash_seeds.specs.Seeds.{digest_of, finish, folded_multiply, initial_hasher, seed_of, word_of, write};

use std::hash::{BuildHasher, DefaultHasher, FoldHasher, Hasher};

/// What the hashes of a map depend on beside its keys. Equal keys have equal hashes in maps of one seed; which keys collide
/// cannot be known without it.
#[derive(Clone, Copy, Debug)]
pub struct HashSeed {
    prefixed: FoldHasher,
    mask: u64,
    multiplier: u64,
}

impl HashSeed {
    /// The seed that this number stands for. Draw the number at random where whoever chooses the keys could find out how
    /// others are made.
    #[tactic(auto, unfolding(crate::specs::Seeds::seed_of))]
    pub fn new(number: u64) -> HashSeed
        ensures { result ≡ seed_of number }
    {
        let mut prefixed = FoldHasher::default();
        prefixed.write_u64(word(number, 0));
        HashSeed {
            prefixed,
            mask: word(number, 1),
            multiplier: word(number, 2) | 1,
        }
    }

    /// The seed that is drawn from a text: for the keys that it contains, so that another text has other collisions.
    #[tactic(auto, unfolding(crate::specs::Seeds::digest_of))]
    pub fn of_text(text: &str) -> HashSeed
        ensures { result ≡ seed_of (digest_of text.now) }
    {
        let mut digest = DefaultHasher::new();
        digest.write(text.as_bytes());
        HashSeed::new(digest.finish())
    }
}

/// The seed of keys that nobody chose to collide.
impl Default for HashSeed {
    ghost is_default = { λ seed. seed ≡ seed_of 0 };

    fn default() -> HashSeed {
        HashSeed::new(0)
    }
}

#[tactic(auto, unfolding(crate::specs::Seeds::word_of))]
fn word(number: u64, index: u64) -> u64
    ensures { result ≡ word_of number index }
{
    let mut hasher = DefaultHasher::new();
    hasher.write_u64(number);
    hasher.write_u64(index);
    hasher.finish()
}

impl BuildHasher for HashSeed {
    type Hasher = SeededHasher;

    ghost build_hasher = { initial_hasher };

    fn build_hasher(&self) -> SeededHasher {
        SeededHasher {
            inner: self.prefixed,
            mask: self.mask,
            multiplier: self.multiplier,
        }
    }
}

/// The hasher of a seed. What is written goes behind a prefix that the seed tells, and what comes of it is multiplied by a
/// number that the seed tells, which is odd.
#[derive(Clone, Copy, Debug)]
pub struct SeededHasher {
    inner: FoldHasher,
    mask: u64,
    multiplier: u64,
}

impl Hasher for SeededHasher {
    ghost write = { write };

    ghost finish = { finish };

    fn finish(&self) -> u64 {
        folded_multiply(self.inner.finish() ^ self.mask, self.multiplier)
    }

    fn write(&mut self, bytes: &[u8]) {
        self.inner.write(bytes);
    }
}

/// The two halves of the 128 bits of a product, joined by exclusive or.
#[tactic(auto, unfolding(crate::specs::Seeds::folded_multiply))]
fn folded_multiply(a: u64, b: u64) -> u64
    ensures { result ≡ folded_multiply a b }
{
    let product = a as u128 * b as u128;
    (product & 0xFFFF_FFFF_FFFF_FFFF) as u64 ^ (product >> 64) as u64
}
