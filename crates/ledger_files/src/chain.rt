//! The chain of the lines of a run: what binds each line to all before it.

use sha2::{Digest, Sha256};

/// How many octets a SHA-256 has.
pub const SUM_OCTETS: usize = 32;

/// A chain of lines, as the SHA-256 that they give: 32 zero octets without a line, and behind each line the SHA-256 of the
/// one before and of that of the line's body.
#[derive(Clone, Copy, Debug, PartialEq, Eq)]
pub struct Chain {
    sum: [u8; SUM_OCTETS],
}

impl Chain {
    ghost use Rattle.std.specs.Prelude.{◌≡◌, [], ◌∷◌, ◌++◌, ℕ, List};
    ghost use Rattle.sha2.specs.Sha256.{sha256};
    ghost use Rattle.ledger_files.specs.Chains.{chain_after, chain_from, chain_of};

    /// Returns the chain without a line.
    pub fn new() -> Chain
        ensures { result.sum ≡ chain_of [] }
    {
        let sum = [0; SUM_OCTETS];
        Chain { sum }
    }

    /// Returns the chain that has this sum.
    pub fn from_sum(sum: [u8; SUM_OCTETS]) -> Chain
        ensures { result.sum ≡ sum }
    {
        Chain { sum }
    }

    /// Returns the sum.
    pub fn sum(&self) -> [u8; SUM_OCTETS]
        ensures { result ≡ self.now.sum }
    {
        self.sum
    }

    /// Adds the line of a body.
    pub fn add(&mut self, body: &[u8])
        ensures after { self.new.sum ≡ chain_after self.old.sum (sha256 body.now) }
        ensures lines { (bodies : List (List ℕ)) → self.old.sum ≡ chain_of bodies → self.new.sum ≡ chain_of (bodies ++ body.now ∷ []) }
    {
        self.add_digest(Sha256::digest(body));
    }

    /// Adds the line whose body has this SHA-256.
    pub fn add_digest(&mut self, digest: [u8; SUM_OCTETS])
        ensures after { self.new.sum ≡ chain_after self.old.sum digest }
        ensures digests { (sum : List ℕ) (digests : List (List ℕ)) → self.old.sum ≡ chain_from sum digests → self.new.sum ≡ chain_from sum (digests ++ digest ∷ []) }
    {
        let mut hasher = Sha256::new();
        hasher.update(self.sum.as_slice());
        hasher.update(digest.as_slice());
        self.sum = hasher.finalize();
    }
}
