//! Shared secrets.

use crate::octets::put;
use std::error::Error;
use std::fmt;
use std::marker::Model;

/// The most octets of a secret. RFC 2865 section 3 has no such limit: it is our own.
pub const GREATEST_SECRET_LENGTH: usize = 128;

/// A shared secret (RFC 2865 section 3) of 1 to 128 octets. It is stored without an allocation.
#[derive(Clone, Copy)]
pub struct Secret {
    /// The secret, padded with zeros.
    octets: [u8; GREATEST_SECRET_LENGTH],
    /// The length of the secret in octets.
    count: usize,
}

/// Why octets cannot be a secret.
#[derive(Clone, Copy, Debug, PartialEq, Eq)]
pub enum SecretFault {
    /// There are no octets (RFC 2865 section 3 forbids an empty secret).
    Empty,
    /// There are more than 128 octets.
    TooLong,
}

impl Model for Secret {
    ghost use Rattle.std.specs.Prelude.{List, ℕ, ◌++◌, ◌-◌, ◌≤◌, length, take, replicate};
    ghost use Rattle.std.proofs.Common.{ap, subst, sym, ◌∙◌, length-take-le};
    ghost use Rattle.rad_auth.specs.internal.KeptSecret.{IsFilled};

    ghost Value = { List ℕ };

    ghost view = { λ s. take s.count s.octets };

    ghost invariant = { λ s. IsFilled s.octets s.count };

    ghost inverse = { λ octets. record { octets = octets ++ replicate (128 - length octets) 0; count = length octets } };

    ghost inverse_ok = { λ s filled.
        let counted = length-take-le s.count s.octets (subst (λ n. s.count ≤ n) (sym filled.room) filled.most) in
        λ i. record {
          octets = (ap (λ n. take s.count s.octets ++ replicate (128 - n) 0) counted ∙ sym filled.zeros) i;
          count = counted i;
        } };
}

impl Secret {
    ghost use Rattle.std.specs.Prelude.{◌≡◌, ◌<◌, ◌≤◌, length, MatchResult};
    ghost use Rattle.rad_auth.specs.Secret.{RefusesSecret};

    /// Makes a secret of these octets.
    ///
    /// # Errors
    ///
    /// `Empty` if there are no octets, `TooLong` if there are more than 128.
    pub fn new(octets: &[u8]) -> Result<Secret, SecretFault>
        ensures { MatchResult result (λ secret. secret ≡ octets.now) (λ fault. RefusesSecret octets.now fault) }
    {
        let count = octets.len();
        if count == 0 {
            return Err(SecretFault::Empty);
        }
        if count > GREATEST_SECRET_LENGTH {
            return Err(SecretFault::TooLong);
        }
        let mut filled = [0; GREATEST_SECRET_LENGTH];
        put(&mut filled, octets);
        Ok(Secret {
            octets: filled,
            count,
        })
    }

    /// Returns the octets.
    pub fn octets(&self) -> &[u8]
        ensures value { result.now ≡ self.now }
        ensures least { 0 < length self.now }
        ensures most { length self.now ≤ 128 }
    {
        &self.octets[..self.count]
    }
}

impl fmt::Display for SecretFault {
    ghost use Rattle.std.specs.Prelude.{Some};
    ghost use Rattle.rad_auth.specs.Faults.{secret_fault_text};

    ghost output = { λ fault. Some (secret_fault_text fault) };

    fn fmt<W: fmt::Write>(&self, f: &mut fmt::Formatter<W>) -> fmt::Result {
        match self {
            SecretFault::Empty => f.write_str("Empty"),
            SecretFault::TooLong => f.write_str("TooLong"),
        }
    }
}

impl Error for SecretFault {}
