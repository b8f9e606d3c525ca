//! A key by its hash.
ghost use Rattle.std.specs.Cmp.Rules.{comparing, hashing};
ghost use Rattle.std.specs.Hash as fed;
ghost use Rattle.std.proofs.Common.{rules};

use std::hash::{Hash, Hasher};

/// The hash of a key, and a number in which the tokens of one hash differ. Two tokens of one hash are
/// equal if their numbers are. Only the hash is hashed.
///
/// # Example
///
/// ```
/// let one = Token { hash: 7, number: 0 };
/// let other = Token { hash: 7, number: 1 };
/// assert!(rt; one != other);
/// ```
#[derive(Clone, Copy, Debug, PartialEq, Eq)]
pub struct Token {
    /// The hash.
    pub hash: u64,
    /// The number.
    pub number: u64,
}

impl Hash for Token {
    ghost hash_input = { λ token. fed.u64 token.hash };

    ghost respects_eq = { Prim.search (hashing, comparing, rules) };

    fn hash<H: Hasher>(&self, state: &mut H) {
        state.write_u64(self.hash);
    }
}
