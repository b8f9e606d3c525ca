//! A split index: several tables, one of which is picked by a key's hash.
ghost use Rattle.clock2q_uses.specs.Interning.{spread};
ghost use Rattle.clock2q_handles.specs.Partition.{IsPartitionCount, IsGroupOf};
ghost use Rattle.std.specs.Prelude.{◌≡◌, ◌≢◌, ◌<◌, ◌⊎◌, ℕ, [], Some, IfOk, OnErr, IfSome, IfNone, get_or, length, replicate, slice_get};

use crate::interning::{Interner, hash_of};
use clock2q::handles::{TableError, partition};
use std::alloc::Global;
use std::marker::Model;

/// Keys in several parts, each with a table of its own. A key is in the part of its hash's group,
/// and has a number there.
///
/// # Example
///
/// ```
/// let mut index = SplitIndex::new(rt.alloc(), 4)?;
/// let number = index.insert(70)?;
/// assert_eq!(rt; index.get(70), Some(number));
/// assert_eq!(rt; index.get(80), None);
/// ```
#[derive(Drop)]
pub struct SplitIndex {
    parts: Vec<Interner>,
}

impl Model for SplitIndex {
    ghost use Rattle.clock2q_uses.specs.Split.{IsSplit};
    ghost use Rattle.std.specs.Prelude.{ℕ, List};

    ghost Value = { List (List ℕ) };

    ghost view = { λ s. s.parts.items };

    ghost invariant = { λ s. IsSplit s.parts.items };
}

impl SplitIndex {
    /// Returns an index with this many parts, without keys.
    ///
    /// # Errors
    ///
    /// `Memory` if the list of parts can't be reserved.
    pub fn new(alloc: Global, parts: usize) -> Result<SplitIndex, TableError>
        requires count { IsPartitionCount parts }
        ensures empty { IfOk result (λ index. index ≡ replicate parts []) }
    {
        let Ok(mut made) = Vec::with_capacity(alloc, parts) else {
            return Err(TableError::Memory);
        };
        for _ in 0..parts {
            made.push_reserved(Interner::new(alloc));
        }
        Ok(SplitIndex { parts: made })
    }

    /// Returns the part that the key belongs to.
    pub fn part_of(&self, key: u64) -> usize
        ensures group { IsGroupOf (spread key) (length self.now) result }
        ensures within { result < length self.now }
    {
        partition(hash_of(key), self.parts.len())
    }

    /// Returns the key's number in its part, and gives it the part's next number if it has none.
    ///
    /// # Errors
    ///
    /// Those of [`Interner::intern`]. All keys keep their numbers, and none is added.
    pub fn insert(&mut self, key: u64) -> Result<usize, TableError>
        ensures number { IfOk result
            (λ number. (part : ℕ) → IsGroupOf (spread key) (length self.old) part →
            slice_get (get_or self.new part []) number ≡ Some key) }
        ensures kept { (part number held : ℕ) →
            slice_get (get_or self.old part []) number ≡ Some held →
            slice_get (get_or self.new part []) number ≡ Some held }
        ensures only { (part number held : ℕ) →
            slice_get (get_or self.new part []) number ≡ Some held →
            (slice_get (get_or self.old part []) number ≡ Some held) ⊎ (held ≡ key) }
        ensures refused { OnErr result (self.new ≡ self.old) }
        ensures parts { length self.new ≡ length self.old }
    {
        let part = self.part_of(key);
        self.parts[part].intern(key)
    }

    /// Returns the key's number in its part, if it has one. No other part is searched.
    pub fn get(&self, key: u64) -> Option<usize>
        ensures found { IfSome result
            (λ number. (part : ℕ) → IsGroupOf (spread key) (length self.now) part →
            slice_get (get_or self.now part []) number ≡ Some key) }
        ensures none { IfNone result
            ((part number : ℕ) → slice_get (get_or self.now part []) number ≢ Some key) }
    {
        self.parts[self.part_of(key)].number_of(key)
    }
}
