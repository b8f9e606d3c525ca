//! Splitting keys among several tables.
ghost use Rattle.clock2q_handles.specs.Partition.{IsPartitionCount, IsGroupOf, SameMiddle};
ghost use Rattle.std.specs.Prelude.{◌≡◌, ◌<◌, ℕ};

/// Returns the group that `hash` falls into, below `partitions`, which is a power of two.
///
/// The group comes from the bits just below the top byte. A table of fewer than 2^40 slots reads
/// none of them, so keys that are split among tables by group stay spread over every home and
/// fingerprint of their own table.
///
/// # Cost
///
/// A few arithmetic operations, the same for every hash and count.
///
/// # Example
///
/// ```
/// let table = &mut tables[partition(hash, 16)];
/// ```
#[tactic(auto, using(crate::proofs::Groups::trailing_zeros_le, crate::proofs::Groups::group_of))]
pub fn partition(hash: u64, partitions: usize) -> usize
    requires count { IsPartitionCount partitions }
    ensures group { IsGroupOf hash partitions result }
    ensures within { result < partitions }

    // Neither the top byte nor the low 40 bits change the group.
    ensures middle { (other : ℕ) → SameMiddle hash other → IsGroupOf other partitions result }
{
    let shift = 56 - partitions.trailing_zeros();
    (hash >> shift) as usize & (partitions - 1)
}
