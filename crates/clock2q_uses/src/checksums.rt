//! A memo of a costly function: the checksums of documents, which depend on every byte.
ghost use Rattle.clock2q_uses.specs.Checksums.{adler32, document_checksum};
ghost use Rattle.clock2q_memo.specs.Memo.{Computes, IsCallableAt, HoldsValues};
ghost use Rattle.clock2q_machine.specs.Machine.{slot_of};
ghost use Rattle.std.specs.Fn.{FnReturnsAt};
ghost use Rattle.std.specs.NonZero.{non_zero_usize_get};
ghost use Rattle.std.specs.Prelude.{◌≡◌, ◌≢◌, ◌<◌, ◌≤◌, ◌+◌, ◌↔◌, ℕ, Err, Option, Some, eqb, IfOk, IsErrOf, IsSome, IsTrue, map};

use clock2q::memo::recall;
use clock2q::{CacheError, MAX_CAPACITY, Memo};
use std::alloc::Global;
use std::hash::BuildHasher;
use std::num::NonZeroUsize;

/// Returns the checksums of the documents with these numbers, and `None` for a number without a
/// document. Up to `capacity` checksums are remembered: a document that is requested again is read
/// again only if its checksum is no longer among them.
///
/// # Errors
///
/// `Capacity` above [`MAX_CAPACITY`], and `Memory` if a request for memory is refused. No
/// document is read then.
pub fn checksums(
    alloc: Global,
    capacity: NonZeroUsize,
    documents: &[Vec<u8>],
    numbers: Vec<usize>,
) -> Result<Vec<Option<u32>>, CacheError>
    ensures checksums { IfOk result
        (λ sums. sums.items ≡ map (document_checksum documents.now) numbers.items) }
    ensures capacity { IsErrOf result CacheError.Capacity ↔
        (MAX_CAPACITY < non_zero_usize_get capacity) }
    ensures policy { result ≢ Err CacheError.Policy }
{
    let mut memo = Memo::new(
        alloc,
        capacity,
        |number: &usize| checksum_of(documents, *number),
    )?;
    Ok(recall(alloc, &mut memo, numbers)?)
}

/// Returns true if the document with this number still has this checksum, so that it needn't be
/// sent again to a client that has the checksum.
pub fn is_unchanged<F, S>(
    memo: &mut Memo<usize, Option<u32>, F, S>,
    number: usize,
    checksum: u32,
) -> bool
where
    F: Fn(&usize) -> Option<u32>,
    S: BuildHasher,
    requires callable { IsCallableAt F.Fn memo.old.function number }
    ensures unchanged { HoldsValues eqb (FnReturnsAt F.Fn memo.old.function) memo.old.machine →
        (value : ℕ → Option ℕ) → Computes eqb (FnReturnsAt F.Fn memo.old.function) value →
        IsTrue result ↔ (value number ≡ Some checksum) }
    ensures remembers { HoldsValues eqb (FnReturnsAt F.Fn memo.old.function) memo.old.machine →
        HoldsValues eqb (FnReturnsAt F.Fn memo.new.function) memo.new.machine }
    ensures unread { IsSome (slot_of (eqb number) memo.old.machine) →
        memo.new.evaluations ≡ memo.old.evaluations }
    ensures once { memo.new.evaluations ≤ memo.old.evaluations + 1 }
{
    memo.get_recorded(number) == Some(checksum)
}

/// Returns the checksum of the document with this number, if there is one.
pub fn checksum_of(documents: &[Vec<u8>], number: usize) -> Option<u32>
    ensures checksum { result ≡ document_checksum documents.now number }
{
    documents.get(number).map(|document| adler32(document))
}

/// Returns the Adler-32 checksum of the bytes.
#[tactic(auto, unfolding(crate::specs::Checksums::adler32))]
pub fn adler32(bytes: &[u8]) -> u32
    ensures sums { result ≡ adler32 bytes.now }
{
    let mut low = 1u32;
    let mut high = 0u32;
    for byte in bytes {
        low = (low + u32::from(*byte)) % 65521;
        high = (high + low) % 65521;
    }
    high * 65536 + low
}
