//! The callers in `clock2q_uses`, run.
ghost use Rattle.std.specs.Prelude.{◌≡◌, ℕ, Bool, List};
ghost use Rattle.clock2q_memo.specs.Memo.{IsCallableAt};
ghost use Rattle.clock2q_uses.specs.WriteBack.{IsInStep};

use clock2q::{Cache, CacheError, MAX_CAPACITY, Memo};
use clock2q_uses::checksums::{adler32, checksums, is_unchanged};
use clock2q_uses::interning::Interner;
use clock2q_uses::pages::{load, read_pages};
use clock2q_uses::records::{NoRecord, record_of};
use clock2q_uses::replay::replay;
use clock2q_uses::scans::put_all;
use clock2q_uses::split::SplitIndex;
use clock2q_uses::squares::square_of;
use clock2q_uses::write_back::{flush, read_block, write_block};
use std::alloc::{AllocError, Global};
use std::num::NonZeroUsize;
use std::test::Fail;
use testing::{same, same_at};

#[test]
fn known_checksums(rt: HostRuntime) -> Result<(), Fail> {
    same(adler32(b""), 1)?;
    same(adler32(b"Wikipedia"), 0x11E6_0398)
}

/// A text and an empty one.
fn documents(alloc: Global) -> Result<Vec<Vec<u8>>, AllocError> {
    Ok(vec![in alloc; Vec::from_slice(alloc, b"Wikipedia")?, Vec::new(alloc)]?)
}

#[test]
fn asked_for_again(rt: HostRuntime) -> Result<(), Fail> {
    let numbers = vec![in rt.alloc(); 0, 1, 0, 2, 0]?;
    let capacity = NonZeroUsize::new(1).unwrap_or(NonZeroUsize::MIN);
    let sums = checksums(rt.alloc(), capacity, &documents(rt.alloc())?, numbers)?;
    let wikipedia = Some(0x11E6_0398);
    let wanted = [wikipedia, Some(1), wikipedia, None, wikipedia];
    same(sums.as_slice(), wanted.as_slice())
}

/// The number of a document is its checksum here.
fn copies_are_known<F: Fn(&usize) -> Option<u32>>(
    memo: &mut Memo<usize, Option<u32>, F>,
) -> Result<(), Fail>
    requires { (function : F) (key : ℕ) → IsCallableAt F.Fn function key }
{
    let known = (is_unchanged(memo, 7, 7), is_unchanged(memo, 7, 8));
    same(known, (true, false))
}

#[test]
fn a_client_with_a_copy(rt: HostRuntime) -> Result<(), Fail> {
    let capacity = NonZeroUsize::new(2).unwrap_or(NonZeroUsize::MIN);
    let mut memo = Memo::new(
        rt.alloc(),
        capacity,
        |number: &usize| u32::try_from(*number).ok(),
    )?;
    copies_are_known(&mut memo)
}

/// Five keys get their numbers, and keep them.
fn five_keys(interner: &mut Interner) -> Result<(), Fail> {
    for round in 0..2 {
        for (number, key) in [7, 23, 7 << 32, 0, u64::MAX].iter().enumerate() {
            same_at(interner.intern(*key)?, number, round)?;
        }
    }
    Ok(())
}

/// A hundred more keys.
fn keys_after_them(interner: &mut Interner) -> Result<(), Fail> {
    for key in 100..200 {
        interner.intern(key)?;
    }
    let again = (interner.intern(23)?, interner.intern(100)?);
    let known = (interner.number_of(23), interner.number_of(24));
    same((again, known), ((1, 5), (Some(1), None)))
}

#[test]
fn equal_keys_have_one_number(rt: HostRuntime) -> Result<(), Fail> {
    let mut interner = Interner::new(rt.alloc());
    five_keys(&mut interner)?;
    keys_after_them(&mut interner)
}

/// Three pages in two frames.
fn pages_are_loaded(pages: &mut Cache<usize, Option<usize>>) -> Result<(), Fail>
    requires two { pages.old.machine.shares.capacity ≡ 2 }
{
    let mut frames = [0u8; 2];
    let file = b"abc";
    let first = load(pages, &mut frames, file, 0);
    let second = load(pages, &mut frames, file, 1);
    let third = load(pages, &mut frames, file, 2);
    let full = frames;
    let is_third = clock2q_pages::is_in(pages, 0, 2);
    let is_first = clock2q_pages::is_in(pages, 0, 0);
    let again = load(pages, &mut frames, file, 0);
    let loaded = ([first, second, third, again], is_third, is_first);
    let wanted = ([0, 1, 0, 1], true, false);
    same((loaded, full, frames), (wanted, *b"cb", *b"ca"))
}

#[test]
fn three_pages_in_two_frames(rt: HostRuntime) -> Result<(), Fail> {
    let capacity = NonZeroUsize::new(2).unwrap_or(NonZeroUsize::MIN);
    pages_are_loaded(&mut Cache::new(rt.alloc(), capacity)?)
}

#[test]
fn pages_through_one_frame(rt: HostRuntime) -> Result<(), Fail> {
    let capacity = NonZeroUsize::new(1).unwrap_or(NonZeroUsize::MIN);
    let mut frames = [0u8; 1];
    let read = read_pages(rt.alloc(), capacity, &mut frames, b"abc", &[2, 3, 2, 0])?;
    let expected = [Some(b'c'), None, Some(b'c'), Some(b'a')];
    same(read.as_slice(), expected.as_slice())
}

/// A record that isn't there changes nothing: the one in the slot stays.
fn records_are_read(records: &mut Cache<usize, u8>) -> Result<(), Fail> {
    let read = record_of(records, b"abc", 2);
    let missing = record_of(records, b"abc", 3);
    let kept = records.peek(&2).copied();
    let again = record_of(records, b"", 2);
    let other = record_of(records, b"abc", 0);
    let left = records.peek(&2).copied();
    let wanted = [Ok(b'c'), Err(NoRecord), Ok(b'c'), Ok(b'a')];
    same(
        ([read, missing, again, other], kept, left),
        (wanted, Some(b'c'), None),
    )
}

#[test]
fn records_through_one_slot(rt: HostRuntime) -> Result<(), Fail> {
    let capacity = NonZeroUsize::new(1).unwrap_or(NonZeroUsize::MIN);
    records_are_read(&mut Cache::new(rt.alloc(), capacity)?)
}

#[test]
fn hits(rt: HostRuntime) -> Result<(), Fail> {
    let rows: [(usize, &[u64], Result<usize, CacheError>); 4] = [
        (2, &[], Ok(0)),
        (2, &[1, 1, 2, 1, 2], Ok(3)),
        (2, &[1, 2, 3, 4], Ok(0)),
        (MAX_CAPACITY + 1, &[1], Err(CacheError::Capacity)),
    ];
    for (capacity, trace, wanted) in rows {
        let capacity = NonZeroUsize::new(capacity).unwrap_or(NonZeroUsize::MIN);
        same(replay(rt.alloc(), capacity, trace), wanted)?;
    }
    Ok(())
}

/// A hundred keys are found by the numbers that a second insertion returns.
fn keys_are_found(index: &mut SplitIndex) -> Result<(), Fail> {
    for key in 0..100 {
        index.insert(key)?;
    }
    for key in 0..100 {
        let number = index.insert(key)?;
        same(index.get(key), Some(number))?;
    }
    same(index.get(100), None)
}

#[test]
fn each_key_is_found_in_its_part(rt: HostRuntime) -> Result<(), Fail> {
    keys_are_found(&mut SplitIndex::new(rt.alloc(), 4)?)
}

/// Squares in one slot.
fn squares_are_returned(squares: &mut Cache<u64, u64>) -> Result<(), Fail> {
    let first = square_of(squares, 12);
    let again = square_of(squares, 12);
    let other = square_of(squares, 3);
    let is_left = squares.contains(&12);
    same((first, again, other, is_left), (144, 144, 9, false))
}

#[test]
fn squares_in_one_slot(rt: HostRuntime) -> Result<(), Fail> {
    let capacity = NonZeroUsize::new(1).unwrap_or(NonZeroUsize::MIN);
    squares_are_returned(&mut Cache::new(rt.alloc(), capacity)?)
}

/// A cache is filled with the keys 1 to 20, of which 3 to 20 are in Main: these are still there
/// after a scan of as many other keys, and the two of Small aren't.
fn main_outlives_a_scan(cache: &mut Cache<u64, u64>) -> Result<(), Fail> {
    put_all(
        cache,
        &[
            1, 2, 3, 4, 5, 6, 7, 8, 9, 10, 11, 12, 13, 14, 15, 16, 17, 18, 19, 20,
        ],
    );
    put_all(
        cache,
        &[
            21, 22, 23, 24, 25, 26, 27, 28, 29, 30, 31, 32, 33, 34, 35, 36, 37, 38, 39, 40,
        ],
    );
    for key in 1..=20 {
        same_at(cache.contains(&key), key > 2, key)?;
    }
    Ok(())
}

#[test]
fn a_scan_leaves_main(rt: HostRuntime) -> Result<(), Fail> {
    let capacity = NonZeroUsize::new(20).unwrap_or(NonZeroUsize::MIN);
    main_outlives_a_scan(&mut Cache::new(rt.alloc(), capacity)?)
}

/// Three blocks through one slot: what is written goes to the device when its slot is needed, or at
/// the flush.
fn blocks_are_written_back(cache: &mut Cache<usize, u8>) -> Result<(), Fail>
    requires fresh { (dirty : List Bool) (device : List ℕ) →
        IsInStep cache.old.machine dirty device }
{
    let mut dirty = [false; 3];
    let mut device = *b"abc";
    write_block(cache, &mut dirty, &mut device, 0, b'A');
    let unwritten = device;
    let second = read_block(cache, &mut dirty, &mut device, 1);
    let evicted = device;
    let first = read_block(cache, &mut dirty, &mut device, 0);
    write_block(cache, &mut dirty, &mut device, 0, b'Z');
    write_block(cache, &mut dirty, &mut device, 2, b'C');
    let replaced = device;
    flush(cache, &mut dirty, &mut device);
    let flushed = device;
    let clean = dirty;
    let third = read_block(cache, &mut dirty, &mut device, 2);
    let devices = [unwritten, evicted, replaced, flushed];
    let wanted = [*b"abc", *b"Abc", *b"Zbc", *b"ZbC"];
    same(
        (devices, [second, first, third], clean),
        (wanted, [b'b', b'A', b'C'], [false; 3]),
    )
}

#[test]
fn blocks_through_one_slot(rt: HostRuntime) -> Result<(), Fail> {
    let capacity = NonZeroUsize::new(1).unwrap_or(NonZeroUsize::MIN);
    blocks_are_written_back(&mut Cache::new(rt.alloc(), capacity)?)
}
