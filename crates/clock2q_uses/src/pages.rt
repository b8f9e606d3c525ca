//! A page cache: the pages of a file that are in memory, each in a frame of its own.
ghost use Rattle.clock2q_pages.specs.Pages.{IsLoaded, resident_frame};
ghost use Rattle.clock2q_uses.specs.Pages.{AreLoaded};
ghost use Rattle.std.specs.NonZero.{non_zero_usize_get};
ghost use Rattle.std.specs.Prelude.{◌≡◌, ◌≢◌, ◌<◌, ◌≤◌, ◌↔◌, Err, Some, IfOk, OnErr, IsErrOf, length, map, slice_get};

use clock2q::{Cache, CacheError, MAX_CAPACITY};
use clock2q_pages::enter;
use std::alloc::{AllocError, Global};
use std::hash::BuildHasher;
use std::num::NonZeroUsize;

/// Returns the frame of a page, with the page in it. A page that isn't loaded is copied from the
/// file.
pub fn load<T: Copy, S: BuildHasher>(
    pages: &mut Cache<usize, Option<usize>, S>,
    frames: &mut [T],
    file: &[T],
    page: usize,
) -> usize
    requires page { page < length file.now }
    requires frames { pages.old.machine.shares.capacity ≤ length frames.old }
    ensures resident { resident_frame pages.new.machine page ≡ Some result }
    ensures within { result < pages.old.machine.shares.capacity }
    ensures content { AreLoaded file.now pages.old.machine frames.old →
        slice_get frames.new result ≡ slice_get file.now page }
    ensures loaded { AreLoaded file.now pages.old.machine frames.old →
        AreLoaded file.now pages.new.machine frames.new }
    ensures unread { IsLoaded pages.old.machine page result → frames.new ≡ frames.old }
    ensures shares { pages.new.machine.shares ≡ pages.old.machine.shares }
{
    let (frame, last) = enter(pages, page);
    if last != Some(page) {
        frames[frame] = file[page];
    }
    frame
}

/// Returns the pages with these numbers in order, each read through its frame, and `None` for a
/// number without a page.
///
/// # Errors
///
/// `Capacity` above [`MAX_CAPACITY`], and `Memory` if a request for memory is refused. No page
/// is copied then.
pub fn read_pages<T: Copy>(
    alloc: Global,
    capacity: NonZeroUsize,
    frames: &mut [T],
    file: &[T],
    numbers: &[usize],
) -> Result<Vec<Option<T>>, CacheError>
    requires frames { non_zero_usize_get capacity ≤ length frames.old }
    ensures pages { IfOk result (λ read. read.items ≡ map (slice_get file.now) numbers.now) }
    ensures unread { OnErr result (frames.new ≡ frames.old) }
    ensures capacity { IsErrOf result CacheError.Capacity ↔
        (MAX_CAPACITY < non_zero_usize_get capacity) }
    ensures policy { result ≢ Err CacheError.Policy }
{
    let mut pages = Cache::new(alloc, capacity)?;
    Ok(read_each(alloc, &mut pages, frames, file, numbers)?)
}

/// Does the same through a cache whose pages are in their frames.
fn read_each<T: Copy>(
    alloc: Global,
    pages: &mut Cache<usize, Option<usize>>,
    frames: &mut [T],
    file: &[T],
    numbers: &[usize],
) -> Result<Vec<Option<T>>, AllocError>
    requires frames { pages.old.machine.shares.capacity ≤ length frames.old }
    requires loaded { AreLoaded file.now pages.old.machine frames.old }
    ensures pages { IfOk result (λ read. read.items ≡ map (slice_get file.now) numbers.now) }
    ensures unread { OnErr result (frames.new ≡ frames.old) }
{
    let mut read = Vec::with_capacity(alloc, numbers.len())?;
    for number in numbers {
        read.push_reserved(read_page(pages, frames, file, *number));
    }
    Ok(read)
}

/// Returns the page with this number, if there is one, read through its frame.
fn read_page<T: Copy, S: BuildHasher>(
    pages: &mut Cache<usize, Option<usize>, S>,
    frames: &mut [T],
    file: &[T],
    number: usize,
) -> Option<T>
    requires frames { pages.old.machine.shares.capacity ≤ length frames.old }
    ensures content { AreLoaded file.now pages.old.machine frames.old →
        result ≡ slice_get file.now number }
    ensures loaded { AreLoaded file.now pages.old.machine frames.old →
        AreLoaded file.now pages.new.machine frames.new }
    ensures shares { pages.new.machine.shares ≡ pages.old.machine.shares }
{
    if number >= file.len() {
        return None;
    }
    let frame = load(pages, frames, file, number);
    Some(frames[frame])
}
