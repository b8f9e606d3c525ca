//! The frames of a page cache.
ghost use Rattle.clock2q_cache.specs.Costs.{Costs};
ghost use Rattle.clock2q_machine.specs.Calls.{Get, GetAt, SlotFor};
ghost use Rattle.clock2q_machine.specs.Machine.{hit};
ghost use Rattle.clock2q_machine.specs.Steps.{hit_at, put};
ghost use Rattle.clock2q_pages.specs.Pages.{IsLoaded, last_in, resident_frame};
ghost use Rattle.std.specs.Prelude.{eqb, ◌≡◌, ◌≢◌, ◌<◌, ◌↔◌, ℕ, None, Some, IsTrue};

use clock2q_cache::Cache;
use std::hash::{BuildHasher, Hash};

/// Returns the frame of a page, which is the slot of its number, and the page that got the frame
/// last. A page without a frame gets a free one, or that of a page that has to leave; a page with a
/// frame keeps it, with a hit.
///
/// If another page got the frame last, or none did, the caller has to load the page.
pub fn enter<S: BuildHasher>(
    pages: &mut Cache<usize, Option<usize>, S>,
    page: usize,
) -> (usize, Option<usize>)
    ensures resident { resident_frame pages.new.machine page ≡ Some result.0 }
    ensures alone { (other : ℕ) → other ≢ page →
        resident_frame pages.new.machine other ≢ Some result.0 }
    ensures stays { (frame : ℕ) → resident_frame pages.old.machine page ≡ Some frame →
        result.0 ≡ frame }
    ensures others { (other frame : ℕ) → other ≢ page →
        resident_frame pages.new.machine other ≡ Some frame →
        resident_frame pages.old.machine other ≡ Some frame }
    ensures within { result.0 < pages.old.machine.shares.capacity }
    ensures last { result.1 ≡ last_in pages.old.machine result.0 }
    ensures loaded { (result.1 ≡ Some page) ↔ IsLoaded pages.old.machine page result.0 }
    ensures loads { IsLoaded pages.new.machine page result.0 }
    ensures keeps { (other frame : ℕ) → frame ≢ result.0 → IsLoaded pages.new.machine other frame →
        IsLoaded pages.old.machine other frame }
    ensures machine { pages.new.machine ≡ put (eqb page) page (Some page) pages.old.machine }
    ensures shares { pages.new.machine.shares ≡ pages.old.machine.shares }
    ensures costs { Costs ⟦<usize as Hash>⟧ S.BuildHasher S.Hasher.Hasher
        (SlotFor page (Some page)) pages.old pages.new }
{
    pages.facts();
    let (frame, held) = pages.get_or_insert_mut(page, || None);
    let last = *held;
    *held = Some(page);
    (frame, last)
}

/// If the page is in this frame, records a hit and returns true. The frame may be any number.
/// Hashes nothing, so a caller that has kept the frame should ask here first.
pub fn is_in<V, S: BuildHasher>(pages: &mut Cache<usize, V, S>, frame: usize, page: usize) -> bool
    ensures resident { IsTrue result ↔ (resident_frame pages.old.machine page ≡ Some frame) }
    ensures machine { pages.new.machine ≡ hit_at frame (eqb page) pages.old.machine }
    ensures stay { (other : ℕ) →
        resident_frame pages.new.machine other ≡ resident_frame pages.old.machine other }
    ensures values { pages.new.machine.values ≡ pages.old.machine.values }
    ensures shares { pages.new.machine.shares ≡ pages.old.machine.shares }
    ensures costs { Costs ⟦<usize as Hash>⟧ S.BuildHasher S.Hasher.Hasher
        (GetAt frame page) pages.old pages.new }
{
    pages.facts();
    pages.get_at(frame, &page).is_some()
}

/// Returns the frame of a page that is in memory, and records a hit. Returns `None` and changes
/// nothing if it isn't.
pub fn find<V, S: BuildHasher>(pages: &mut Cache<usize, V, S>, page: usize) -> Option<usize>
    ensures frame { result ≡ resident_frame pages.old.machine page }
    ensures machine { pages.new.machine ≡ hit (eqb page) pages.old.machine }
    ensures stay { (other : ℕ) →
        resident_frame pages.new.machine other ≡ resident_frame pages.old.machine other }
    ensures values { pages.new.machine.values ≡ pages.old.machine.values }
    ensures costs { Costs ⟦<usize as Hash>⟧ S.BuildHasher S.Hasher.Hasher
        (Get page) pages.old pages.new }
{
    pages.facts();
    pages.slot(&page)
}
