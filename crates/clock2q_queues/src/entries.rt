//! What a ring links: an entry for each slot of the queues, or for each place of an order.
ghost use Rattle.std.specs.Prelude.{◌≡◌, ℕ, ◌+◌, ◌^◌, ◌<◌};
ghost use Rattle.clock2q_queues.specs.Growth.{moved_location};
ghost use Rattle.clock2q_queues.specs.declared.entries.Location.{Location};

/// Where a slot is: the queue that it is in, if any, and in Small whether it is young.
#[derive(Clone, Copy, Debug, PartialEq, Eq)]
pub(crate) enum Location {
    /// In neither queue.
    Free,
    /// In Small, young, with its position in the window.
    SmallYoung(u32),
    /// In Small, old.
    SmallOld,
    /// In Main.
    Main,
}

impl Location {
    /// Returns the location of the same slot in a window that has `gap` new positions at the cursor. The old
    /// positions from the cursor on are moved up.
    pub(crate) fn past_gap(self, cursor: u32, gap: u32) -> Self
        requires fits { (position : ℕ) → self ≡ Location.SmallYoung position → position + gap < 2 ^ 32 }
        ensures moved { result ≡ moved_location cursor gap self }
    {
        match self {
            Location::SmallYoung(position) if position >= cursor => {
                Location::SmallYoung(position + gap)
            }
            same => same,
        }
    }
}

/// What is held of a slot or a place beside its neighbours. Contracts see it as a location.
pub(crate) trait Held: Copy {
    /// What is held where no ring has the slot or the place.
    const VACANT: Self;

    ghost VACANT: { Self };

    ghost location_of: { Self → Location };

    ghost vacant: { location_of VACANT ≡ Location.Free };
}

impl Held for Location {
    ghost use Rattle.std.specs.Prelude.{refl};
    ghost use Rattle.clock2q_queues.specs.declared.entries.Location.TheVariants.{Free};

    const VACANT: Self = Location::Free;

    ghost VACANT = { Free };

    ghost location_of = { λ location. location };

    ghost vacant = { refl };
}

/// Nothing is held of an order's places, which are all in the same ring. In contracts each has the
/// location of a free slot.
impl Held for () {
    ghost use Rattle.std.specs.Prelude.{refl};
    ghost use Rattle.clock2q_queues.specs.declared.entries.Location.TheVariants.{Free};

    const VACANT: Self = ();

    ghost VACANT = { tt };

    ghost location_of = { λ _. Free };

    ghost vacant = { refl };
}

/// The neighbours of a slot or a place, and what is held of it.
#[derive(Clone, Copy)]
pub(crate) struct Entry<T> {
    pub(crate) previous: u32,
    pub(crate) next: u32,
    pub(crate) held: T,
}

const _: () = prove!(size_of::<Entry<()>>() == 8);

const _: () = prove!(size_of::<Entry<Location>>() <= 16);
