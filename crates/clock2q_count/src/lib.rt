//! Numbers and other values that only contracts can see.
//!
//! A contract often has to state how often something was done, or what went through a device,
//! though the program keeps no such value. A [`Count`] or a [`GhostValue`] holds it: it takes no bytes,
//! no code can read it, and clauses name it like any field.
#![tactic(auto)]

ghost use Rattle.std.specs.Prelude.{◌≡◌, ℕ, ◌+◌, ◌≤◌};

mod ghost_value;

pub use ghost_value::GhostValue;
use std::fmt;
use std::marker::Model;

/// The number of times that something was done. It takes no bytes, and no code can read it: it is a
/// field of the struct whose accesses it counts, and the accessors tick it.
///
/// No method lowers it. Its owner can replace it with a new count, which is zero, so a clause of
/// the owner has to rule that out.
///
/// # Example
///
/// ```
/// pub fn read(&mut self, at: u32) -> T
///     ensures counted { self.new.accesses.total ≡ self.old.accesses.total + 1 }
/// {
///     self.accesses.tick();
///     self.items[at as usize]
/// }
/// ```
#[derive(Drop)]
pub struct Count {
    ticks: GhostValue<usize>,
}

impl Model for Count {
    ghost use Rattle.clock2q_count.specs.Counted.{Counted};

    ghost Value = { Counted };

    ghost view = { λ count. record { total = count.ticks.value } };
}

impl Count {
    /// Returns a count of zero.
    pub fn new() -> Count
        ensures zero { result.total ≡ 0 }
    {
        Count {
            ticks: GhostValue::new(&()),
        }
    }

    /// Adds one.
    pub fn tick(&mut self)
        ensures ticked { self.new.total ≡ self.old.total + 1 }
    {
        self.ticks.set(&());
    }

    /// Raises the count to a bound that the proof of the call picks. The bound may depend on what
    /// `seen` refers to.
    pub fn raise<X>(&mut self, seen: &X)
        ghost bound: { ℕ }
        requires reached { self.old.total ≤ bound }
        ensures raised { self.new.total ≡ bound }
    {
        self.ticks.set(seen);
    }
}

impl fmt::Debug for Count {
    fn fmt<W: fmt::Write>(&self, f: &mut fmt::Formatter<W>) -> fmt::Result {
        f.write_str("Count")
    }
}

const _: () = prove!(size_of::<Count>() == 0);
