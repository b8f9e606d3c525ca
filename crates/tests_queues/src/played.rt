//! Queues that are called only as their state allows.
ghost use Rattle.std.specs.Prelude.{◌≡◌, ◌<◌, true, false, nat_eq};
ghost use Rattle.std.specs.List.{list_any};
ghost use Rattle.clock2q_queues.specs.Queues.{slots_of};

use crate::verb::{Reply, Verb, flag, slot_if_any};
use clock2q_queues::queues::Queues;
use std::alloc::{AllocError, Allocator, Global};
use std::marker::Model;
use testing::Refusing;

/// Queues whose requests for memory can be refused.
pub(crate) type TestedQueues<'a> = Played<&'a Refusing<Global>>;

/// Queues, with the numbers that they were made for.
#[derive(Drop)]
pub(crate) struct Played<A: Allocator> {
    queues: Queues<A>,
    slots: u32,
    window: u32,
}

impl<A: Allocator> Model for Played<A> {
    ghost use Rattle.std.specs.Prelude.{◌≡◌};
    ghost use Rattle.clock2q_queues.specs.Queues.{QueueState};

    ghost Value = { QueueState };

    ghost view = { λ p. p.queues };

    ghost invariant = { λ p. (p.queues.slots ≡ p.slots) × (p.queues.window ≡ p.window) };
}

impl<A: Allocator + Clone> Played<A> {
    /// Makes empty queues for the slots below `slots`.
    pub(crate) fn new(alloc: A, slots: u32, window: u32) -> Result<Played<A>, AllocError> {
        Ok(Played {
            queues: Queues::new(alloc, slots, window)?,
            slots,
            window,
        })
    }
}

impl<A: Allocator> Played<A> {
    /// Returns the length of the window.
    pub(crate) fn window(&self) -> u32 {
        self.window
    }

    /// Makes a call. A call that the queues' state doesn't allow isn't made.
    pub(crate) fn reply(&mut self, verb: Verb, slot: u32) -> Reply {
        match verb {
            Verb::MakeBelow => self.make_below(slot),
            Verb::Admit => self.admit(slot),
            Verb::Append => self.append(slot),
            Verb::Hit => self.hit(slot),
            Verb::Leave => self.leave(slot),
            Verb::TakeTail => slot_if_any(self.queues.take_tail()),
            Verb::ReplaceTail => self.replace_tail(),
            Verb::TakeVictim => self.take_victim(),
            Verb::ReplaceVictim => self.replace_victim(),
            Verb::IsResident => flag(self.queues.is_resident(slot as usize)),
            Verb::SmallLen => Some(self.queues.small_len() as u64),
            Verb::MainLen => Some(self.queues.main_len() as u64),
            Verb::IsTailPromoted => self.is_tail_promoted(),
            Verb::Clear => self.clear(),
            _ => None,
        }
    }

    fn make_below(&mut self, bound: u32) -> Reply {
        if bound > self.slots {
            return None;
        }
        self.queues.make_below(bound);
        Some(1)
    }

    /// Returns true if there is such a slot, and it is in no queue.
    fn is_free(&self, slot: u32) -> bool
        ensures slot_in { result ≡ true → slot < self.now.slots }
        ensures not_in_small { result ≡ true → list_any (nat_eq slot) (slots_of self.now.small) ≡ false }
        ensures not_in_main { result ≡ true → list_any (nat_eq slot) (slots_of self.now.main) ≡ false }
    {
        slot < self.slots && !self.queues.is_resident(slot as usize)
    }

    /// Admits a slot that is in no queue, with the records of those below it.
    fn admit(&mut self, slot: u32) -> Reply {
        if self.window == 0 || !self.is_free(slot) {
            return None;
        }
        self.queues.make_below(slot);
        self.queues.admit(slot);
        Some(1)
    }

    /// Puts a slot that is in no queue into Main, with the records of those below it.
    fn append(&mut self, slot: u32) -> Reply {
        if !self.is_free(slot) {
            return None;
        }
        self.queues.make_below(slot);
        self.queues.append(slot);
        Some(1)
    }

    fn hit(&mut self, slot: u32) -> Reply {
        if self.queues.is_resident(slot as usize) {
            self.queues.hit(slot);
            return Some(1);
        }
        None
    }

    fn leave(&mut self, slot: u32) -> Reply {
        if slot >= self.slots {
            return None;
        }
        self.queues.leave(slot);
        Some(1)
    }

    fn replace_tail(&mut self) -> Reply {
        if self.window == 0 || self.queues.small_len() == 0 {
            return None;
        }
        Some(u64::from(self.queues.replace_tail()))
    }

    fn take_victim(&mut self) -> Reply {
        if self.queues.main_len() == 0 {
            return None;
        }
        Some(u64::from(self.queues.take_victim()))
    }

    fn replace_victim(&mut self) -> Reply {
        if self.queues.main_len() == 0 {
            return None;
        }
        Some(u64::from(self.queues.replace_victim()))
    }

    /// Replies whether Small has an oldest slot and that goes on to Main.
    fn is_tail_promoted(&mut self) -> Reply {
        flag(self.queues.small_len() > 0 && self.queues.tail_is_promoted())
    }

    fn clear(&mut self) -> Reply {
        self.queues.clear();
        Some(1)
    }
}
