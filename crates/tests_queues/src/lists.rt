//! The two queues as plain lists.

use crate::compared::Compared;
use crate::verb::{Reply, Verb, flag, slot_if_any};
use std::alloc::Global;

#[derive(Clone, Copy, Drop)]
pub(crate) struct Entry {
    slot: u32,
    age: u32,
    bit: bool,
}

impl Entry {
    /// Makes the entry of a slot that comes.
    fn new(slot: u32) -> Entry {
        Entry {
            slot,
            age: 0,
            bit: false,
        }
    }

    /// Grows older by an admission, unless it is old.
    fn grow_older(&mut self, window: u32) {
        if self.age < window {
            self.age += 1;
            self.bit = false;
        }
    }
}

/// The two queues as plain lists, Small oldest first. An age that has reached the window is old. If there
/// is no memory for an entry, it is left out, and comparisons fail.
#[derive(Drop)]
pub(crate) struct Lists {
    pub(crate) small: Vec<Entry>,
    pub(crate) main: Vec<Entry>,
    window: u32,
    /// What others replied to the same calls.
    pub(crate) compared: Compared,
}

impl Lists {
    pub(crate) fn new(alloc: Global, window: u32) -> Lists {
        Lists {
            small: Vec::new(alloc),
            main: Vec::new(alloc),
            window,
            compared: Compared::new(),
        }
    }

    /// Makes a call to which queues replied this.
    pub(crate) fn check(&mut self, verb: Verb, slot: u32, got: Reply) {
        let wanted = self.reply(verb, slot);
        self.compared.note(got, wanted);
    }

    /// Makes a call.
    fn reply(&mut self, verb: Verb, slot: u32) -> Reply {
        match verb {
            Verb::Admit => self.admit(slot),
            Verb::Append => self.append(slot),
            Verb::Hit => self.hit(slot),
            Verb::Leave => self.leave(slot),
            Verb::TakeTail => slot_if_any(self.take_tail()),
            Verb::ReplaceTail => slot_if_any(self.replace_tail()),
            Verb::TakeVictim => slot_if_any(self.take_victim()),
            Verb::ReplaceVictim => slot_if_any(self.replace_victim()),
            Verb::IsResident => flag(self.is_resident(slot)),
            Verb::SmallLen => Some(self.small.len() as u64),
            Verb::MainLen => Some(self.main.len() as u64),
            Verb::IsTailPromoted => flag(self.tail_is_promoted()),
            _ => None,
        }
    }

    pub(crate) fn is_resident(&self, slot: u32) -> bool {
        is_in(&self.small, slot) || is_in(&self.main, slot)
    }

    fn admit(&mut self, slot: u32) -> Reply {
        if self.is_resident(slot) {
            return None;
        }
        for entry in self.small.iter_mut() {
            entry.grow_older(self.window);
        }
        let _ = self.small.push(Entry::new(slot));
        Some(1)
    }

    fn append(&mut self, slot: u32) -> Reply {
        if self.is_resident(slot) {
            return None;
        }
        let _ = self.main.push(Entry::new(slot));
        Some(1)
    }

    fn leave(&mut self, slot: u32) -> Reply {
        take(&mut self.small, slot);
        take(&mut self.main, slot);
        Some(1)
    }

    fn hit(&mut self, slot: u32) -> Reply {
        let window = self.window;
        if set_bit(&mut self.small, slot, window) || set_bit(&mut self.main, slot, 0) {
            Some(1)
        } else {
            None
        }
    }

    /// Returns Small's oldest slot, which leaves.
    fn take_tail(&mut self) -> Option<u32> {
        if self.small.is_empty() {
            return None;
        }
        Some(self.small.remove(0).slot)
    }

    /// Admits Small's oldest slot anew.
    fn replace_tail(&mut self) -> Option<u32> {
        let tail = self.take_tail()?;
        self.admit(tail);
        Some(tail)
    }

    /// Returns the slot that the hand chooses, which leaves. The entries that it passes go to the end.
    fn take_victim(&mut self) -> Option<u32> {
        for _ in 0..=self.main.len() {
            if self.main.is_empty() {
                return None;
            }
            let first = self.main.remove(0);
            if !first.bit {
                return Some(first.slot);
            }
            let _ = self.main.push(Entry::new(first.slot));
        }
        None
    }

    /// Puts the slot that the hand chooses at the end of Main.
    fn replace_victim(&mut self) -> Option<u32> {
        let victim = self.take_victim()?;
        let _ = self.main.push(Entry::new(victim));
        Some(victim)
    }

    /// Returns true if Small's oldest slot is old and was hit since it is.
    fn tail_is_promoted(&self) -> bool {
        !self.small.is_empty() && self.small[0].age >= self.window && self.small[0].bit
    }
}

/// Returns true if a slot is in a list.
fn is_in(list: &[Entry], slot: u32) -> bool {
    for entry in list {
        if entry.slot == slot {
            return true;
        }
    }
    false
}

/// Sets the bit of a slot that has reached an age. Returns true if the slot is in the list.
fn set_bit(list: &mut [Entry], slot: u32, age: u32) -> bool {
    for entry in list {
        if entry.slot == slot {
            entry.bit = entry.age >= age;
            return true;
        }
    }
    false
}

/// Takes a slot out of a list if it is there.
fn take(list: &mut Vec<Entry>, slot: u32) {
    for place in 0..list.len() {
        if list[place].slot == slot {
            list.remove(place);
            return;
        }
    }
}
