//! Calls of a cache as small values, and their answers.

use crate::model::Model;
use clock2q_cache::Occupant;
use testing::SplitMix64;

/// A call of a cache whose keys and values are numbers.
#[derive(Clone, Copy, Debug)]
pub(crate) enum Call {
    Put(u64, u64),
    /// Puts a value, and asks what was replaced or evicted.
    Evict(u64, u64),
    /// Puts a value, and asks for the slot and who had it.
    PutSlot(u64, u64),
    Get(u64),
    Peek(u64),
    Contains(u64),
    GetAt(usize, u64),
    /// Asks for a key's slot.
    PeekSlot(u64),
    /// Records a hit of the key at a slot.
    HitSlot(usize),
    /// Removes the key at a slot.
    RemoveSlot(usize),
    /// Writes a value through a lent reference.
    Set(u64, u64),
    With(u64, u64),
    Try(u64, Option<u64>),
    /// Writes a value through the reference that a fetch lends.
    Write(u64, Option<u64>, u64),
    /// Offers a value to a slot that has none yet.
    Slot(u64, u64),
    /// The same, and asks what became of the key.
    Enter(u64, u64),
    Remove(u64),
    /// The answers are this many bits of a number, lowest first, and then true.
    Retain(u64, u32),
    Clear,
    /// Evicts a resident though no key comes.
    MakeRoom,
    /// The values count up from the first number in this many steps, and then repeat the last.
    Prefill(u64, u64),
    Len,
    IsEmpty,
    Capacity,
}

/// The answer of a call.
#[derive(Clone, Copy, Debug, PartialEq)]
pub(crate) enum Answer {
    Value(Option<u64>),
    /// A key's slot.
    Found(Option<usize>),
    /// A key that left, and its value or its slot, if one left.
    Left(Option<(u64, u64)>),
    /// A key's slot and the value there.
    Slot(usize, u64),
    /// A key's slot and who had it.
    Placed(usize, Occupant<u64>),
    /// A key's slot and the value there, whether the key was resident, and whether another resident was evicted.
    Entered(usize, u64, bool, bool),
    Flag(bool),
    Number(usize),
    Done,
}

/// The answer to a question of `retain`, after `asked` earlier ones.
pub(crate) fn is_kept(bits: u64, count: u32, asked: u32) -> bool {
    asked >= count || bits.checked_shr(asked).unwrap_or(1) % 2 == 1
}

/// The value of a slot that `prefill` makes, after `made` others.
pub(crate) fn made_value(first: u64, more: u64, made: u64) -> u64 {
    first.wrapping_add(made.min(more))
}

impl Call {
    /// The call with this number in a list: mostly one that looks a key up or inserts it.
    pub(crate) fn drawn(draws: &mut SplitMix64, model: &Model, number: u64) -> Call {
        let key = draws.below(model.keys());
        match draws.below(440) {
            0..=59 => Call::Put(key, number),
            60..=69 => Call::Evict(key, number),
            70..=79 => Call::PutSlot(key, number),
            80..=89 => Call::Slot(key, number),
            90..=99 => Call::Enter(key, number),
            100..=199 => Call::Get(key),
            200..=229 => Call::With(key, number),
            230..=239 => Call::Write(key, Some(number), number.wrapping_add(1)),
            240..=259 => Call::Try(key, Some(number)),
            260..=269 => Call::Try(key, None),
            270..=279 => Call::Write(key, None, number),
            280..=309 => Call::Set(key, number),
            310..=349 => Call::GetAt(model.hint(key, draws.below(4)), key),
            350..=369 => Call::Remove(key),
            370..=379 => Call::MakeRoom,
            380 => Call::Clear,
            381 | 382 => Call::Prefill(number, draws.below(4)),
            400..=419 => Call::HitSlot(model.hint(key, draws.below(4))),
            420..=429 => Call::RemoveSlot(model.hint(key, draws.below(4))),
            kind => Call::aside(draws, key, kind),
        }
    }

    /// A call that changes nothing, or one that chooses which residents stay.
    fn aside(draws: &mut SplitMix64, key: u64, kind: u64) -> Call {
        match kind {
            383..=386 => {
                let bits = draws.next() | draws.next();
                Call::Retain(bits, draws.below(65) as u32)
            }
            387..=389 => Call::Peek(key),
            390..=392 => Call::Contains(key),
            393..=395 => Call::Len,
            396 | 397 => Call::IsEmpty,
            398 | 399 => Call::Capacity,
            _ => Call::PeekSlot(key),
        }
    }
}
