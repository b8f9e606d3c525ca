//! A directory with one slot, which each key has for a while before it is remembered.
ghost use Rattle.std.specs.Prelude.{◌≡◌, ◌%◌, false, nat_eq};
ghost use Rattle.clock2q_directory.specs.Index.{IsGapFor};
ghost use Rattle.clock2q_directory.specs.History.{is_remembered};
ghost use Rattle.tests_queues.specs.Beside.{IsAlone, HasResident};

use crate::verb::{Reply, Verb, flag};
use clock2q_directory::directory::Directory;
use clock2q_directory::handle::Found;
use clock2q_directory::newcomer::Newcomer;
use clock2q_handles::Gap;
use std::alloc::{AllocError, Allocator, Global};
use std::marker::Model;
use testing::Refusing;

/// A directory whose requests for memory can be refused.
pub(crate) type TestedHistory<'a> = Beside<&'a Refusing<Global>>;

/// The key that takes the slot of one that is remembered, and leaves at once.
const NOBODY: u64 = u64::MAX;

/// A directory in which no key is resident between two calls.
#[derive(Drop)]
pub(crate) struct Beside<A: Allocator> {
    directory: Directory<u64, (), A>,
    hashes: u64,
}

impl<A: Allocator> Model for Beside<A> {
    ghost use Rattle.std.specs.Prelude.{ℕ};
    ghost use Rattle.std.specs.Coded.{coded_ℕ};
    ghost use Rattle.tests_queues.specs.Beside.{IsAlone};

    ghost Value = { ℕ };

    ghost coded = { coded_ℕ };

    ghost view = { λ b. b.hashes };

    ghost invariant = { λ b. IsAlone b.hashes b.directory.history b.directory.residents };
}

impl<A: Allocator + Copy> Beside<A> {
    /// Returns a directory for up to `limit` remembered keys. Keys with the same remainder modulo
    /// `hashes` have the same hash.
    pub(crate) fn new(alloc: A, limit: u8, hashes: u64) -> Result<Self, AllocError> {
        Ok(Beside {
            directory: Directory::new(alloc, 1, usize::from(limit))?,
            hashes: hashes.max(1),
        })
    }
}

impl<A: Allocator> Beside<A> {
    /// Makes a call.
    pub(crate) fn reply(&mut self, verb: Verb, key: u64) -> Reply {
        match verb {
            Verb::Renew => self.renew(key),
            Verb::Pass => self.pass(key),
            Verb::Forget => self.forget(key),
            Verb::Replace => self.replace(key),
            Verb::Len => Some(self.directory.remembered_len() as u64),
            Verb::Clear => self.clear(),
            _ => None,
        }
    }

    /// Forgets a key, and replies whether it was remembered.
    fn forget(&mut self, key: u64) -> Reply {
        let (known, _) = forget(&mut self.directory, key, self.hashes);
        flag(known)
    }

    /// Forgets a key, gives it the slot, and remembers it. Replies whether it was remembered before, if
    /// it was found at the slot.
    fn renew(&mut self, key: u64) -> Reply {
        let (known, gap) = forget(&mut self.directory, key, self.hashes);
        enter(&mut self.directory, gap, key, self.hashes);
        let is_found = remember(&mut self.directory, key, self.hashes);
        leave(&mut self.directory, NOBODY, self.hashes);
        if is_found { flag(known) } else { None }
    }

    /// Forgets a key, gives it the slot, and takes it away again without remembering the key.
    /// Replies whether it was remembered.
    fn pass(&mut self, key: u64) -> Reply {
        let (known, gap) = forget(&mut self.directory, key, self.hashes);
        enter(&mut self.directory, gap, key, self.hashes);
        leave(&mut self.directory, key, self.hashes);
        flag(known)
    }

    /// Forgets a key, gives it the slot, looks it up there, and replaces it with [`NOBODY`]. Replies
    /// with the hash that left, if each look-up found the key and it was the one that left.
    fn replace(&mut self, key: u64) -> Reply {
        let (_, gap) = forget(&mut self.directory, key, self.hashes);
        enter(&mut self.directory, gap, key, self.hashes);
        let looked = look(&mut self.directory, key, self.hashes);
        let (hash, left) = replace(&mut self.directory, key, self.hashes);
        leave(&mut self.directory, NOBODY, self.hashes);
        match looked {
            (Some(0), Some(0), true) if left == key => Some(hash),
            _ => None,
        }
    }

    /// Forgets every key.
    fn clear(&mut self) -> Reply {
        self.directory.clear();
        Some(1)
    }
}

/// Where a resident key was found, twice, and whether it equals the one at the slot.
type Looked = (Option<u32>, Option<u32>, bool);

/// Forgets a key. Returns true if it was remembered, and otherwise the gap for its hash, if the
/// lookup found it.
fn forget<A: Allocator>(
    directory: &mut Directory<u64, (), A>,
    key: u64,
    hashes: u64,
) -> (bool, Option<Gap>)
    requires alone { IsAlone hashes directory.old.history directory.old.residents }
    ensures alone { IsAlone hashes directory.new.history directory.new.residents }
    ensures absent { is_remembered nat_eq key directory.new.history.entries ≡ false }
    ensures gap { IsGapFor result.1 (key % hashes) directory.new.history.places.index }
{
    let hash = key % hashes;
    let found = directory.lookup(hash, &key);
    let known = directory.forget(hash, &key, &found);
    (known, found.gap())
}

/// Makes a key the resident, at the gap for its hash if that is known.
fn enter<A: Allocator>(
    directory: &mut Directory<u64, (), A>,
    gap: Option<Gap>,
    key: u64,
    hashes: u64,
)
    requires alone { IsAlone hashes directory.old.history directory.old.residents }
    requires gap { IsGapFor gap (key % hashes) directory.old.history.places.index }
    ensures resident { HasResident key hashes directory.new.history directory.new.residents }
    ensures remembered { directory.new.history.entries ≡ directory.old.history.entries }
{
    let newcomer = Newcomer {
        gap,
        hash: key % hashes,
        key,
        value: Some(()),
    };
    directory.enter(0, newcomer);
}

/// Looks the resident up, and remembers it when [`NOBODY`] takes its slot, at the gap that a lookup
/// finds. Returns true if it was found at its slot.
fn remember<A: Allocator>(directory: &mut Directory<u64, (), A>, key: u64, hashes: u64) -> bool
    requires resident { HasResident key hashes directory.old.history directory.old.residents }
    requires absent { is_remembered nat_eq key directory.old.history.entries ≡ false }
    ensures resident { HasResident NOBODY hashes directory.new.history directory.new.residents }
{
    let found = directory.lookup(key % hashes, &key);
    let is_found = matches!(found, Found::Resident(0));
    let gap = directory.lookup(NOBODY % hashes, &NOBODY).gap();
    let newcomer = Newcomer {
        gap,
        hash: NOBODY % hashes,
        key: NOBODY,
        value: Some(()),
    };
    directory.replace_remembering(0, newcomer);
    is_found
}

/// Looks the resident up in each way.
fn look<A: Allocator>(directory: &mut Directory<u64, (), A>, key: u64, hashes: u64) -> Looked
    requires resident { HasResident key hashes directory.old.history directory.old.residents }
    ensures resident { HasResident key hashes directory.new.history directory.new.residents }
{
    let hash = key % hashes;
    let slot = directory.slot_of(hash, &key);
    let again = directory.find_resident(hash, &key);
    (slot, again, directory.key_equals(0, &key))
}

/// Replaces the resident with [`NOBODY`], at the gap that a lookup finds. Returns the resident's hash
/// and key.
fn replace<A: Allocator>(directory: &mut Directory<u64, (), A>, key: u64, hashes: u64) -> (u64, u64)
    requires resident { HasResident key hashes directory.old.history directory.old.residents }
    ensures resident { HasResident NOBODY hashes directory.new.history directory.new.residents }
{
    let _ = key;
    let gap = directory.lookup(NOBODY % hashes, &NOBODY).gap();
    let newcomer = Newcomer {
        gap,
        hash: NOBODY % hashes,
        key: NOBODY,
        value: None,
    };
    directory.replace(0, newcomer)
}

/// Takes the slot away from the resident.
fn leave<A: Allocator>(directory: &mut Directory<u64, (), A>, key: u64, hashes: u64)
    requires resident { HasResident key hashes directory.old.history directory.old.residents }
    ensures alone { IsAlone hashes directory.new.history directory.new.residents }
{
    let _ = (key, hashes);
    directory.leave(0);
}
