//! Seeded lists of commands, whose replies and results are compared with plain lists.

use crate::handle::{Command, Handle, Reply};
use crate::hashed::Hashed;
use crate::layout::slots_of;
use crate::plain::Plain;
use crate::runs::run_counted;
use crate::seen::Notes;
use std::alloc::{AllocError, Global};
use std::cell::Cell;
use testing::{Refusing, SplitMix64};

/// The commands of a list that are drawn, beside the lookups and growths between them.
const COMMANDS: u64 = 500;

/// The fingerprints of the hashes.
const FINGERPRINTS: [u64; 3] = [0, 0x7F, 0xFE];

/// A bit of a hash that no small table reads.
const UNREAD: u32 = 40;

/// Commands drawn from a seed.
#[derive(Drop)]
struct DrawnCommands {
    draws: SplitMix64,
    /// The number of homes near the end of the slots that the hashes have.
    homes: u64,
    alloc: Global,
}

impl DrawnCommands {
    /// Returns a hash with one of three fingerprints. Half of the hashes have one of the homes just
    /// before and after the end of the slots, whatever their number; the others have one up to some
    /// slot count, and another home in larger tables.
    fn hash(&mut self) -> u64 {
        let top = FINGERPRINTS[self.draws.below(3) as usize] << 56;
        let unread = self.draws.below(2) << UNREAD;
        let home = self.draws.below(self.homes).wrapping_sub(self.homes / 2) & 0xFFFF;
        let leaving = match self.draws.below(2) {
            0 => 0,
            _ => 16 << self.draws.below(6),
        };
        top | unread | (home ^ leaving)
    }

    /// Returns an entry that is held, or now and then one that isn't.
    fn held(&mut self, number: u64, plain: &Plain) -> Handle {
        let index = self.draws.below((plain.len() as u64).saturating_add(2));
        match plain.entry(index as usize) {
            Some(handle) => handle,
            None => Handle {
                hash: self.hash(),
                number,
            },
        }
    }

    /// Returns a handle to insert: mostly a new one.
    fn handle(&mut self, number: u64, plain: &Plain) -> Handle {
        match self.draws.below(8) {
            0 => self.held(number, plain),
            _ => Handle {
                hash: self.hash(),
                number,
            },
        }
    }

    /// Returns up to three candidates of a hash, or any handles in their place.
    fn accepted(&mut self, hash: u64, plain: &Plain) -> Vec<Handle> {
        let candidates = plain.candidates(hash);
        self.chosen(&candidates, plain)
    }

    /// Returns up to three of some candidates, or any handles in their place.
    fn chosen(&mut self, candidates: &[Handle], plain: &Plain) -> Vec<Handle> {
        let mut chosen = Vec::new(self.alloc);
        for number in 0..self.draws.below(4) {
            let _ = chosen.push(self.one_of(number, candidates, plain));
        }
        chosen
    }

    /// Returns one of some candidates, or any handle.
    fn one_of(&mut self, number: u64, candidates: &[Handle], plain: &Plain) -> Handle {
        let place = self
            .draws
            .below((candidates.len() as u64).saturating_add(1));
        match candidates.get(place as usize) {
            Some(candidate) => *candidate,
            None => self.held(number, plain),
        }
    }

    /// Returns a search under the hash of an entry, or under one that agrees with it in what a table
    /// reads, or under another hash.
    fn find(&mut self, number: u64, plain: &Plain) -> Command<Global> {
        let near = self.held(number, plain).hash ^ (self.draws.below(2) << UNREAD);
        let hash = match self.draws.below(2) {
            0 => self.hash(),
            _ => near,
        };
        Command::Find(Handle { hash, number }, self.accepted(hash, plain))
    }

    /// Returns a command to make room for a few more handles, or for more than can be counted.
    fn reserve(&mut self) -> Command<Global> {
        let few = self.draws.below(8) as usize;
        match self.draws.below(3) {
            0 => Command::Reserve(usize::MAX.wrapping_sub(few)),
            _ => Command::Reserve(few),
        }
    }

    /// Returns the command with this number in a list, which has more insertions in the first half
    /// and more removals in the second. The last tenth are lookups.
    fn command(&mut self, number: u64, plain: &Plain) -> Command<Global> {
        let additions = if number < COMMANDS / 2 { 10 } else { 4 };
        let kind = if number < COMMANDS * 9 / 10 {
            self.draws.below(18)
        } else {
            17
        };
        match kind {
            kind if kind < additions && kind % 2 == 0 => Command::Insert(self.handle(
                number, plain,
            )),
            kind if kind < additions => self.find(number, plain),
            0..=12 => {
                let handle = self.held(number, plain);
                Command::Remove(handle.hash ^ (self.draws.below(2) << UNREAD), handle)
            }
            13 | 14 => self.reserve(),
            _ => Command::Get(self.hash()),
        }
    }
}

/// A table whose requests for memory can be refused.
type TestedTable<'a> = Hashed<&'a Refusing<Global>>;

/// Plain lists to which the commands of a list are made too, with what their closures should be called on,
/// the commands, and what a table replied to them.
#[derive(Drop)]
struct Run {
    alloc: Global,
    plain: Plain,
    wanted: Notes,
    commands: Vec<Command<Global>>,
    replies: Vec<Reply<Global>>,
    /// The number of the first command after which the table was another one.
    first: Option<usize>,
}

impl Run {
    /// Makes plain lists for `entries` entries.
    fn with_capacity(alloc: Global, entries: usize) -> Run {
        Run {
            alloc,
            plain: Plain::with_capacity(alloc, entries),
            wanted: Notes::new(),
            commands: Vec::new(alloc),
            replies: Vec::new(alloc),
            first: None,
        }
    }

    /// Makes a command of the lists, and returns true if a table is the same after it, with its reply, the
    /// handles that its closures were called on, its sizes, and the handle in each slot.
    fn is_wanted(
        &mut self,
        tested: &TestedTable<'_>,
        got: &Notes,
        command: &Command<Global>,
        reply: &Reply<Global>,
    ) -> bool {
        let wanted = self.plain.reply(command, &self.wanted);
        *reply == wanted && (matches!(command, Command::Get(_)) || self.is_same(tested, got))
    }

    /// Returns true if a table is the same, and its closures were called on the same handles.
    fn is_same(&self, tested: &TestedTable<'_>, got: &Notes) -> bool {
        got.offered.noted() == self.wanted.offered.noted()
            && got.asked.noted() == self.wanted.asked.noted()
            && self.has_same_sizes(tested)
            && self.has_same_slots(tested)
    }

    /// Returns true if as many handles are in both, and as many fit.
    fn has_same_sizes(&self, tested: &TestedTable<'_>) -> bool {
        let table = &tested.table;
        table.len() == self.plain.len()
            && table.capacity() == self.plain.capacity()
            && table.is_empty() == (self.plain.len() == 0)
    }

    /// Returns true if the same handles are in the slots of both.
    fn has_same_slots(&self, tested: &TestedTable<'_>) -> bool {
        let slots = slots_of(self.alloc, &tested.table, FINGERPRINTS);
        slots.as_slice() == self.plain.layout().as_slice()
    }

    /// Adds a command and its reply.
    fn add(&mut self, command: Command<Global>, reply: Reply<Global>, is_wanted: bool) {
        if !is_wanted && self.first.is_none() {
            self.first = Some(self.commands.len());
        }
        let _ = self.commands.push(command);
        let _ = self.replies.push(reply);
    }

    /// Returns true if a new table replies to the commands as one list as the table did to each.
    fn is_run(&self, entries: usize) -> bool {
        let asked = Cell::new(0);
        match run_counted(self.alloc, entries, &self.commands, &asked) {
            Ok(replies) => replies.as_slice() == self.replies.as_slice(),
            Err(_) => false,
        }
    }

    /// Writes at which command the table was another one, or whether the list is run as each command is.
    fn write_outcome(&self, entries: usize, replies: &mut String) -> Result<(), AllocError> {
        match self.first {
            Some(number) => write!(
                replies,
                "{number}: {:?} gave {:?}",
                self.commands.get(number),
                self.replies.get(number)
            ),
            None if self.is_run(entries) => replies.push_str("alike"),
            None => replies.push_str("another run"),
        }
    }
}

/// Makes the call of a command of both.
fn make(tested: &mut TestedTable<'_>, got: &Notes, run: &mut Run, command: Command<Global>) {
    let reply = tested.reply(run.alloc, &command, got);
    let is_wanted = run.is_wanted(tested, got, &command, &reply);
    run.add(command, reply, is_wanted);
}

/// Grows both after some commands, and looks up drawn hashes after others.
fn make_further(
    tested: &mut TestedTable<'_>,
    got: &Notes,
    run: &mut Run,
    draws: &mut DrawnCommands,
    number: u64,
) {
    if number % (COMMANDS / 2) == COMMANDS / 2 - 1 {
        let vacant = run.plain.capacity().saturating_sub(run.plain.len());
        make(tested, got, run, Command::Reserve(vacant.saturating_add(1)));
    }
    if number % 5 == 4 {
        for _ in 0..8 {
            make(tested, got, run, Command::Get(draws.hash()));
        }
    }
}

/// Makes a list of drawn commands.
fn make_all(tested: &mut TestedTable<'_>, got: &Notes, run: &mut Run, draws: &mut DrawnCommands) {
    for number in 0..COMMANDS {
        let command = draws.command(number, &run.plain);
        make(tested, got, run, command);
        make_further(tested, got, run, draws, number);
    }
}

/// Makes the commands of a list on a table for `entries` entries and on plain lists, runs them as one list,
/// and writes whether all is the same.
pub(crate) fn play_list(
    tested: &mut TestedTable<'_>,
    got: &Notes,
    alloc: Global,
    (list, entries): (u64, u64),
    replies: &mut String,
) -> Result<(), AllocError> {
    let mut draws = DrawnCommands {
        draws: SplitMix64::new(list),
        homes: 1 << (list % 4),
        alloc,
    };
    let mut run = Run::with_capacity(alloc, entries as usize);
    make_all(tested, got, &mut run, &mut draws);
    run.write_outcome(entries as usize, replies)
}
