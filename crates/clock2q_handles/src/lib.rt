//! A multimap from 64-bit hashes to handles that its caller owns.
//!
//! A [`Table`] stores no keys. The caller keeps them elsewhere, each behind a handle such as an
//! index, and the table finds the handles that were inserted under a hash. It uses two parts of a
//! hash: the low bits select a home slot, and the top byte is a fingerprint, which it stores. A
//! lookup therefore yields [`Candidates`], among which the caller finds the wanted key, and a table
//! that grows asks the caller for the hash of each held handle. Hashes have to be spread well over
//! both parts; if someone else picks the keys, use a hasher with a secret seed.
//!
//! # Where entries are
//!
//! The slots are those of a Robin Hood table. An entry is at its home slot or after it, and entries
//! of earlier homes come first, so a lookup knows from a slot's metadata alone where it can stop.
//! Here the handles 0 to 4 were inserted under the hashes 4, 4, 5, 7 and 7, into 16 slots:
//!
//! ```text
//! slot           3     4     5     6     7     8     9
//!             +-----+-----+-----+-----+-----+-----+-----+
//! handle      |     |  0  |  1  |  2  |  3  |  4  |     |
//! home        |     |  4  |  4  |  5  |  7  |  7  |     |
//! past home   |     |  0  |  1  |  1  |  0  |  1  |     |
//!             +-----+-----+-----+-----+-----+-----+-----+
//! ```
//!
//! A lookup of hash 5 reads three slots. The entry in slot 5 is one slot past its home, further
//! than the lookup is from home 5, so the lookup goes on. The entry in slot 6 is as far past its
//! home as the lookup is: handle 2 is a candidate. The entry in slot 7 is nearer to its home than
//! the lookup is, so no entry of home 5 is there or later, and the lookup ends.
//!
//! A removal moves the entries after it back by one slot, up to an empty slot or an entry at its
//! home. Without handle 1, handle 2 is in slot 5, slot 6 is empty, and handles 3 and 4 stay. So the
//! slots depend only on the entries that are held, not on those that were held before.
//!
//! Handles under one hash are adjacent, so an insertion or a removal among them takes time linear
//! in their number.
//!
//! # Size
//!
//! A new table has no slots. Later it has 16 or a larger power of two. Entries fill at most three
//! quarters of the slots. A full table doubles its slots, and no table shrinks.
#![tactic(auto)]

mod candidates;
mod entry;
mod error;
mod gap;
mod metadata;
mod partitions;
mod slots;
mod table;

pub use candidates::Candidates;
pub use entry::Entry;
pub use error::TableError;
pub use gap::Gap;
pub use partitions::partition;
pub use table::Table;
