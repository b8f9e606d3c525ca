//! Slots of a directory.
ghost use Rattle.std.specs.Prelude.{◌≡◌, ◌<◌, []};
ghost use Rattle.clock2q_directory.specs.Directory.{nothing_known};

use clock2q_directory::directory::Directory;
use std::alloc::{AllocError, Global};

/// Makes the slot, and replaces its value. Returns how many slots are made and how many keys are
/// remembered before and after it is made, then the slot's key and value, the value that is replaced, and
/// the key and value that are left.
fn make_and_replace(directory: &mut Directory<u64, u64>) -> [u64; 9]
    requires empty { directory.old.residents.entries ≡ [] }
    requires room { 0 < directory.old.residents.room }
{
    let before = (directory.made(), directory.remembered_len());
    directory.prepare(7, 70, 700);
    let after = (directory.made(), directory.remembered_len());
    let (key, value) = (*directory.key(0), *directory.value(0));
    let replaced = directory.replace_value(0, 701);
    [
        before.0 as u64,
        before.1 as u64,
        after.0 as u64,
        after.1 as u64,
        key,
        value,
        replaced,
        *directory.key(0),
        *directory.value(0),
    ]
}

/// Does so in a directory with one slot, which has no resident.
pub(crate) fn a_slot(alloc: Global) -> Result<[u64; 9], AllocError> {
    let mut directory = Directory::new(alloc, 1, 0)?;
    Ok(make_and_replace(&mut directory))
}

/// Makes the only slot, and one more once the directory has grown. Returns how many slots are made, the key
/// and the value of the first, and the key of the second.
fn make_one_more(directory: &mut Directory<u64, u64>, alloc: Global) -> Result<[u64; 4], AllocError>
    requires empty { directory.old ≡ nothing_known 1 0 }
{
    directory.prepare(7, 70, 700);
    directory.grow(alloc, 2, 3)?;
    directory.prepare(8, 80, 800);
    Ok([
        directory.made() as u64,
        *directory.key(0),
        *directory.value(0),
        *directory.key(1),
    ])
}

/// Does so in a new directory for one slot.
pub(crate) fn a_slot_more(alloc: Global) -> Result<[u64; 4], AllocError> {
    let mut directory = Directory::new(alloc, 1, 0)?;
    make_one_more(&mut directory, alloc)
}
