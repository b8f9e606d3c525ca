//! A write-back cache of a device's blocks: a block that is written goes to the device when it is
//! evicted or flushed. Whatever is evicted, a block that is read is the one that was written last.
ghost use Rattle.clock2q_machine.specs.Steps.{fetched, put};
ghost use Rattle.clock2q_uses.specs.WriteBack.{IsInStep, blocks, cleaned_if_left, is_dirty, left_by, other_than, written_back, written_if_left};
ghost use Rattle.std.specs.Prelude.{◌≡◌, ◌<◌, ℕ, eqb, true, false, Some, IfSome, length, replicate, slice_get, slice_set};

use clock2q::Cache;
use std::hash::BuildHasher;

/// Writes a block into the cache, and marks it as dirty. The block that is evicted for it, if one
/// is, goes to the device if it is dirty.
pub fn write_block<T: Copy, S: BuildHasher>(
    cache: &mut Cache<usize, T, S>,
    dirty: &mut [bool],
    device: &mut [T],
    number: usize,
    block: T,
)
    requires within { number < length device.old }
    requires marks { length dirty.old ≡ length device.old }
    requires in_step { IsInStep cache.old.machine dirty.old device.old }
    ensures blocks { blocks cache.new.machine device.new ≡
        slice_set (blocks cache.old.machine device.old) number block }
    ensures machine { cache.new.machine ≡ put (eqb number) number block cache.old.machine }
    ensures device { device.new ≡
        written_if_left dirty.old (left_by number block cache.old.machine) device.old }
    ensures dirty { dirty.new ≡
        slice_set (cleaned_if_left (left_by number block cache.old.machine) dirty.old) number true }
    ensures in_step { IsInStep cache.new.machine dirty.new device.new }
    ensures marks { length dirty.new ≡ length dirty.old }
    ensures as_many { length device.new ≡ length device.old }
{
    cache.facts();
    let handed = cache.put_evicting(number, block);
    write_left(device, dirty, number, handed);
    dirty[number] = true;
}

/// Returns a block: the one that was written last. One that isn't in the cache is read from the
/// device, and a dirty block that is evicted for it goes there.
pub fn read_block<T: Copy, S: BuildHasher>(
    cache: &mut Cache<usize, T, S>,
    dirty: &mut [bool],
    device: &mut [T],
    number: usize,
) -> T
    requires within { number < length device.old }
    requires marks { length dirty.old ≡ length device.old }
    requires in_step { IsInStep cache.old.machine dirty.old device.old }
    ensures block { slice_get (blocks cache.old.machine device.old) number ≡ Some result }
    ensures blocks { blocks cache.new.machine device.new ≡ blocks cache.old.machine device.old }
    ensures machine { cache.new.machine ≡ fetched (eqb number) number result cache.old.machine }
    ensures device { device.new ≡
        written_if_left dirty.old (left_by number result cache.old.machine) device.old }
    ensures dirty { dirty.new ≡
        cleaned_if_left (left_by number result cache.old.machine) dirty.old }
    ensures in_step { IsInStep cache.new.machine dirty.new device.new }
    ensures marks { length dirty.new ≡ length dirty.old }
    ensures as_many { length device.new ≡ length device.old }
{
    cache.facts();
    if let Some(block) = cache.get(&number) {
        return *block;
    }
    let block = device[number];
    let handed = cache.put_evicting(number, block);
    write_left(device, dirty, number, handed);
    block
}

/// Writes each dirty block of the cache to the device, and marks every block as clean. The device
/// then has each block as it was written last.
///
/// # Cost
///
/// One step for each slot up to the last resident's, and one for each mark.
pub fn flush<T: Copy, S: BuildHasher>(
    cache: &Cache<usize, T, S>,
    dirty: &mut [bool],
    device: &mut [T],
)
    requires marks { length dirty.old ≡ length device.old }
    requires in_step { IsInStep cache.now.machine dirty.old device.old }
    ensures device { device.new ≡ blocks cache.now.machine device.old }
    ensures blocks { blocks cache.now.machine device.new ≡ blocks cache.now.machine device.old }
    ensures in_step { IsInStep cache.now.machine dirty.new device.new }
    ensures clean { dirty.new ≡ replicate (length dirty.old) false }
{
    cache.facts();
    for (number, _, block) in cache.iter() {
        write_if_dirty(device, dirty, *number, *block);
    }
    dirty.fill(false);
}

/// Writes a block to the device if it is dirty.
fn write_if_dirty<T: Copy>(device: &mut [T], dirty: &[bool], number: usize, block: T)
    requires within { number < length device.old }
    requires marks { length dirty.now ≡ length device.old }
    ensures written { device.new ≡ written_back dirty.now (number, block) device.old }
    ensures as_many { length device.new ≡ length device.old }
{
    if dirty[number] {
        device[number] = block;
    }
}

/// Writes the block that a put of `number` handed over to the device, if it is another block and
/// dirty. That one is clean then.
fn write_left<T: Copy>(
    device: &mut [T],
    dirty: &mut [bool],
    number: usize,
    handed: Option<(usize, T)>,
)
    requires within { IfSome handed (λ block. block.0 < length device.old) }
    requires marks { length dirty.old ≡ length device.old }
    ensures written { device.new ≡ written_if_left dirty.old (other_than number handed) device.old }
    ensures dirty { dirty.new ≡ cleaned_if_left (other_than number handed) dirty.old }
    ensures clean { (k : ℕ) →
        ((r : ℕ × T) → other_than number handed ≡ Some r → eqb k r.0 ≡ false) →
        is_dirty dirty.new k ≡ is_dirty dirty.old k }
    ensures marks { length dirty.new ≡ length dirty.old }
    ensures as_many { length device.new ≡ length device.old }
{
    let Some((left, block)) = handed else {
        return;
    };
    if number != left && dirty[left] {
        device[left] = block;
        dirty[left] = false;
    }
}
