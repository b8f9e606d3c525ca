//! Runs worked out by hand, whose contracts say what no call reports: the inspections by the hand, the
//! accesses to links, and ages.
ghost use Rattle.std.specs.Prelude.{◌≡◌, ◌+◌, ◌≤◌, true, false, [], ◌∷◌, map, IfOk};
ghost use Rattle.std.specs.List.{range_with_len};
ghost use Rattle.clock2q_machine.specs.Ages.{Young};

use clock2q_queues::queues::Queues;
use std::alloc::{AllocError, Global};
use testing::Refusing;

/// Puts the slots from 2 to 19 into Main, and hits each.
fn fill_main(queues: &mut Queues<&Refusing<Global>>)
    requires slots { queues.old.slots ≡ 20 }
    requires small { queues.old.small ≡ [] }
    requires main { queues.old.main ≡ [] }
    ensures slots { queues.new.slots ≡ 20 }
    ensures main { queues.new.main ≡ map (λ slot. (slot, true)) (range_with_len 2 18) }
    ensures inspections { queues.new.inspections ≡ queues.old.inspections }
{
    queues.make_below(2);
    for slot in 2..20 {
        queues.append(slot);
        queues.hit(slot);
    }
}

/// All 18 bits are set: the hand passes them all, and its 19th inspection finds the first one clear.
fn go_round(queues: &mut Queues<&Refusing<Global>>) -> u32
    requires slots { queues.old.slots ≡ 20 }
    requires small { queues.old.small ≡ [] }
    requires main { queues.old.main ≡ [] }
    ensures slots { queues.new.slots ≡ 20 }
    ensures victim { result ≡ 2 }
    ensures main { queues.new.main ≡ map (λ slot. (slot, false)) (range_with_len 3 17) }
    ensures inspections { queues.new.inspections ≡ queues.old.inspections + 19 }
{
    fill_main(queues);
    queues.take_victim()
}

/// One slot in Main whose bit is set: it is evicted after two inspections.
fn look_twice(queues: &mut Queues<&Refusing<Global>>) -> u32
    requires slots { queues.old.slots ≡ 20 }
    requires small { queues.old.small ≡ [] }
    requires main { queues.old.main ≡ [] }
    ensures victim { result ≡ 0 }
    ensures main { queues.new.main ≡ [] }
    ensures inspections { queues.new.inspections ≡ queues.old.inspections + 2 }
{
    queues.append(0);
    queues.hit(0);
    queues.take_victim()
}

/// Slot 3 comes first, so the link records of the three below it are made ahead, and later that of
/// slot 4. Each is an access to a link.
fn come_in_any_order(queues: &mut Queues<&Refusing<Global>>)
    requires slots { queues.old.slots ≡ 20 }
    requires none { queues.old.made ≡ 0 }
    requires small { queues.old.small ≡ [] }
    requires main { queues.old.main ≡ [] }
    ensures slots { queues.new.slots ≡ 20 }
    ensures main { queues.new.main ≡ (3, false) ∷ (1, false) ∷ (5, false) ∷ [] }
    ensures made { queues.new.made ≡ 6 }
    ensures accesses { queues.new.accesses ≤ queues.old.accesses + 23 }
{
    queues.make_below(3);
    queues.append(3);
    queues.append(1);
    queues.make_below(5);
    queues.append(5);
}

/// Plays the runs, and returns the victims of the second and the third one.
fn play_each(queues: &mut Queues<&Refusing<Global>>) -> [u64; 2]
    requires slots { queues.old.slots ≡ 20 }
    requires none { queues.old.made ≡ 0 }
    requires small { queues.old.small ≡ [] }
    requires main { queues.old.main ≡ [] }
{
    come_in_any_order(queues);
    queues.clear();
    let first = go_round(queues);
    queues.clear();
    [u64::from(first), u64::from(look_twice(queues))]
}

/// Plays the runs on new queues. What they leave is proved.
pub(crate) fn count(memory: &Refusing<Global>) -> Result<[u64; 2], AllocError> {
    let mut queues = Queues::new(memory, 20, 0)?;
    Ok(play_each(&mut queues))
}

/// Slots 0 and 1 fill the window. It is made longer by one, and slot 0 is still young after the next
/// admission.
fn admit_and_grow(memory: &Refusing<Global>) -> Result<Queues<&Refusing<Global>>, AllocError>
    ensures small { IfOk result (λ q. q.small
        ≡ (2, Young 0) ∷ (1, Young 1) ∷ (0, Young 2) ∷ []) }
    ensures accesses { IfOk result (λ q. q.accesses ≤ 38) }
{
    let mut queues = Queues::new(memory, 2, 2)?;
    queues.admit(0);
    queues.admit(1);
    let mut longer = queues.grown(memory, 3, 3)?;
    longer.admit(2);
    Ok(longer)
}

/// Plays the run on growth, and returns the number of slots in Small.
pub(crate) fn grow(memory: &Refusing<Global>) -> Result<usize, AllocError> {
    Ok(admit_and_grow(memory)?.small_len())
}
