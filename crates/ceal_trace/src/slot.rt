// What a table keeps of a stamp itself.

ghost use Rattle.std.specs.Prelude.{◌≡◌, ◌<◌, ◌≤◌, length, max, OnOk};
ghost use Rattle.ceal_trace.specs.Slots.{slot_of, SlotSet, KeyTaken, StepsPut, EndPut, Longer};

use crate::shelf::NO_KEY;
use ceal_base::no_memory::NoMemory;
use ceal_order::room::make_room;

/// Stands for no stamp: no order has a stamp of this number.
pub const NO_STAMP: u32 = u32::MAX;

/// The key of a stamp's node, its steps, and the stamp of its end where it is a finished read. A number that is no
/// stamp has no key.
#[derive(Clone, Copy)]
pub struct Slot {
    pub key: usize,
    pub steps: u32,
    pub end: u32,
}

/// The slot of a stamp.
pub fn slot_at(slots: &[Slot], at: u32) -> Slot
    requires { at < length slots.now }
    ensures { result ≡ slot_of slots.now at }
{
    slots[at as usize]
}

/// Gives a stamp a key, without steps.
pub fn put_key(slots: &mut Vec<Slot>, at: u32, key: usize)
    requires { at < length slots.old.items }
    ensures { SlotSet slots.old.items slots.new.items at
        (record { key = key; steps = 0; end = 4294967295 }) }
{
    slots[at as usize] = Slot {
        key,
        steps: 0,
        end: NO_STAMP,
    };
}

/// Takes the key of a stamp, which has none then.
pub fn take_key(slots: &mut Vec<Slot>, at: u32) -> Slot
    requires { at < length slots.old.items }
    ensures { KeyTaken slots.old.items slots.new.items at result }
{
    let slot = &mut slots[at as usize];
    let was = *slot;
    slot.key = NO_KEY;
    was
}

/// Changes the steps that are counted at a stamp.
pub fn set_steps(slots: &mut Vec<Slot>, at: u32, steps: u32)
    requires { at < length slots.old.items }
    ensures { StepsPut slots.old.items slots.new.items at steps }
{
    let slot = &mut slots[at as usize];
    slot.steps = steps;
}

/// Tells where the read at a stamp ends.
pub fn set_end(slots: &mut Vec<Slot>, at: u32, end: u32)
    requires { at < length slots.old.items }
    ensures { EndPut slots.old.items slots.new.items at end }
{
    let slot = &mut slots[at as usize];
    slot.end = end;
}

/// Adds slots until there are `count`. It is called seldom, and is a separate function, so that the usual path is
/// short.
#[inline(never)]
pub fn lengthen(slots: &mut Vec<Slot>, count: usize) -> Result<(), NoMemory>
    ensures longer { Longer slots.old.items slots.new.items }
    ensures enough { OnOk result (count ≤ length slots.new.items) }
    ensures most { length slots.new.items ≤ max (length slots.old.items) count }
{
    let more = count.saturating_sub(slots.len());
    make_room(slots, more)?;
    for added in 0..more {
        slots.push_reserved(Slot {
            key: NO_KEY,
            steps: 0,
            end: NO_STAMP,
        });
    }
    Ok(())
}
