// Room in lists that grow.

ghost use Rattle.std.specs.Prelude.{◌≡◌, ◌+◌, ◌≤◌, OnOk, vec_len, vec_capacity};

use ceal_base::no_memory::NoMemory;

// Up to this length a list grows fourfold.
const SHORT: usize = 65536;

/// For how many more items room is made in a list of this length, where there is too little. A list that is not long
/// grows fourfold, so that its items are seldom moved. Memory that is not written to takes no place.
pub fn ample(len: usize, more: usize) -> usize
    ensures enough { more ≤ result }
{
    more.max(len.min(SHORT).saturating_mul(3))
}

/// Makes room for `more` more items.
pub fn make_room<T>(items: &mut Vec<T>, more: usize) -> Result<(), NoMemory>
    ensures same { items.new.items ≡ items.old.items }
    ensures raises { vec_capacity items.old ≤ vec_capacity items.new }
    ensures room { OnOk result (vec_len items.new + more ≤ vec_capacity items.new) }
{
    if more <= items.capacity() - items.len() {
        return Ok(());
    }
    items.reserve(ample(items.len(), more))?;
    Ok(())
}
