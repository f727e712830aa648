// Loops over what places hold at the end.

ghost use Rattle.std.specs.Prelude.{◌≡◌, ◌+◌, ◌≤◌, ◌++◌, ℕ, false, drop, take, length, get_or, replicate, OnOk};
ghost use Rattle.std.specs.Prelude.{vec_len, vec_capacity};
ghost use Rattle.ceal_order.specs.Stamps.{is_in, AllBelow};
ghost use Rattle.ceal_mods.specs.Marks.{CellsTold, Watches, ends_of, told, told_new, told_of};

use crate::cell::Cell;
use crate::entries::cell_at;
use crate::written::Written;
use ceal_base::no_memory::NoMemory;
use ceal_base::word::{Place, Word};

/// The cells from a slot on.
pub fn cells_from(cells: &[(Place, Cell)], slot: usize) -> &[(Place, Cell)]
    requires { slot ≤ length cells.now }
    ensures { result.now ≡ drop slot cells.now }
{
    &cells[slot..]
}

/// What is marked holds what its cells hold, and no slot is listed any more. Only the listed slots are gone through.
pub fn renew_ends<W: Written>(
    written: &W,
    ends: &mut [(Place, Word)],
    listed: &mut [bool],
    slots: &[u32],
    cells: &[(Place, Cell)],
)
    requires watched { Watches (record { ends = ends.old; slots = slots.now }) cells.now }
    requires long { length listed.old ≡ length ends.old }
    requires values { CellsTold (W.tells written.now) cells.now }
    requires flags { (s : ℕ) → get_or listed.old s false ≡ is_in s slots.now }
    ensures ends { ends.new ≡ ends_of (take (length ends.old) cells.now) }
    ensures listed { listed.new ≡ replicate (length listed.old) false }
{
    for slot in slots {
        let at = *slot as usize;
        ends[at].1 = cell_at(cells, *slot).end(written);
        listed[at] = false;
    }
}

/// Adds what these cells hold, not listed. There is room for them.
pub fn add_ends<W: Written>(
    written: &W,
    ends: &mut Vec<(Place, Word)>,
    listed: &mut Vec<bool>,
    cells: &[(Place, Cell)],
)
    requires values { CellsTold (W.tells written.now) cells.now }
    requires ends { vec_len ends.old + length cells.now ≤ vec_capacity ends.old }
    requires listed { vec_len listed.old + length cells.now ≤ vec_capacity listed.old }
    ensures ends { ends.new.items ≡ ends.old.items ++ ends_of cells.now }
    ensures listed { listed.new.items ≡ listed.old.items ++ replicate (length cells.now) false }
{
    for entry in cells {
        ends.push_reserved((entry.0, entry.1.end(written)));
        listed.push_reserved(false);
    }
}

/// Adds a place, where it holds something else than it held.
fn tell(places: &mut Vec<Place>, place: Place, held: Word, now: Word) -> Result<(), NoMemory>
    ensures { OnOk result (places.new.items ≡ places.old.items ++ told_of place held now) }
{
    if now == held {
        return Ok(());
    }
    places.push(place)?;
    Ok(())
}

/// Adds the places of these slots that hold something else than they held.
pub fn tell_listed<W: Written>(
    written: &W,
    places: &mut Vec<Place>,
    ends: &[(Place, Word)],
    slots: &[u32],
    cells: &[(Place, Cell)],
) -> Result<(), NoMemory>
    requires ends { AllBelow (length ends.now) slots.now }
    requires values { CellsTold (W.tells written.now) cells.now }
    requires cells { AllBelow (length cells.now) slots.now }
    ensures { OnOk result
        (places.new.items ≡ places.old.items ++ told ends.now cells.now slots.now) }
{
    for slot in slots {
        let (place, held) = ends[*slot as usize];
        let now = cell_at(cells, *slot).end(written);
        tell(places, place, held, now)?;
    }
    Ok(())
}

/// Adds the places of these cells that do not hold 0.
pub fn tell_new<W: Written>(
    written: &W,
    places: &mut Vec<Place>,
    cells: &[(Place, Cell)],
) -> Result<(), NoMemory>
    requires values { CellsTold (W.tells written.now) cells.now }
    ensures { OnOk result (places.new.items ≡ places.old.items ++ told_new cells.now) }
{
    for entry in cells {
        tell(places, entry.0, Word::Num(0), entry.1.end(written))?;
    }
    Ok(())
}
