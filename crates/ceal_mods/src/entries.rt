// Cells with their places, and what is changed in one of them.

ghost use Rattle.std.specs.Prelude.{◌≡◌, ◌<◌, false, length, OnOk, OnErr, IsTrue};
ghost use Rattle.ceal_order.specs.Stamps.{is_in};
ghost use Rattle.ceal_order.specs.Rising.{IsRising};
ghost use Rattle.ceal_mods.specs.Writes.{stamps_of};
ghost use Rattle.ceal_mods.specs.Cell.{with_base, with_write, without_write, with_read, without_read};
ghost use Rattle.ceal_mods.specs.Index.{cell_in, with_cell};

use crate::cell::Cell;
use ceal_base::no_memory::NoMemory;
use ceal_base::word::{Place, Word};
use ceal_order::order::Order;
use ceal_order::stamp::Stamp;

/// The cell at a slot.
pub fn cell_at(cells: &[(Place, Cell)], slot: u32) -> &Cell
    requires { slot < length cells.now }
    ensures { result.now ≡ cell_in cells.now slot }
{
    let entry = &cells[slot as usize];
    &entry.1
}

/// Sets the base of a cell.
pub fn set_base_at(cells: &mut [(Place, Cell)], slot: u32, value: Word)
    requires { slot < length cells.old }
    ensures { cells.new ≡ with_cell slot (with_base value (cell_in cells.old slot)) cells.old }
{
    let entry = &mut cells[slot as usize];
    entry.1.base = value;
}

/// Puts a write into a cell.
pub fn add_write_at(
    cells: &mut [(Place, Cell)],
    slot: u32,
    order: &Order,
    stamp: Stamp,
    value: Word,
) -> Result<(), NoMemory>
    requires there { slot < length cells.old }
    requires here { IsTrue (is_in stamp.0 order.now.stamps) }
    requires rising { IsRising order.now.stamps (stamps_of (cell_in cells.old slot).writes) }
    requires absent { is_in stamp.0 (stamps_of (cell_in cells.old slot).writes) ≡ false }
    ensures ok { OnOk result (cells.new
        ≡ with_cell slot
        (with_write order.now.stamps stamp.0 value (cell_in cells.old slot)) cells.old) }
    ensures err { OnErr result (cells.new ≡ cells.old) }
    ensures rising { IsRising order.now.stamps (stamps_of (cell_in cells.new slot).writes) }
{
    let entry = &mut cells[slot as usize];
    entry.1.writes.add(order, stamp, value)?;
    Ok(())
}

/// Takes a write out of a cell.
pub fn remove_write_at(cells: &mut [(Place, Cell)], slot: u32, order: &Order, stamp: Stamp)
    requires there { slot < length cells.old }
    requires here { IsTrue (is_in stamp.0 order.now.stamps) }
    requires rising { IsRising order.now.stamps (stamps_of (cell_in cells.old slot).writes) }
    requires has { IsTrue (is_in stamp.0 (stamps_of (cell_in cells.old slot).writes)) }
    ensures cell { cells.new
        ≡ with_cell slot (without_write stamp.0 (cell_in cells.old slot)) cells.old }
    ensures rising { IsRising order.now.stamps (stamps_of (cell_in cells.new slot).writes) }
{
    let entry = &mut cells[slot as usize];
    entry.1.writes.remove(order, stamp);
}

/// Puts a read into a cell.
#[inline(always)]
pub fn add_read_at(
    cells: &mut [(Place, Cell)],
    slot: u32,
    order: &Order,
    stamp: Stamp,
) -> Result<(), NoMemory>
    requires there { slot < length cells.old }
    requires here { IsTrue (is_in stamp.0 order.now.stamps) }
    requires rising { IsRising order.now.stamps (cell_in cells.old slot).reads }
    requires absent { is_in stamp.0 (cell_in cells.old slot).reads ≡ false }
    ensures ok { OnOk result (cells.new
        ≡ with_cell slot (with_read order.now.stamps stamp.0 (cell_in cells.old slot)) cells.old) }
    ensures err { OnErr result (cells.new ≡ cells.old) }
    ensures rising { IsRising order.now.stamps (cell_in cells.new slot).reads }
{
    let entry = &mut cells[slot as usize];
    entry.1.reads.insert(order, stamp)?;
    Ok(())
}

/// Takes a read out of a cell.
pub fn remove_read_at(cells: &mut [(Place, Cell)], slot: u32, order: &Order, stamp: Stamp)
    requires there { slot < length cells.old }
    requires here { IsTrue (is_in stamp.0 order.now.stamps) }
    requires rising { IsRising order.now.stamps (cell_in cells.old slot).reads }
    requires has { IsTrue (is_in stamp.0 (cell_in cells.old slot).reads) }
    ensures cell { cells.new
        ≡ with_cell slot (without_read stamp.0 (cell_in cells.old slot)) cells.old }
    ensures rising { IsRising order.now.stamps (cell_in cells.new slot).reads }
{
    let entry = &mut cells[slot as usize];
    entry.1.reads.remove(order, stamp);
}
