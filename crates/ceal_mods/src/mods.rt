// The modifiables of all places.

ghost use Rattle.std.specs.Prelude.{◌≡◌, ◌≢◌, ◌↔◌, ℕ, ◌<◌, ◌≤◌, ◌+◌, ◌-◌, ◌^◌, ◌++◌, ◌∷◌, [], List, None, Some, false};
ghost use Rattle.std.specs.Prelude.{min, IsTrue, IsSome, IfSome, IfNone, IfOk, IsOk, OnOk, OnErr, is_some, vec_len};
ghost use Rattle.std.specs.Prelude.{length, vec_capacity};
ghost use Rattle.std.specs.Map.{lookup};
ghost use Rattle.ceal_base.specs.contracts.word.PlacePartialEq.TheImpl.{ghosts};
ghost use Rattle.ceal_base.specs.declared.word.Place.{Place as PlaceOf};
ghost use Rattle.ceal_order.specs.Stamps.{is_in};
ghost use Rattle.ceal_mods.specs.Writes.{stamps_of, AreTold};
ghost use Rattle.ceal_mods.specs.Cell.{untouched, value_before, latest_value, with_base, with_write, without_write};
ghost use Rattle.ceal_mods.specs.Cell.{with_read, without_read, Sees, IsAffected};
ghost use Rattle.ceal_mods.specs.Index.{where_from, slot_of, Indexes};
ghost use Rattle.ceal_mods.specs.Mods.{AllTold, cell_of, cell_slot, held_at_mark, HasCell, IsUntouched, Changes};
ghost use Rattle.ceal_mods.specs.Mods.{Follows, places_of};
ghost use Rattle.ceal_mods.specs.Marks.{CellsTold, ends_of, times};
ghost use Rattle.ceal_mods.specs.Slots.{no_slot};

use crate::cell::Cell;
use crate::entries::{
    add_read_at, add_write_at, cell_at, remove_read_at, remove_write_at, set_base_at,
};
use crate::index::Index;
use crate::marks::{Marks, note};
use crate::slots::NO_SLOT;
use crate::written::Written;
use ceal_base::no_memory::NoMemory;
use ceal_base::word::{Place, Word};
use ceal_order::order::Order;
use ceal_order::room::make_room;
use ceal_order::stamp::Stamp;
use std::alloc::Global;
use std::marker::Model;

/// The modifiables, each with its base, its writes and its reads; a place that was never touched has the base 0. Each
/// call that is handed an order needs that they follow it, and leaves them so. A place is found by its numbers and a
/// stamp by halves; a write or a read after all others of its place goes in without a search. Removals and look-ups
/// take no memory.
#[derive(Drop)]
pub struct Mods {
    cells: Vec<(Place, Cell)>,
    index: Index,
    looked: u64,
    differed: u64,
    marks: Option<Marks>,
    alloc: Global,
}

impl Model for Mods {
    ghost use Rattle.ceal_mods.specs.Mods.{Contents};

    ghost Value = { Contents };

    ghost use Rattle.ceal_mods.specs.Marks.{ends_in, IsWhole};

    ghost view = { λ m. record {
      cells = m.cells.items;
      looked = m.looked;
      differed = m.differed;
      marked = ends_in m.marks;
    } };

    ghost invariant = { λ m. IsWhole m.index m.cells.items m.marks };
}

impl Mods {
    /// No place was touched, and no value was looked up.
    pub fn new(alloc: Global) -> Result<Mods, NoMemory>
        ensures cells { IfOk result IsUntouched }
        ensures places { IfOk result (λ mods. places_of mods.cells ≡ []) }
        ensures looked { IfOk result (λ mods. mods.looked ≡ 0) }
        ensures differed { IfOk result (λ mods. mods.differed ≡ 0) }
        ensures marked { IfOk result (λ mods. mods.marked ≡ None) }
        ensures follows { IfOk result (λ mods. (order : List ℕ) → Follows order mods) }
    {
        Ok(Mods {
            cells: Vec::new(alloc),
            index: Index::new(alloc),
            looked: 0,
            differed: 0,
            marks: None,
            alloc,
        })
    }

    /// Sets what a place holds before any write. Where the place was touched before, it takes no memory.
    pub fn set_base(&mut self, place: Place, value: Word) -> Result<(), NoMemory>
        ensures ok { OnOk result
            (Changes self.old self.new place (with_base value (cell_of self.old place))) }
        ensures err { OnErr result (self.new ≡ self.old) }
        ensures sure { HasCell self.old place → IsOk result }
        ensures touched { OnOk result (HasCell self.new place) }
        ensures others_touched { (p : PlaceOf) → HasCell self.old p → HasCell self.new p }
        ensures follows { (order : List ℕ) → Follows order self.old → Follows order self.new }
    {
        let slot = self.index.find(place);
        if slot != NO_SLOT {
            note(&mut self.marks, slot);
            set_base_at(&mut self.cells, slot, value);
            return Ok(());
        }
        enter_base(&mut self.cells, &mut self.index, place, value)?;
        Ok(())
    }

    /// Sets what a place that was never touched holds before any write, and answers true. A place that was touched is
    /// left as it is, and the answer is false.
    #[inline(always)]
    pub fn begin(&mut self, place: Place, value: Word) -> Result<bool, NoMemory>
        ensures untouched { IfOk result
            (λ begun. IsTrue begun → cell_of self.old place ≡ untouched) }
        ensures begun { IfOk result (λ begun. IsTrue begun
            → Changes self.old self.new place (with_base value (cell_of self.old place))) }
        ensures known { IfOk result (λ begun. begun ≡ false → HasCell self.old place) }
        ensures left { IfOk result (λ begun. begun ≡ false → self.new ≡ self.old) }
        ensures err { OnErr result (self.new ≡ self.old) }
        ensures sure { HasCell self.old place → IsOk result }
        ensures touched { OnOk result (HasCell self.new place) }
        ensures others_touched { (p : PlaceOf) → HasCell self.old p → HasCell self.new p }
        ensures follows { (order : List ℕ) → Follows order self.old → Follows order self.new }
    {
        let slot = self.index.find(place);
        if slot != NO_SLOT {
            return Ok(false);
        }
        enter_base(&mut self.cells, &mut self.index, place, value)?;
        Ok(true)
    }

    /// Puts in a write of a place at a stamp where the place has none, and says where the cell
    /// of the place is then.
    #[inline(always)]
    pub fn add_write(
        &mut self,
        order: &Order,
        place: Place,
        stamp: Stamp,
        value: Word,
    ) -> Result<u32, NoMemory>
        requires here { IsTrue (is_in stamp.0 order.now.stamps) }
        requires follows { Follows order.now.stamps self.old }
        requires absent { is_in stamp.0 (stamps_of (cell_of self.old place).writes) ≡ false }
        ensures ok { OnOk result
            (Changes self.old self.new place
            (with_write order.now.stamps stamp.0 value (cell_of self.old place))) }
        ensures slot { IfOk result (λ slot. slot ≡ cell_slot self.new place) }
        ensures err { OnErr result (self.new ≡ self.old) }
        ensures follows { Follows order.now.stamps self.new }
    {
        let slot = self.index.find(place);
        if slot != NO_SLOT {
            note(&mut self.marks, slot);
            add_write_at(&mut self.cells, slot, order, stamp, value)?;
            return Ok(slot);
        }
        let cell = Cell::written(self.alloc, order, stamp, value)?;
        let made = self.cells.len() as u32;
        enter(&mut self.cells, &mut self.index, place, cell)?;
        Ok(made)
    }

    /// Takes out the write of a place at a stamp where the place has one, and says where the
    /// cell of the place is.
    pub fn remove_write(&mut self, order: &Order, place: Place, stamp: Stamp) -> u32
        requires here { IsTrue (is_in stamp.0 order.now.stamps) }
        requires follows { Follows order.now.stamps self.old }
        requires there { IsTrue (is_in stamp.0 (stamps_of (cell_of self.old place).writes)) }
        ensures cell { Changes self.old self.new place
            (without_write stamp.0 (cell_of self.old place)) }
        ensures places { places_of self.new.cells ≡ places_of self.old.cells }
        ensures slot { result ≡ cell_slot self.new place }
        ensures follows { Follows order.now.stamps self.new }
    {
        let slot = self.index.find(place);
        if slot != NO_SLOT {
            note(&mut self.marks, slot);
            remove_write_at(&mut self.cells, slot, order, stamp);
        }
        slot
    }

    /// Puts in a read of a place at a stamp where the place has none.
    #[inline(always)]
    pub fn add_read(&mut self, order: &Order, place: Place, stamp: Stamp) -> Result<(), NoMemory>
        requires here { IsTrue (is_in stamp.0 order.now.stamps) }
        requires follows { Follows order.now.stamps self.old }
        requires absent { is_in stamp.0 (cell_of self.old place).reads ≡ false }
        ensures ok { OnOk result
            (Changes self.old self.new place
            (with_read order.now.stamps stamp.0 (cell_of self.old place))) }
        ensures err { OnErr result (self.new ≡ self.old) }
        ensures follows { Follows order.now.stamps self.new }
    {
        let slot = self.slot(place);
        self.add_read_in(order, slot, place, stamp)?;
        Ok(())
    }

    /// The same, of a place whose slot is known.
    #[inline(always)]
    pub fn add_read_in(
        &mut self,
        order: &Order,
        slot: u32,
        place: Place,
        stamp: Stamp,
    ) -> Result<(), NoMemory>
        requires slot { slot ≡ cell_slot self.old place }
        requires here { IsTrue (is_in stamp.0 order.now.stamps) }
        requires follows { Follows order.now.stamps self.old }
        requires absent { is_in stamp.0 (cell_of self.old place).reads ≡ false }
        ensures ok { OnOk result
            (Changes self.old self.new place
            (with_read order.now.stamps stamp.0 (cell_of self.old place))) }
        ensures err { OnErr result (self.new ≡ self.old) }
        ensures follows { Follows order.now.stamps self.new }
    {
        if slot != NO_SLOT {
            add_read_at(&mut self.cells, slot, order, stamp)?;
            return Ok(());
        }
        let cell = Cell::read(self.alloc, order, stamp)?;
        enter(&mut self.cells, &mut self.index, place, cell)?;
        Ok(())
    }

    /// Takes out the read of a place at a stamp where the place has one.
    pub fn remove_read(&mut self, order: &Order, place: Place, stamp: Stamp)
        requires here { IsTrue (is_in stamp.0 order.now.stamps) }
        requires follows { Follows order.now.stamps self.old }
        requires there { IsTrue (is_in stamp.0 (cell_of self.old place).reads) }
        ensures cell { Changes self.old self.new place
            (without_read stamp.0 (cell_of self.old place)) }
        ensures places { places_of self.new.cells ≡ places_of self.old.cells }
        ensures follows { Follows order.now.stamps self.new }
    {
        let slot = self.index.find(place);
        if slot != NO_SLOT {
            remove_read_at(&mut self.cells, slot, order, stamp);
        }
    }

    /// Where the cell of a place is, if it has one. It stays there, whatever is set, put in or taken out.
    #[inline(always)]
    pub fn slot(&self, place: Place) -> u32
        ensures { result ≡ cell_slot self.now place }
    {
        self.index.find(place)
    }

    /// Whether a place has a cell. One that has none holds 0.
    #[inline(always)]
    pub fn has_cell(&self, place: Place) -> bool
        ensures { IsTrue result ↔ HasCell self.now place }
    {
        self.index.find(place) != NO_SLOT
    }

    /// What a place holds at a stamp, which counts as one look-up.
    #[inline]
    pub fn value_at<W: Written>(
        &mut self,
        order: &Order,
        written: &W,
        place: Place,
        stamp: Stamp,
    ) -> Word
        requires here { IsTrue (is_in stamp.0 order.now.stamps) }
        requires follows { Follows order.now.stamps self.old }
        requires values { AreTold (W.tells written.now) (cell_of self.old place).writes }
        ensures value { result ≡ value_before order.now.stamps stamp.0 (cell_of self.old place) }
        ensures looked { self.new.looked ≡ min (self.old.looked + 1) (2 ^ 64 - 1) }
        ensures no_fewer { self.old.looked ≤ self.new.looked }
        ensures differed { self.new.differed ≡ self.old.differed }
        ensures cells { self.new.cells ≡ self.old.cells }
        ensures marked { self.new.marked ≡ self.old.marked }
        ensures follows { Follows order.now.stamps self.new }
    {
        let slot = self.slot(place);
        self.value_in(order, written, slot, place, stamp)
    }

    /// The same, of a place whose slot is known.
    #[inline(always)]
    pub fn value_in<W: Written>(
        &mut self,
        order: &Order,
        written: &W,
        slot: u32,
        place: Place,
        stamp: Stamp,
    ) -> Word
        requires slot { slot ≡ cell_slot self.old place }
        requires here { IsTrue (is_in stamp.0 order.now.stamps) }
        requires follows { Follows order.now.stamps self.old }
        requires values { AreTold (W.tells written.now) (cell_of self.old place).writes }
        ensures value { result ≡ value_before order.now.stamps stamp.0 (cell_of self.old place) }
        ensures looked { self.new.looked ≡ min (self.old.looked + 1) (2 ^ 64 - 1) }
        ensures no_fewer { self.old.looked ≤ self.new.looked }
        ensures differed { self.new.differed ≡ self.old.differed }
        ensures cells { self.new.cells ≡ self.old.cells }
        ensures marked { self.new.marked ≡ self.old.marked }
        ensures follows { Follows order.now.stamps self.new }
    {
        self.looked = self.looked.saturating_add(1);
        match found_in(&self.cells, slot, place) {
            None => Word::Num(0),
            Some(cell) => cell.writes.before(order, written, stamp, cell.base),
        }
    }

    /// How often a value was looked up, at most 2^64 - 1.
    pub fn looked(&self) -> u64
        ensures { result ≡ self.now.looked }
    {
        self.looked
    }

    /// Counts that a value which was looked up differed from what had been recorded of it.
    pub fn count_differed(&mut self)
        ensures differed { self.new.differed ≡ min (self.old.differed + 1) (2 ^ 64 - 1) }
        ensures no_fewer { self.old.differed ≤ self.new.differed }
        ensures looked { self.new.looked ≡ self.old.looked }
        ensures cells { self.new.cells ≡ self.old.cells }
        ensures marked { self.new.marked ≡ self.old.marked }
    {
        self.differed = self.differed.saturating_add(1);
    }

    /// How often a value that was looked up differed from what had been recorded of it, at most 2^64 - 1.
    pub fn differed(&self) -> u64
        ensures { result ≡ self.now.differed }
    {
        self.differed
    }

    /// What a place holds at the end.
    #[inline(always)]
    pub fn last_value<W: Written>(&self, written: &W, place: Place) -> Word
        requires values { AreTold (W.tells written.now) (cell_of self.now place).writes }
        ensures { result ≡ latest_value (cell_of self.now place) }
    {
        let slot = self.slot(place);
        self.last_in(written, slot, place)
    }

    /// The same, of a place whose slot is known.
    #[inline(always)]
    pub fn last_in<W: Written>(&self, written: &W, slot: u32, place: Place) -> Word
        requires slot { slot ≡ cell_slot self.now place }
        requires values { AreTold (W.tells written.now) (cell_of self.now place).writes }
        ensures { result ≡ latest_value (cell_of self.now place) }
    {
        match found_in(&self.cells, slot, place) {
            None => Word::Num(0),
            Some(cell) => cell.end(written),
        }
    }

    /// From now on `changed` compares what places hold at the end with what they hold now. The first time it goes
    /// through all cells, and takes room for them; later it goes through those that were made, or may have changed,
    /// since.
    pub fn mark<W: Written>(&mut self, written: &W) -> Result<(), NoMemory>
        requires values { AllTold (W.tells written.now) self.old }
        ensures marked { OnOk result (IsSome self.new.marked) }
        ensures held { OnOk result ((p : PlaceOf)
            → held_at_mark self.new p ≡ latest_value (cell_of self.new p)) }
        ensures cells { self.new.cells ≡ self.old.cells }
        ensures looked { self.new.looked ≡ self.old.looked }
        ensures differed { self.new.differed ≡ self.old.differed }
        ensures err { OnErr result (self.new ≡ self.old) }
    {
        match &mut self.marks {
            Some(marks) => marks.renew(written, &self.cells),
            None => {
                self.marks = Some(first_marks(written, self.alloc, &self.cells)?);
                Ok(())
            }
        }
    }

    /// Whether `changed` may be called: `mark` was.
    pub fn is_marked(&self) -> bool
        ensures { result ≡ is_some self.now.marked }
    {
        self.marks.is_some()
    }

    /// The places that hold something else at the end than when `mark` was called last; one that had not been touched
    /// by then held 0. It goes through the cells that were made, or may have changed, since.
    pub fn changed<W: Written>(&self, written: &W) -> Result<Vec<Place>, NoMemory>
        requires values { AllTold (W.tells written.now) self.now }
        requires marked { IsSome self.now.marked }
        ensures told { IfOk result (λ places. (p : PlaceOf)
            → latest_value (cell_of self.now p) ≢ held_at_mark self.now p
            → times p places.items ≡ 1) }
        ensures only { IfOk result (λ places. (p : PlaceOf)
            → latest_value (cell_of self.now p) ≡ held_at_mark self.now p
            → times p places.items ≡ 0) }
    {
        match &self.marks {
            None => unreachable!(),
            Some(marks) => marks.changed(written, self.alloc, &self.cells),
        }
    }

    /// The earliest read of a place after a stamp that no write of the place parts from it.
    pub fn affected(&self, order: &Order, place: Place, after: Stamp) -> Option<Stamp>
        requires here { IsTrue (is_in after.0 order.now.stamps) }
        requires follows { Follows order.now.stamps self.now }
        ensures some { IfSome result
            (λ read. IsAffected order.now.stamps (cell_of self.now place) after.0 read.0) }
        ensures here { IfSome result (λ read. IsTrue (is_in read.0 order.now.stamps)) }
        ensures none { IfNone result
            ((read : ℕ) → ¬ Sees order.now.stamps (cell_of self.now place) after.0 read) }
    {
        let slot = self.slot(place);
        self.affected_in(order, slot, place, after)
    }

    /// The same, of a place whose slot is known.
    #[inline]
    pub fn affected_in(&self, order: &Order, slot: u32, place: Place, after: Stamp) -> Option<Stamp>
        requires slot { slot ≡ cell_slot self.now place }
        requires here { IsTrue (is_in after.0 order.now.stamps) }
        requires follows { Follows order.now.stamps self.now }
        ensures some { IfSome result
            (λ read. IsAffected order.now.stamps (cell_of self.now place) after.0 read.0) }
        ensures here { IfSome result (λ read. IsTrue (is_in read.0 order.now.stamps)) }
        ensures none { IfNone result
            ((read : ℕ) → ¬ Sees order.now.stamps (cell_of self.now place) after.0 read) }
    {
        match found_in(&self.cells, slot, place) {
            None => None,
            Some(cell) => cell.affected(order, after),
        }
    }
}

// What the places of these cells hold at the end.
fn first_marks<W: Written>(
    written: &W,
    alloc: Global,
    cells: &[(Place, Cell)],
) -> Result<Marks, NoMemory>
    requires { CellsTold (W.tells written.now) cells.now }
    ensures { IfOk result (λ marks. marks ≡ record { ends = ends_of cells.now; slots = [] }) }
{
    let mut marks = Marks::new(alloc);
    match marks.renew(written, cells) {
        Ok(()) => Ok(marks),
        Err(error) => {
            drop(marks);
            Err(error)
        }
    }
}

// The cell of a place, which is at this slot.
#[inline(always)]
fn found_in<'a>(cells: &'a [(Place, Cell)], slot: u32, place: Place) -> Option<&'a Cell>
    requires few { length cells.now ≤ no_slot }
    requires slot { slot ≡ where_from 0 place cells.now }
    ensures some { IfSome result (λ c. lookup (ghosts.eq place) cells.now ≡ Some c.now) }
    ensures none { IfNone result (lookup (ghosts.eq place) cells.now ≡ None) }
{
    if slot == NO_SLOT {
        return None;
    }
    Some(cell_at(cells, slot))
}

// Gives a place that has no cell this one.
fn enter(
    cells: &mut Vec<(Place, Cell)>,
    index: &mut Index,
    place: Place,
    cell: Cell,
) -> Result<(), NoMemory>
    requires indexed { Indexes index.old cells.old.items }
    requires absent { where_from 0 place cells.old.items ≡ no_slot }
    ensures ok { OnOk result (cells.new.items ≡ cells.old.items ++ (place, cell) ∷ []) }
    ensures err { OnErr result (cells.new.items ≡ cells.old.items) }
    ensures indexed { Indexes index.new cells.new.items }
{
    match make_slot(cells, index, place) {
        Ok(()) => {
            cells.push_reserved((place, cell));
            Ok(())
        }
        Err(error) => {
            drop(cell);
            Err(error)
        }
    }
}

// Gives a place that has no cell one with this base. Most cells begin so; it is made when it has its slot, so that it
// is moved once.
#[inline(always)]
fn enter_base(
    cells: &mut Vec<(Place, Cell)>,
    index: &mut Index,
    place: Place,
    value: Word,
) -> Result<(), NoMemory>
    requires indexed { Indexes index.old cells.old.items }
    requires absent { where_from 0 place cells.old.items ≡ no_slot }
    ensures ok { OnOk result (cells.new.items
        ≡ cells.old.items ++ (place, with_base value untouched) ∷ []) }
    ensures err { OnErr result (cells.new.items ≡ cells.old.items) }
    ensures indexed { Indexes index.new cells.new.items }
{
    make_slot(cells, index, place)?;
    let cell = Cell::new(*cells.allocator(), value);
    cells.push_reserved((place, cell));
    Ok(())
}

// Makes room for one more cell, to which the index then leads from a place that has none.
#[inline(always)]
fn make_slot(
    cells: &mut Vec<(Place, Cell)>,
    index: &mut Index,
    place: Place,
) -> Result<(), NoMemory>
    requires absent { slot_of index.old place ≡ no_slot }
    ensures same { cells.new.items ≡ cells.old.items }
    ensures room { OnOk result (vec_len cells.new < vec_capacity cells.new) }
    ensures few { OnOk result (length cells.old.items < no_slot) }
    ensures here { OnOk result (slot_of index.new place ≡ length cells.old.items) }
    ensures others { (p : PlaceOf) → p ≢ place → slot_of index.new p ≡ slot_of index.old p }
    ensures err { OnErr result ((p : PlaceOf) → slot_of index.new p ≡ slot_of index.old p) }
{
    let slot = cells.len();
    if slot >= NO_SLOT as usize {
        return Err(NoMemory);
    }
    make_room(cells, 1)?;
    index.put(place, slot as u32)?;
    Ok(())
}
