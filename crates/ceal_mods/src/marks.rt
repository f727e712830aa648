// What the places held at the end when they were marked, and where that may be otherwise since.

ghost use Rattle.std.specs.Prelude.{◌≡◌, [], length, IfOk, OnOk, OnErr};
ghost use Rattle.ceal_mods.specs.Marks.{CellsTold, Watches, noted, noted_in, ends_of, told, told_new};
ghost use Rattle.std.specs.Prelude.{◌++◌, drop};

use crate::cell::Cell;
use crate::ends::{add_ends, cells_from, renew_ends, tell_listed, tell_new};
use crate::written::Written;
use ceal_base::no_memory::NoMemory;
use ceal_base::word::{Place, Word};
use ceal_order::room::make_room;
use std::alloc::Global;
use std::marker::Model;

/// What the places held at the end when they were marked, by the slots of their cells. A slot is listed, once, as soon
/// as its cell may hold something else; there is room to list them all. Cells that came since are not listed: their
/// places held 0.
#[derive(Drop)]
pub struct Marks {
    ends: Vec<(Place, Word)>,
    listed: Vec<bool>,
    slots: Vec<u32>,
}

impl Model for Marks {
    ghost use Rattle.std.specs.Prelude.{vec_capacity};
    ghost use Rattle.ceal_mods.specs.Marks.{Marked, IsListed};

    ghost Value = { Marked };

    ghost view = { λ m. record { ends = m.ends.items; slots = m.slots.items } };

    ghost invariant = { λ m.
        IsListed m.ends.items m.listed.items m.slots.items (vec_capacity m.slots) };
}

impl Marks {
    /// No place is marked.
    pub fn new(alloc: Global) -> Marks
        ensures { result ≡ record { ends = []; slots = [] } }
    {
        Marks {
            ends: Vec::new(alloc),
            listed: Vec::new(alloc),
            slots: Vec::new(alloc),
        }
    }

    /// The cell at a slot may hold something else from now on. It takes no memory.
    pub fn note(&mut self, slot: u32)
        ensures { self.new ≡ noted_in slot self.old }
    {
        let at = slot as usize;
        if at >= self.listed.len() {
            return;
        }
        if self.listed[at] {
            return;
        }
        self.listed[at] = true;
        self.slots.push_reserved(slot);
    }

    /// Marks what the places of these cells hold at the end now. It goes through what is listed and the cells that came
    /// since.
    pub fn renew<W: Written>(
        &mut self,
        written: &W,
        cells: &[(Place, Cell)],
    ) -> Result<(), NoMemory>
        requires watched { Watches self.old cells.now }
        requires values { CellsTold (W.tells written.now) cells.now }
        ensures ok { OnOk result (self.new ≡ record { ends = ends_of cells.now; slots = [] }) }
        ensures err { OnErr result (self.new ≡ self.old) }
    {
        let marked = self.ends.len();
        let more = cells.len() - marked;
        make_room(&mut self.ends, more)?;
        make_room(&mut self.listed, more)?;
        let room = cells.len().saturating_sub(self.slots.len());
        make_room(&mut self.slots, room)?;
        renew_ends(
            written,
            &mut self.ends,
            &mut self.listed,
            &self.slots,
            cells,
        );
        self.slots.clear();
        add_ends(
            written,
            &mut self.ends,
            &mut self.listed,
            cells_from(cells, marked),
        );
        Ok(())
    }

    /// The places of these cells that hold something else at the end than when they were marked.
    pub fn changed<W: Written>(
        &self,
        written: &W,
        alloc: Global,
        cells: &[(Place, Cell)],
    ) -> Result<Vec<Place>, NoMemory>
        requires watched { Watches self.now cells.now }
        requires values { CellsTold (W.tells written.now) cells.now }
        ensures { IfOk result (λ places. places.items
            ≡ told self.now.ends cells.now self.now.slots
            ++ told_new (drop (length self.now.ends) cells.now)) }
    {
        let mut places = Vec::new(alloc);
        tell_listed(written, &mut places, &self.ends, &self.slots, cells)?;
        tell_new(written, &mut places, cells_from(cells, self.ends.len()))?;
        Ok(places)
    }
}

/// Where places are marked, the cell at a slot may hold something else from now on. It takes no memory.
pub fn note(marks: &mut Option<Marks>, slot: u32)
    ensures { marks.new ≡ noted slot marks.old }
{
    match marks {
        None => {}
        Some(marks) => marks.note(slot),
    }
}
