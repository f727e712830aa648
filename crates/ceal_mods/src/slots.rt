// Slots by two numbers: rows of slots.

ghost use Rattle.std.specs.Prelude.{◌≡◌, ◌≢◌, ◌<◌, ◌≤◌, ℕ, [], length, OnOk, OnErr};
ghost use Rattle.ceal_mods.specs.Slots.{no_slot, slot_at, slot_in, SameSlots};

use ceal_base::no_memory::NoMemory;
use std::alloc::Global;
use std::marker::Model;

/// Stands for no slot.
pub const NO_SLOT: u32 = u32::MAX;

/// A row of slots by number. After its end there are none.
#[derive(Drop)]
pub struct Row {
    slots: Vec<u32>,
}

impl Model for Row {
    ghost use Rattle.std.specs.Prelude.{List, ℕ};

    ghost Value = { List ℕ };

    ghost view = { λ r. r.slots.items };
}

impl Row {
    /// A row in which nothing was set.
    pub fn new(alloc: Global) -> Row
        ensures { result ≡ [] }
    {
        Row {
            slots: Vec::new(alloc),
        }
    }

    /// The number that was set there, or none.
    pub fn get(&self, at: u32) -> u32
        ensures { result ≡ slot_at self.now at }
    {
        match self.slots.get(at as usize) {
            None => NO_SLOT,
            Some(slot) => *slot,
        }
    }

    /// Sets a slot; the row grows up to it. Numbers mostly come one after another, so the next one is put at the end.
    #[inline(always)]
    pub fn set(&mut self, at: u32, slot: u32) -> Result<(), NoMemory>
        ensures here { OnOk result (slot_at self.new at ≡ slot) }
        ensures others { (n : ℕ) → n ≢ at → slot_at self.new n ≡ slot_at self.old n }
        ensures err { OnErr result (self.new ≡ self.old) }
    {
        let len = self.slots.len();
        if at as usize == len {
            self.slots.push(slot)?;
            return Ok(());
        }
        if len < at as usize {
            self.slots.resize(at as usize + 1, NO_SLOT)?;
        }
        self.slots[at as usize] = slot;
        Ok(())
    }
}

/// Rows of slots by number. After the last one there are no slots.
#[derive(Drop)]
pub struct Sheet {
    rows: Vec<Row>,
}

impl Model for Sheet {
    ghost use Rattle.std.specs.Prelude.{List, ℕ};

    ghost Value = { List (List ℕ) };

    ghost view = { λ s. s.rows.items };
}

impl Sheet {
    /// A sheet without rows.
    pub fn new(alloc: Global) -> Sheet
        ensures { result ≡ [] }
    {
        Sheet {
            rows: Vec::new(alloc),
        }
    }

    /// The number that was set there, or none.
    pub fn get(&self, row: u32, at: u32) -> u32
        ensures { result ≡ slot_in self.now row at }
    {
        match self.rows.get(row as usize) {
            None => NO_SLOT,
            Some(row) => row.get(at),
        }
    }

    /// Sets a slot; the sheet grows up to its row.
    #[inline]
    pub fn set(&mut self, row: u32, at: u32, slot: u32) -> Result<(), NoMemory>
        ensures here { OnOk result (slot_in self.new row at ≡ slot) }
        ensures others { (m n : ℕ) → (m ≡ row → n ≡ at → ⊥)
            → slot_in self.new m n ≡ slot_in self.old m n }
        ensures err { OnErr result (SameSlots self.old self.new) }
    {
        make_rows(&mut self.rows, row as usize + 1)?;
        set_in(&mut self.rows, row, at, slot)
    }
}

// Sees to it that there are at least `count` rows.
#[inline(always)]
fn make_rows(rows: &mut Vec<Row>, count: usize) -> Result<(), NoMemory>
    ensures same { SameSlots rows.old.items rows.new.items }
    ensures enough { OnOk result (count ≤ length rows.new.items) }
{
    if count <= rows.len() {
        return Ok(());
    }
    lengthen(rows, count)
}

// Adds empty rows until there are `count`, which is seldom needed.
#[inline(never)]
fn lengthen(rows: &mut Vec<Row>, count: usize) -> Result<(), NoMemory>
    ensures same { SameSlots rows.old.items rows.new.items }
    ensures enough { OnOk result (count ≤ length rows.new.items) }
{
    let alloc = *rows.allocator();
    let more = count.saturating_sub(rows.len());
    for added in 0..more {
        rows.push(Row::new(alloc))?;
    }
    Ok(())
}

// Sets a slot of a row that is there.
#[inline]
fn set_in(rows: &mut [Row], row: u32, at: u32, slot: u32) -> Result<(), NoMemory>
    requires { row < length rows.old }
    ensures here { OnOk result (slot_in rows.new row at ≡ slot) }
    ensures others { (m n : ℕ) → (m ≡ row → n ≡ at → ⊥)
        → slot_in rows.new m n ≡ slot_in rows.old m n }
    ensures err { OnErr result (rows.new ≡ rows.old) }
{
    let here = &mut rows[row as usize];
    here.set(at, slot)
}
