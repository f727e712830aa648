// Where the cell of a place is.

ghost use Rattle.std.specs.Prelude.{◌≡◌, ◌≢◌, OnOk, OnErr};
ghost use Rattle.ceal_base.specs.declared.word.Place.{Place as PlaceOf};
ghost use Rattle.ceal_mods.specs.Slots.{no_slot};
ghost use Rattle.ceal_mods.specs.Index.{near_of, far_of, slot_of};

use crate::slots::{NO_SLOT, Sheet};
use ceal_base::no_memory::NoMemory;
use ceal_base::word::{BlockId, Place};
use std::alloc::Global;
use std::collections::HashMap;

// Fields below this number are found by it.
const NEAR_FIELDS: u32 = 256;

// Blocks below this number, and below twice the number of slots more, are found by it.
const NEAR_BLOCKS: u32 = 4096;

/// A slot for each place. Blocks are numbered from 0, and fields too, so a place is found by its two numbers, as long
/// as these are not much above the number of slots; a place of a larger number is found by hashing. A sheet has a row
/// for each field: few fields are modifiables, and the numbers of blocks are dense.
#[derive(Drop)]
pub struct Index {
    inputs: Sheet,
    cores: Sheet,
    far: HashMap<Place, u32>,
}

impl Index {
    /// No place has a cell.
    pub fn new(alloc: Global) -> Index
        ensures { (p : PlaceOf) → slot_of result p ≡ no_slot }
    {
        Index {
            inputs: Sheet::new(alloc),
            cores: Sheet::new(alloc),
            far: HashMap::new(alloc),
        }
    }

    /// The slot of a place.
    #[inline(always)]
    pub fn find(&self, place: Place) -> u32
        ensures { result ≡ slot_of self.now place }
    {
        let near = self.near(place);
        if near != NO_SLOT || self.far.is_empty() {
            return near;
        }
        self.far(place)
    }

    // The slot of a place that is found by hashing. It is a separate function, so that the others are found without it
    // at little cost.
    #[inline(never)]
    fn far(&self, place: Place) -> u32
        ensures { result ≡ far_of self.now place }
    {
        match self.far.get(&place) {
            None => NO_SLOT,
            Some(slot) => *slot,
        }
    }

    fn near(&self, place: Place) -> u32
        ensures { result ≡ near_of self.now place }
    {
        match place.block {
            BlockId::Input(number) => self.inputs.get(place.field, number),
            BlockId::Core(number) => self.cores.get(place.field, number),
        }
    }

    /// Gives a place that has none a slot.
    #[inline(always)]
    pub fn put(&mut self, place: Place, slot: u32) -> Result<(), NoMemory>
        requires absent { slot_of self.old place ≡ no_slot }
        requires slot { slot ≢ no_slot }
        ensures here { OnOk result (slot_of self.new place ≡ slot) }
        ensures others { (p : PlaceOf) → p ≢ place → slot_of self.new p ≡ slot_of self.old p }
        ensures err { OnErr result ((p : PlaceOf) → slot_of self.new p ≡ slot_of self.old p) }
    {
        let most = slot.saturating_mul(2).saturating_add(NEAR_BLOCKS);
        match place.block {
            BlockId::Input(number) => {
                if place.field < NEAR_FIELDS && number < most {
                    return self.inputs.set(place.field, number, slot);
                }
            }
            BlockId::Core(number) => {
                if place.field < NEAR_FIELDS && number < most {
                    return self.cores.set(place.field, number, slot);
                }
            }
        }
        self.far.insert(place, slot)?;
        Ok(())
    }
}
