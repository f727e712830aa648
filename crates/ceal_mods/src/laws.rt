// The laws of the modifiables.

ghost use Rattle.std.specs.Prelude.{◌≡◌, ◌==◌, ◌∷◌, ℕ, List, Some, None, is_some, false, if◌then◌else◌};
ghost use Rattle.ceal_base.specs.declared.word.Word.{Word};
ghost use Rattle.ceal_order.specs.Stamps.{is_in, OneMore};
ghost use Rattle.ceal_order.specs.Rising.{IsRising};
ghost use Rattle.ceal_mods.specs.Writes.{Write, stamps_of, written_at};
ghost use Rattle.ceal_mods.specs.Cell.{with_write, without_write, with_read, without_read, Rises};
ghost use Rattle.ceal_mods.specs.Mods.{Contents, Follows, KeepsStamps, IsFree, PlacesLaw};
ghost use Rattle.ceal_mods.specs.declared.cell.Cell.{Cell};

use ceal_order::laws::{rising_members, rising_still};

/// A law: modifiables follow each other order that has their stamps in the same order; so they do after an insertion
/// into the order, and after a deletion from it that takes none of their stamps.
pub fn follows_still()
    ensures law { (mods : Contents) (old new : List ℕ) → Follows old mods → KeepsStamps mods old new
        → Follows new mods }
    ensures inserted { (s : ℕ) (mods : Contents) (old new : List ℕ) → Follows old mods
        → OneMore s old new → Follows new mods }
    ensures deleted { (s : ℕ) (mods : Contents) (old new : List ℕ) → Follows old mods
        → OneMore s new old → IsFree s mods
        → Follows new mods }
{
    rising_still();
}

/// Laws: at which stamps a place has writes and reads, and which values the writes have, after one is put in or taken
/// out.
pub fn stamps_after()
    ensures write_in { (order : List ℕ) (s t : ℕ) (value : Word) (cell : Cell)
        → is_in t (stamps_of (with_write order s value cell).writes)
        ≡ is_in t (s ∷ stamps_of cell.writes) }
    ensures write_out { (order : List ℕ) (s t : ℕ) (cell : Cell) → Rises order cell
        → is_in t (stamps_of (without_write s cell).writes)
        ≡ (if s == t then false else is_in t (stamps_of cell.writes)) }
    ensures value_in { (order : List ℕ) (s t : ℕ) (value : Word) (cell : Cell)
        → is_in s (stamps_of cell.writes) ≡ false
        → written_at t (with_write order s value cell).writes
        ≡ (if s == t then Some value else written_at t cell.writes) }
    ensures value_out { (order : List ℕ) (s t : ℕ) (cell : Cell) → Rises order cell
        → written_at t (without_write s cell).writes
        ≡ (if s == t then None else written_at t cell.writes) }
    ensures read_in { (order : List ℕ) (s t : ℕ) (cell : Cell)
        → is_in t (with_read order s cell).reads ≡ is_in t (s ∷ cell.reads) }
    ensures read_out { (order : List ℕ) (s t : ℕ) (cell : Cell) → Rises order cell
        → is_in t (without_read s cell).reads ≡ (if s == t then false else is_in t cell.reads) }
{
    rising_members();
}

/// Laws: there is a value at each stamp of a write and at no other one, and writes whose stamps rise along one order
/// are equal where they have the same value at each stamp.
pub fn writes_go_by_values()
    ensures there { (s : ℕ) (writes : List Write)
        → is_some (written_at s writes) ≡ is_in s (stamps_of writes) }
    ensures same { (order : List ℕ) (xs ys : List Write) → IsRising order (stamps_of xs)
        → IsRising order (stamps_of ys)
        → ((s : ℕ) → written_at s xs ≡ written_at s ys) → xs ≡ ys }
{
    rising_members();
}

/// A law: the places that were touched are those that have cells.
pub fn places_have_cells()
    ensures law { PlacesLaw }
{}
