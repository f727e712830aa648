// The values of names.

ghost use Rattle.std.specs.Prelude.{◌≡◌, ◌<◌, ◌^◌, ◌++◌, Some, ◌∷◌, [], length, take, slice_get, OnOk, OnErr, false};
ghost use Rattle.std.specs.Prelude.{position, option_to_list, IfNone, IfSome};
ghost use Rattle.std.specs.Map.{keys_of, lookup};
ghost use Rattle.std.specs.Option.{option_map};
ghost use Rattle.std.specs.Str.{bytes_eq};
ghost use Rattle.ceal_types.specs.Tables.{has, find, value_at};

use crate::seed::Seed;
use ceal_base::no_memory::NoMemory;
use ceal_base::text::Text;
use indexmap::IndexMap;
use std::alloc::Global;
use std::marker::Model;

/// How many names are looked through one by one. Most functions and structs have no more, and nothing is hashed there.
pub const FEW: usize = 8;

/// Values by their names, in the order in which they were added. A name's number is its place, from 0. The first few
/// are in a list, and those after them in a map by their hashes.
#[derive(Drop)]
pub struct Table<V> {
    few: Vec<(Text, V)>,
    map: IndexMap<Text, V, Seed>,
}

impl<V> Model for Table<V> {
    ghost use Rattle.std.specs.Prelude.{List, ℕ, length, ◌++◌, ◌<◌, ◌^◌};
    ghost use Rattle.std.specs.Coded.{coded_list, coded×, coded_ℕ};

    ghost Value = { List (List ℕ × V) };

    ghost coded = { coded_list (coded× (coded_list coded_ℕ) V.code) };

    ghost view = { λ t. t.few.items ++ t.map.entries };

    ghost invariant = { λ t. length (t.few.items ++ t.map.entries) < 2 ^ 32 };
}

/// The place of a name among the first few.
fn place<V>(few: &[(Text, V)], name: &Text) -> Option<usize>
    ensures { result ≡ position (λ entry. bytes_eq name.now entry.0) few.now }
{
    few.iter().position(|entry| name.items() == entry.0.items())
}

impl<V> Table<V> {
    /// No names, under this seed.
    pub fn new(alloc: Global, seed: Seed) -> Table<V>
        ensures empty { result ≡ [] }
    {
        Table {
            few: Vec::new(alloc),
            map: IndexMap::with_hasher(alloc, seed),
        }
    }

    /// How many names there are.
    pub fn len(&self) -> usize
        ensures count { result ≡ length self.now }
    {
        self.few.len() + self.map.len()
    }

    /// The name's place.
    fn index(&self, name: &Text) -> Option<usize>
        ensures number { result ≡ position (bytes_eq name.now) (keys_of self.now) }
        ensures within { IfSome result (λ i. i < length self.now) }
        ensures fits { IfSome result (λ i. i < 2 ^ 32) }
    {
        match place(self.few.as_slice(), name) {
            Some(at) => Some(at),
            None => match self.map.get_index_of(name) {
                Some(at) => Some(self.few.len() + at),
                None => None,
            },
        }
    }

    /// The name's number.
    pub fn number(&self, name: &Text) -> Option<u32>
        ensures number { result ≡ position (bytes_eq name.now) (keys_of self.now) }
    {
        let number = self.index(name)?;
        Some(number as u32)
    }

    /// Whether a name is there.
    pub fn has(&self, name: &Text) -> bool
        ensures there { result ≡ has self.now name.now }
    {
        self.index(name).is_some()
    }

    /// The name's number, and its value.
    #[tactic(auto, unfolding(crate::specs::Tables::find))]
    pub fn find(&self, name: &Text) -> Option<(u32, &V)>
        ensures found { option_map (λ p. (p.0, p.1.now)) result ≡ find self.now name.now }
    {
        match self.index(name) {
            Some(number) => Some((number as u32, self.entry(number).1)),
            None => None,
        }
    }

    /// The value of the name.
    pub fn get(&self, name: &Text) -> Option<&V>
        ensures value { option_map (λ v. v.now) result ≡ lookup (bytes_eq name.now) self.now }
    {
        match self.index(name) {
            Some(number) => Some(self.entry(number).1),
            None => None,
        }
    }

    /// The name of this number, and its value.
    pub fn entry(&self, number: usize) -> (&Text, &V)
        requires { number < length self.now }
        ensures entry { slice_get self.now number ≡ Some (result.0.now, result.1.now) }
    {
        match self.few.get(number) {
            Some(entry) => (&entry.0, &entry.1),
            None => self.map.get_index(number - self.few.len()).unwrap(),
        }
    }

    /// The value at a number.
    pub fn at(&self, number: u32) -> Option<&V>
        ensures value { option_map (λ v. v.now) result ≡ value_at self.now number }
    {
        let number = number as usize;
        if number < self.len() {
            Some(self.entry(number).1)
        } else {
            None
        }
    }
}

impl<V: Drop> Table<V> {
    /// Puts a value under a new name.
    pub fn add(&mut self, name: Text, value: V) -> Result<(), NoMemory>
        requires { has self.old name ≡ false }
        ensures ok { OnOk result (self.new ≡ self.old ++ (name, value) ∷ []) }
        ensures err { OnErr result (self.new ≡ self.old) }
    {
        if self.len() >= 4294967295 {
            return Err(NoMemory);
        }
        if self.few.len() < FEW && self.map.is_empty() {
            self.few.push((name, value))?;
        } else {
            self.map.insert(name, value)?;
        }
        Ok(())
    }

    /// Takes the last name off, with its value.
    pub fn pop(&mut self) -> Option<(Text, V)>
        ensures taken { self.old ≡ self.new ++ option_to_list result }
        ensures none { IfNone result (self.old ≡ []) }
    {
        match self.map.pop() {
            Some(entry) => Some(entry),
            None => self.few.pop(),
        }
    }

    /// Leaves the first `len` names.
    pub fn truncate(&mut self, len: usize)
        ensures kept { self.new ≡ take len self.old }
    {
        self.map.truncate(len.saturating_sub(self.few.len()));
        self.few.truncate(len);
    }
}
