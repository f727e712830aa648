// The values of writes, which take no space.

ghost use Rattle.std.specs.Prelude.{◌≡◌, List, [], insert, remove};
ghost use Rattle.ceal_base.specs.declared.word.Word.{Word as WordOf};
ghost use base.Fml.{ftrue};

use ceal_base::word::Word;
use std::marker::Model;

/// The values of the writes of a place, in the order of their stamps. They take no space: only the proofs know them,
/// and a trace has them for the program.
#[derive(Drop)]
pub struct Values {
    pub ghost list: { List WordOf },
}

impl Model for Values {
    ghost also_owns = { λ _. ftrue };
}

impl Values {
    pub fn new() -> Values
        ensures { result.list ≡ [] }
    {
        Values {}
    }

    #[inline(always)]
    pub fn insert(&mut self, _at: usize, _value: &Word)
        ensures { self.new.list ≡ insert self.old.list _at _value.now }
    {}

    #[inline(always)]
    pub fn remove(&mut self, _at: usize)
        ensures { self.new.list ≡ remove self.old.list _at }
    {}
}
