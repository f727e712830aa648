// At what length each piece is taken.

ghost use Rattle.std.specs.Prelude.{◌≡◌, ◌<◌, ℕ, List, [], ◌∷◌, ◌++◌, length, slice_set};
ghost use base.Fml.{ftrue};

use std::marker::Model;

/// The marks of the pieces of a chunk. They take no space: only the proofs know them.
#[derive(Drop)]
pub(crate) struct Marks {
    pub(crate) ghost lens: { List ℕ },
}

impl Model for Marks {
    ghost also_owns = { λ _. ftrue };
}

impl Marks {
    pub(crate) fn new() -> Marks
        ensures { result.lens ≡ [] }
    {
        Marks {}
    }

    pub(crate) fn add(&mut self)
        ensures { self.new.lens ≡ self.old.lens ++ 0 ∷ [] }
    {}

    pub(crate) fn mark(&mut self, _at: u32, _len: u32)
        requires { _at < length self.old.lens }
        ensures { self.new.lens ≡ slice_set self.old.lens _at _len }
    {}
}
