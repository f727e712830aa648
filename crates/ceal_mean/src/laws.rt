// The laws of a run from nothing.

ghost use Rattle.std.specs.Prelude.{◌≡◌, ◌≤◌, ◌↔◌, ℕ, List, Some};
ghost use Rattle.ceal_base.specs.Block.{Block};
ghost use Rattle.ceal_base.specs.declared.typed.Typed.{Typed};
ghost use Rattle.ceal_base.specs.declared.word.Word.{Word};
ghost use Rattle.ceal_base.specs.Finished.{Finished};
ghost use Rattle.ceal_mean.specs.Fresh.{fresh};

/// A law: more fuel changes no finished run.
pub fn more_fuel()
    ensures law { (p : Typed) (f : ℕ) (args : List Word) (inputs : List Block) (fuel more : ℕ)
        (r : Finished) → fresh p f args inputs fuel ≡ Some r → fuel ≤ more
        → fresh p f args inputs more ≡ Some r }
{}

/// A law: a run that is finished after n steps is finished, and then is the same, exactly for the fuels from n on.
pub fn enough_fuel()
    ensures law { (p : Typed) (f : ℕ) (args : List Word) (inputs : List Block) (fuel n : ℕ)
        (r : Finished) → fresh p f args inputs fuel ≡ Some r
        → fresh p f args inputs n ≡ Some r ↔ r.steps ≤ n }
{}
