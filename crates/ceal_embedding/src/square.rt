// An engine that a program drives by calls: the square of a number, kept up to date.

ghost use Rattle.std.specs.Prelude.{◌≡◌, ◌∷◌, [], pos, IfOk};
ghost use Rattle.ceal_base.specs.declared.word.BlockId.TheVariants.{Input};
ghost use Rattle.ceal_embedding.specs.Engines.{call_of, one_word};
ghost use Rattle.ceal_engine.specs.Engine.{IsPresent};
ghost use Rattle.ceal_engine.specs.declared.phase.Phase.TheVariants.{Finished};

use crate::calls::input;
use crate::start::{Example, start};
use crate::trouble::Trouble;
use ceal_base::kind::Shape;
use ceal_base::word::{Place, Word};
use ceal_engine::engine::Engine;
use std::alloc::Global;

const SOURCE: &[u8] = b"
ceal square(mod int *side, mod int *area) {
  int n = read(side);
  write(area, n * n);
}
%%
";

/// The side, which is the first input, and the area, which is the second one.
pub fn side() -> Place
    ensures place { result ≡ record { block = Input 0; field = 0 } }
{
    input(0)
}

/// The place that holds the area.
pub fn area() -> Place
    ensures place { result ≡ record { block = Input 1; field = 0 } }
{
    input(1)
}

/// An engine with two inputs and a finished run of function 0, which is `square`. A run may take a thousand steps.
pub fn open(alloc: Global) -> Result<Engine, Trouble>
    ensures present { IfOk result IsPresent }
    ensures finished { IfOk result (λ engine. engine.phase ≡ Finished) }
    ensures fuel { IfOk result (λ engine. engine.fuel ≡ 1000) }
    ensures inputs { IfOk result (λ engine. engine.inputs
        ≡ one_word (Shape.ModInt, Word.Num (pos 3))
        ∷ one_word (Shape.ModInt, Word.Num (pos 0)) ∷ []) }
    ensures called { IfOk result (λ engine. engine.call ≡ call_of 0) }
{
    let example = Example {
        source: SOURCE,
        function: 0,
        first: (Shape::ModInt, Word::Num(3)),
        second: (Shape::ModInt, Word::Num(0)),
    };
    start(alloc, example)
}
