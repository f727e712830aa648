// An engine whose program makes a list: the numbers from the first one down to 1.

ghost use Rattle.std.specs.Prelude.{◌≡◌, ◌∷◌, [], pos, IfOk};
ghost use Rattle.ceal_base.specs.declared.word.BlockId.TheVariants.{Input};
ghost use Rattle.ceal_embedding.specs.Engines.{call_of, one_word};
ghost use Rattle.ceal_engine.specs.Engine.{IsPresent};
ghost use Rattle.ceal_engine.specs.declared.phase.Phase.TheVariants.{Finished};

use crate::calls::input;
use crate::start::{Example, start};
use crate::trouble::Trouble;
use ceal_base::kind::Shape;
use ceal_base::word::{Place, Word};
use ceal_engine::engine::Engine;
use std::alloc::Global;

const SOURCE: &[u8] = b"
struct cell { int number; mod struct cell tail; };

init make(struct cell *self, int number) { self->number = number; }

ceal down(int number, mod struct cell *list) {
  if (number < 1) { write(list, null); return; }
  struct cell *c = alloc cell make(number);
  write(list, c);
  down(number - 1, &c->tail);
}

ceal countdown(mod int *first, mod struct cell *list) {
  int number = read(first);
  down(number, list);
}
%%
";

/// The first number, which is the first input, and the list, which is the second one.
pub fn first() -> Place
    ensures place { result ≡ record { block = Input 0; field = 0 } }
{
    input(0)
}

/// The place that holds the list.
pub fn list() -> Place
    ensures place { result ≡ record { block = Input 1; field = 0 } }
{
    input(1)
}

/// An engine with two inputs and a finished run of function 2, which is `countdown`, from 4 down. A run may take a
/// thousand steps.
pub fn open(alloc: Global) -> Result<Engine, Trouble>
    ensures present { IfOk result IsPresent }
    ensures finished { IfOk result (λ engine. engine.phase ≡ Finished) }
    ensures fuel { IfOk result (λ engine. engine.fuel ≡ 1000) }
    ensures inputs { IfOk result (λ engine. engine.inputs
        ≡ one_word (Shape.ModInt, Word.Num (pos 4)) ∷ one_word (Shape.ModPtr 0, Word.Null) ∷ []) }
    ensures called { IfOk result (λ engine. engine.call ≡ call_of 2) }
{
    let example = Example {
        source: SOURCE,
        function: 2,
        first: (Shape::ModInt, Word::Num(4)),
        second: (Shape::ModPtr(0), Word::Null),
    };
    start(alloc, example)
}
