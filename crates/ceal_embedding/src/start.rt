// How an example begins: its program runs once on two modifiables.

ghost use Rattle.std.specs.Prelude.{◌≡◌, ◌<◌, ◌^◌, ◌∷◌, [], length, IfOk, OnOk};
ghost use Rattle.ceal_embedding.specs.Engines.{HasCodeOf, KeepsProgram, call_of, one_word};
ghost use Rattle.ceal_engine.specs.Engine.{IsPresent};
ghost use Rattle.ceal_engine.specs.declared.phase.Phase.TheVariants.{Finished};

use crate::calls::{add, call, input};
use crate::trouble::Trouble;
use ceal_base::kind::Shape;
use ceal_base::word::Word;
use ceal_compile::compile::compile;
use ceal_engine::engine::Engine;
use std::alloc::Global;

/// What an example runs: a function of a program, by its number, on two modifiables, which hold these words at first.
#[derive(Clone, Copy)]
pub struct Example<'a> {
    pub source: &'a [u8],
    pub function: u32,
    pub first: (Shape, Word),
    pub second: (Shape, Word),
}

/// An engine with the two modifiables as its inputs, and a finished run. A run may take a thousand steps.
pub fn start(alloc: Global, example: Example) -> Result<Engine, Trouble>
    requires small { length example.source.now < 2 ^ 32 }
    ensures present { IfOk result IsPresent }
    ensures finished { IfOk result (λ engine. engine.phase ≡ Finished) }
    ensures program { IfOk result (HasCodeOf example.entry.source.now) }
    ensures fuel { IfOk result (λ engine. engine.fuel ≡ 1000) }
    ensures inputs { IfOk result (λ engine. engine.inputs
        ≡ one_word example.entry.first ∷ one_word example.entry.second ∷ []) }
    ensures called { IfOk result (λ engine. engine.call ≡ call_of example.entry.function) }
{
    let program = compile(alloc, example.source)?;
    let mut engine = Engine::new(alloc, program.code, 1_000)?;
    match run_once(&mut engine, example) {
        Ok(()) => Ok(engine),
        Err(trouble) => {
            drop(engine);
            Err(trouble)
        }
    }
}

/// Makes the inputs, and runs the program on them.
fn run_once(engine: &mut Engine, example: Example) -> Result<(), Trouble>
    requires none { engine.old.inputs ≡ [] }
    ensures kept { KeepsProgram engine.old engine.new }
    ensures inputs { OnOk result (engine.new.inputs
        ≡ one_word example.entry.first ∷ one_word example.entry.second ∷ []) }
    ensures called { OnOk result (engine.new.call ≡ call_of example.entry.function) }
    ensures present { OnOk result (IsPresent engine.new) }
    ensures finished { OnOk result (engine.new.phase ≡ Finished) }
{
    let (shape, word) = example.first;
    add(engine, shape, &[word])?;
    let (shape, word) = example.second;
    add(engine, shape, &[word])?;
    let arguments = [Word::At(input(0)), Word::At(input(1))];
    call(engine, example.function, &arguments)
}
