// What can be asked of an engine: its inputs, its run and its trace.

ghost use Rattle.std.specs.Prelude.{◌≡◌, ◌<◌, true, Some, None, IfOk, IsSome, MatchOption};
ghost use Rattle.std.specs.Option.{option_map, IsSomeAnd};
ghost use Rattle.ceal_base.specs.Access.{word_in};
ghost use Rattle.ceal_base.specs.Fitting.{kind_in};
ghost use Rattle.ceal_code.specs.Value.{is_cell};
ghost use Rattle.ceal_engine.specs.Engine.{block_in, stored_at, trace, is_plain, IsEngine, Shows};
ghost use Rattle.ceal_engine.specs.Partial.{IsUnderWay};
ghost use Rattle.ceal_engine.specs.declared.phase.Phase.TheVariants.{Finished, Partial};
ghost use Rattle.ceal_repair.specs.Lists.{IsTabled};
ghost use Rattle.ceal_repair.specs.Words.{HasBases};
ghost use Rattle.ceal_trace.specs.Nodes.{IsTrace};

use super::Engine;
use crate::items::flat_items;
use crate::phase::Phase;
use crate::reading::{content, plain_word, shape};
use ceal_base::forest::Forest;
use ceal_base::kind::Shape;
use ceal_base::memory::Inputs;
use ceal_base::no_memory::NoMemory;
use ceal_base::word::{BlockId, Place, Word};
use ceal_code::code::Code;
use ceal_mods::mods::Mods;
use ceal_trace::trace::Trace;

impl Engine {
    /// Its contract also tells what is true of every engine.
    pub fn phase(&self) -> Phase
        ensures value { result ≡ self.now.phase }
        ensures whole { IsEngine self.now }
        ensures partial { self.now.phase ≡ Partial → IsUnderWay self.now }
    {
        self.run.phase()
    }

    /// The content of a modifiable at the end of the run.
    pub fn value(&self, place: Place) -> Word
        requires finished { self.now.phase ≡ Finished }
        requires there { is_cell
            (kind_in self.now.code.structs (block_in self.now place.block) place.field) ≡ true }
        ensures value { result
            ≡ word_in (stored_at self.now.memory place.block) place.field Word.Null }
    {
        content(&self.run, &self.inputs, place)
    }

    /// The word of a plain field, by its index, of an input or of a core block of the run.
    pub fn field(&self, block: BlockId, index: u32) -> Word
        requires shows { Shows self.now block }
        requires there { is_plain (kind_in self.now.code.structs (block_in self.now block) index)
            ≡ true }
        ensures value { result ≡ word_in (block_in self.now block) index Word.Null }
    {
        plain_word(&self.run, &self.inputs, block, index)
    }

    /// The shape of an input or of a core block of the run.
    pub fn shape(&self, block: BlockId) -> Shape
        requires shows { Shows self.now block }
        requires there { IsSome (block_in self.now block) }
        ensures value { option_map (λ b. b.shape) (block_in self.now block) ≡ Some result }
    {
        match shape(&self.run, &self.inputs, block) {
            Some(shape) => shape,
            None => unreachable!(),
        }
    }

    /// How many steps the run took.
    pub fn steps(&self) -> u32
        requires { self.now.phase ≡ Finished }
        ensures value { result ≡ self.now.steps }
    {
        self.run.finished().tables.trace.steps() as u32
    }

    /// How many steps were re-executed for the last `run` or `propagate`. The step of a read belongs to what is
    /// before the read, so a stale read by itself is no work.
    pub fn work(&self) -> u32
        requires { self.now.phase ≡ Finished }
        ensures value { result ≡ self.now.work }
    {
        self.run.finished().spent
    }

    /// How many core blocks the run made.
    pub fn live_blocks(&self) -> u32
        requires { self.now.phase ≡ Finished }
        ensures value { result ≡ self.now.live }
    {
        self.run.finished().heap.live_count()
    }

    /// A copy of the trace of the run, flat.
    pub fn forest(&self) -> Result<Forest, NoMemory>
        requires { self.now.phase ≡ Finished }
        ensures value { IfOk result (λ forest. self.now.forest ≡ Some forest) }
    {
        flat_items(self.alloc, &self.run.finished().tables.trace)
    }

    /// The nodes of the run.
    pub fn trace(&self) -> &Trace
        requires { self.now.phase ≡ Finished }
        ensures value { self.now.timeline ≡ Some result.now }
        ensures whole { IsTrace result.now }
    {
        &self.run.finished().tables.trace
    }

    /// The modifiables of the run: each has its present base, and exactly the writes and the reads of the nodes.
    pub fn mods(&self) -> &Mods
        requires { self.now.phase ≡ Finished }
        ensures tabled { IsSomeAnd self.now.timeline (λ t. IsTabled t.nodes result.now) }
        ensures bases { IsSomeAnd self.now.heap
            (λ heap. HasBases self.now.code.structs self.now.inputs heap result.now) }
        ensures looked { result.now.looked ≡ self.now.looked }
        ensures differed { result.now.differed ≡ self.now.differed }
    {
        &self.run.finished().tables.mods
    }

    /// The function and the arguments of the call, if there is one.
    pub fn call(&self) -> Option<(u32, &[Word])>
        ensures value { MatchOption result (self.now.call ≡ None) (λ call. self.now.call
            ≡ Some (record { function = call.0; args = call.1.now })) }
    {
        match self.call.function() {
            None => None,
            Some(function) => Some((function, self.call.args())),
        }
    }

    /// The code that the engine runs.
    pub fn code(&self) -> &Code
        ensures value { result.now ≡ self.now.code }
    {
        &self.code
    }

    /// The input blocks with their present bases.
    pub fn input_blocks(&self) -> &Inputs
        ensures value { result.now ≡ self.now.inputs }
    {
        &self.inputs
    }

    /// A copy of the input blocks with their present bases.
    pub fn inputs(&self) -> Result<Inputs, NoMemory>
        ensures value { IfOk result (λ inputs. inputs ≡ self.now.inputs) }
    {
        self.inputs.copy()
    }

    /// The most steps of a run.
    pub fn fuel(&self) -> u32
        ensures value { result ≡ self.now.fuel }
    {
        self.fuel
    }
}
