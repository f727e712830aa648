// A turn of change propagation: the first stale read is re-executed, by itself.

ghost use Rattle.std.specs.Prelude.{◌≡◌, [], ℕ, List, Some, true, OnOk};
ghost use Rattle.ceal_base.specs.declared.forest.UnitId.{UnitId as UnitOf};
ghost use Rattle.ceal_base.specs.declared.word.Place.{Place as PlaceOf};
ghost use Rattle.ceal_base.specs.declared.word.Word.{Word as WordOf};
ghost use Rattle.ceal_code.specs.Stacks.{stack_in, aside_in};
ghost use Rattle.ceal_repair.specs.Looks.{Pays, found};
ghost use Rattle.ceal_repair.specs.Repairs.{code_of, inputs_of, running_of, frames_of, SameCall};
ghost use Rattle.ceal_repair.specs.Repairs.{account};
ghost use Rattle.ceal_repair.specs.Turning.{Since as SinceOf, FoundStale, TurnRuns};
ghost use Rattle.ceal_theory.specs.Repair.{resumed};
ghost use Rattle.ceal_trace.specs.Nodes.{node_at, is_read};
ghost use Rattle.ceal_trace.specs.declared.node.Node.TheVariants.{Read};

use super::Repair;
use ceal_base::no_memory::NoMemory;
use ceal_code::code::Code;
use ceal_code::stack::{Continuation, Stack};
use ceal_order::stamp::Stamp;
use ceal_theory::courses::turn_known_law;
use ceal_theory::slices::{listed_law, ready_law};
use ceal_trace::trace::Trace;

/// The unit of a read by itself, on the value that the read records, in place of the units that there are.
pub fn unit_at(stack: &mut Stack, code: &Code, trace: &Trace, read: Stamp) -> Result<(), NoMemory>
    requires read { is_read (node_at read.0 trace.now.nodes) ≡ true }
    ensures unit { OnOk result ((p : PlaceOf) (v : WordOf) (u : UnitOf) (x : ℕ)
        (args : List WordOf) → node_at read.0 trace.now.nodes ≡ Some (Read p v u x args)
        → stack_in stack.new ≡ resumed code.now u x args v) }
    ensures aside { OnOk result (aside_in stack.new ≡ aside_in stack.old) }
{
    let seen = trace.read_at(read);
    let args = seen.args.items();
    let next = Continuation {
        unit: seen.unit,
        var: seen.var,
        args,
    };
    stack.clear();
    stack.resume(code, next, seen.value)?;
    Ok(())
}

impl<'a> Repair<'a> {
    /// The unit of a read that was found stale runs, with what is inside the read left over. The steps on the read are
    /// dropped.
    pub fn begin_turn(&mut self, read: Stamp) -> Result<(), NoMemory>
        requires found { (f : ℕ) × (args : List WordOf) × (o : SinceOf)
            × FoundStale (code_of self.old) (inputs_of self.old)
            f args o read.0 (running_of self.old) }
        requires idle { frames_of self.old ≡ [] }
        ensures call { OnOk result (SameCall self.old self.new) }
        ensures pays { OnOk result (Pays (found read.0 (account self.old)) (account self.new)) }
        ensures begins { OnOk result ((f : ℕ) (args : List WordOf) (o : SinceOf)
            → (found : FoundStale (code_of self.old) (inputs_of self.old)
            f args o read.0 (running_of self.old))
            → TurnRuns (code_of self.old) (inputs_of self.old) f args o found.before self.new) }
    {
        // for the proof: a stale read is listed, its words and stack are known, and so are the blocks of its turn
        listed_law();
        ready_law();
        turn_known_law();
        self.stack.reset();
        let trace = &self.running.tables.trace;
        unit_at(self.stack, self.code, trace, read)?;
        self.limit = self.running.tables.trace.end_of(read);
        self.running.tables.set_steps(read, 0);
        self.cursor = read;
        Ok(())
    }
}
