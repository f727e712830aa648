// The run of an engine, and what edits and new inputs do to it.

ghost use Rattle.std.specs.Prelude.{◌≡◌, ℕ, [], pos, None, Some, is_some, IfSome, OnOk, OnErr};
ghost use Rattle.ceal_base.specs.declared.word.BlockId.TheVariants.{Input};
ghost use Rattle.ceal_base.specs.declared.word.Word.TheVariants.{Num};
ghost use Rattle.ceal_code.specs.Value.{field_kind};
ghost use Rattle.ceal_engine.specs.Keeping.{marked_kept, phase_at, phase_of, running_in};
ghost use Rattle.ceal_engine.specs.Runs.{LeavesCells, OfRuns, SetsBase, SetsInput, edited_at, opened_at, same_stage};
ghost use Rattle.ceal_engine.specs.Runs.{told_of};
ghost use Rattle.ceal_engine.specs.declared.phase.Phase.TheVariants.{Finished as IsFinished};
ghost use Rattle.ceal_engine.specs.declared.run.Run.TheVariants.{Kept as IsKept, Dropped as IsDropped};
ghost use Rattle.ceal_base.specs.declared.word.Place.{Place as PlaceOf};
ghost use Rattle.ceal_mods.specs.Cell.{latest_value};
ghost use Rattle.ceal_mods.specs.Mods.{cell_of, held_at_mark};
ghost use Rattle.ceal_repair.specs.Kept.{Kept, base_in};
ghost use Rattle.ceal_repair.specs.Words.{IsTouched, NO_FIELD};

use crate::phase::Phase;
use ceal_base::kind::Shape;
use ceal_base::no_memory::NoMemory;
use ceal_base::word::{Place, Word};
use ceal_code::code::Code;
use ceal_repair::edits::{set_input, touch_input};
use ceal_repair::running::Running;
use std::mem;

/// How far a run is.
#[derive(Clone, Copy)]
pub enum Stage {
    /// it is the run on the present inputs
    Finished,
    /// an input was edited since
    Pending,
    /// a part of a repair, which is under way
    Partial,
}

/// What an engine has of its run.
#[derive(Drop)]
pub enum Run {
    /// no function was run yet
    New,
    /// a run of the call, and how far it is
    Kept(Running, Stage),
    /// no run: it was out of fuel, or there was no memory
    Dropped,
}

impl Stage {
    fn phase(self) -> Phase
        ensures { result ≡ phase_at self }
    {
        match self {
            Stage::Finished => Phase::Finished,
            Stage::Pending => Phase::Pending,
            Stage::Partial => Phase::Partial,
        }
    }

    /// Before a repair of a run at this stage: where it begins no step was spent on it.
    pub fn open(self, run: &mut Running)
        ensures { run.new ≡ opened_at self run.old }
    {
        match self {
            Stage::Finished => run.spent = 0,
            Stage::Pending => run.spent = 0,
            Stage::Partial => {}
        }
    }

    /// The stage after an edit.
    fn edited(self) -> Stage
        ensures { result ≡ edited_at self }
    {
        match self {
            Stage::Finished => Stage::Pending,
            Stage::Pending => Stage::Pending,
            Stage::Partial => Stage::Partial,
        }
    }
}

impl Run {
    /// The phase of an engine that has this run.
    pub fn phase(&self) -> Phase
        ensures { result ≡ phase_of self.now }
    {
        match self {
            Run::New => Phase::New,
            Run::Kept(_, stage) => stage.phase(),
            Run::Dropped => Phase::Dropped,
        }
    }

    /// The run, which is finished.
    pub fn finished(&self) -> &Running
        requires { phase_of self.now ≡ IsFinished }
        ensures { running_in self.now ≡ Some result.now }
    {
        match self {
            Run::New => unreachable!(),
            Run::Kept(run, _) => run,
            Run::Dropped => unreachable!(),
        }
    }

    /// Takes a run, in place of the one that there was.
    pub fn keep(&mut self, run: Running, stage: Stage)
        ensures { self.new ≡ IsKept run stage }
    {
        drop(mem::replace(self, Run::Kept(run, stage)));
    }

    /// The run is given up.
    pub fn give_up(&mut self)
        ensures { self.new ≡ IsDropped }
    {
        drop(mem::replace(self, Run::Dropped));
    }

    /// From now on this is the work of the run.
    pub fn tell(&mut self, work: u32)
        ensures { self.new ≡ told_of work self.old }
    {
        match self {
            Run::New => {}
            Run::Kept(run, _) => run.spent = work,
            Run::Dropped => {}
        }
    }

    /// Sets what a place holds before any write, where there is a run. A finished run is then pending.
    pub fn edit(&mut self, place: Place, value: Word) -> Result<(), NoMemory>
        requires kept { IfSome (running_in self.old) (λ r. Kept r.tables) }
        ensures ok { OnOk result (OfRuns (SetsBase place value) edited_at self.old self.new) }
        ensures err { OnErr result (OfRuns LeavesCells same_stage self.old self.new) }
        ensures marks { marked_kept (running_in self.new) ≡ marked_kept (running_in self.old) }
    {
        match self {
            Run::New => Ok(()),
            Run::Kept(run, stage) => {
                run.tables.edit(place, value)?;
                *stage = stage.edited();
                Ok(())
            }
            Run::Dropped => Ok(()),
        }
    }

    /// Makes room for the modifiables of an input that is to come, where there is a run. What they hold is not changed.
    pub fn touch(&mut self, code: &Code, input: u32, shape: Shape) -> Result<(), NoMemory>
        requires kept { IfSome (running_in self.old) (λ r. Kept r.tables) }
        requires bare { IfSome (running_in self.old) (λ r. (field : ℕ) → base_in r.tables.mods
            (record { block = Input input; field = field }) ≡ Num (pos 0)) }
        ensures same { OfRuns LeavesCells same_stage self.old self.new }
        ensures marks { marked_kept (running_in self.new) ≡ marked_kept (running_in self.old) }
        ensures touched { OnOk result (IfSome (running_in self.new) (λ r.
            IsTouched code.now.structs input shape r.tables.mods)) }
        ensures few { OnOk result (IfSome (running_in self.new) (λ r.
            field_kind code.now.structs shape NO_FIELD ≡ None)) }
    {
        match self {
            Run::New => Ok(()),
            Run::Kept(run, _) => {
                touch_input(&mut run.tables, code.structs.items(), input, shape)
            }
            Run::Dropped => Ok(()),
        }
    }

    /// Sets the bases of a new input for which there is room, where there is a run.
    pub fn add(&mut self, code: &Code, input: u32, shape: Shape, words: &[Word])
        requires kept { IfSome (running_in self.old) (λ r. Kept r.tables) }
        requires touched { IfSome (running_in self.old) (λ r.
            IsTouched code.now.structs input shape r.tables.mods) }
        requires few { IfSome (running_in self.old) (λ r.
            field_kind code.now.structs shape NO_FIELD ≡ None) }
        requires unread { IfSome (running_in self.old)
            (λ r. (field : ℕ) → (cell_of r.tables.mods
            (record { block = Input input; field = field })).reads ≡ []) }
        ensures sets { OfRuns (SetsInput code.now.structs input shape words.now) same_stage
            self.old self.new }
        ensures marks { marked_kept (running_in self.new) ≡ marked_kept (running_in self.old) }
    {
        match self {
            Run::New => {}
            Run::Kept(run, _) => {
                set_input(&mut run.tables, code.structs.items(), input, shape, words)
            }
            Run::Dropped => {}
        }
    }

    /// Marks what the places hold at the end, where there is a run.
    pub fn mark(&mut self) -> Result<(), NoMemory>
        requires kept { IfSome (running_in self.old) (λ r. Kept r.tables) }
        ensures same { OfRuns LeavesCells same_stage self.old self.new }
        ensures marked { OnOk result
            (is_some (marked_kept (running_in self.new)) ≡ is_some (running_in self.new)) }
        ensures held { OnOk result (IfSome (running_in self.new) (λ r. (p : PlaceOf)
            → held_at_mark r.tables.mods p ≡ latest_value (cell_of r.tables.mods p))) }
        ensures err { OnErr result (self.new ≡ self.old) }
    {
        match self {
            Run::New => Ok(()),
            Run::Kept(run, _) => run.tables.mark(),
            Run::Dropped => Ok(()),
        }
    }

    /// Whether the places of the run are marked.
    pub fn is_marked(&self) -> bool
        ensures { result ≡ is_some (marked_kept (running_in self.now)) }
    {
        match self {
            Run::New => false,
            Run::Kept(run, _) => run.tables.mods.is_marked(),
            Run::Dropped => false,
        }
    }
}
