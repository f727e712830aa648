// Which units of a stack are over.

ghost use Rattle.std.specs.Prelude.{◌≡◌, true, unwrap_or, if◌then◌else◌, IfOk, IfSome, OnOk};
ghost use Rattle.std.specs.Option.{option_map};
ghost use Rattle.ceal_code.specs.Init.{arguments};
ghost use Rattle.ceal_code.specs.Stacks.{waits_in, stack_in, aside_in, landing, Stands};
ghost use Rattle.ceal_code.specs.Step.{Stack as StackOf, Empty, command_at, entered, landed, stack_after_quiet_at};
ghost use Rattle.ceal_code.specs.Step.{stack_after_quiet};
ghost use Rattle.ceal_code.specs.Value.{values};
ghost use Rattle.ceal_code.specs.declared.command.Cmd.TheVariants.{Done};

use crate::code::Code;
use crate::command::Cmd;
use crate::expr::CodeExpr;
use crate::plain_words::PlainWords;
use crate::stack::Stack;
use ceal_base::forest::UnitId;
use ceal_base::no_memory::NoMemory;

/// Whether a tail call that arrives at this command runs on.
fn runs_on(c: Option<&Cmd>) -> bool
    ensures { (arrived rest : StackOf) →
        landed (unwrap_or (option_map (λ c. c.now) c.entry) Done) arrived rest
        ≡ (if result then arrived else rest) }
{
    match c {
        None => false,
        Some(c) => match c {
            Cmd::Done => false,
            Cmd::Tail { .. } => false,
            Cmd::Move { .. } => true,
            Cmd::Tick => true,
            Cmd::Alloc { .. } => true,
            Cmd::Modref { .. } => true,
            Cmd::Write { .. } => true,
            Cmd::If { .. } => true,
            Cmd::Read { .. } => true,
            Cmd::Call { .. } => true,
        },
    }
}

impl Stack {
    /// The unit that a tail call enters runs, unless it is over at once.
    fn land<'c, P: PlainWords>(
        &mut self,
        code: &'c Code,
        plain: &P,
        unit: UnitId,
        args: &[CodeExpr],
    ) -> Result<Option<&'c Cmd>, NoMemory>
        ensures waits { OnOk result (self.new.waits ≡ self.old.waits) }
        ensures lands { IfOk result (λ found. (rest : StackOf) →
            landed (command_at code.now unit.0 0) (entered code.now unit.0
            (values code.now.structs (P.plain plain.now)
            (arguments self.old.top.env.items) args.now) (waits_in self.old.waits)) rest
            ≡ landing found self.new rest) }
        ensures command { IfOk result
            (λ found. IfSome found (λ c. Stands code.now c.now self.new)) }
    {
        let at = unit.0 as usize;
        let first = code.command(at, 0);
        if !runs_on(first) {
            return Ok(None);
        }
        self.go_to(code, plain, at, args)?;
        Ok(first)
    }

    /// Does a command of the unit that runs, where it takes no step.
    fn arrive_at<'c, P: PlainWords>(
        &mut self,
        code: &'c Code,
        plain: &P,
        c: &'c Cmd,
    ) -> Result<Option<&'c Cmd>, NoMemory>
        requires stands { Stands code.now c.now self.old }
        ensures waits { OnOk result (self.new.waits ≡ self.old.waits) }
        ensures arrives { IfOk result (λ found. (rest : StackOf) →
            stack_after_quiet_at code.now (P.plain plain.now) c.now
            self.old.top.unit self.old.top.index (arguments self.old.top.env.items)
            (waits_in self.old.waits) rest
            ≡ landing found self.new rest) }
        ensures command { IfOk result
            (λ found. IfSome found (λ c. Stands code.now c.now self.new)) }
    {
        match c {
            Cmd::Done => Ok(None),
            Cmd::Tail { unit, args } => self.land(code, plain, *unit, args.items()),
            Cmd::Move { .. } => Ok(Some(c)),
            Cmd::Tick => Ok(Some(c)),
            Cmd::Alloc { .. } => Ok(Some(c)),
            Cmd::Modref { .. } => Ok(Some(c)),
            Cmd::Write { .. } => Ok(Some(c)),
            Cmd::If { .. } => Ok(Some(c)),
            Cmd::Read { .. } => Ok(Some(c)),
            Cmd::Call { .. } => Ok(Some(c)),
        }
    }

    /// The command of the unit that runs, or of the one that it ends in a call of, unless it is over.
    fn arrive<'c, P: PlainWords>(
        &mut self,
        code: &'c Code,
        plain: &P,
    ) -> Result<Option<&'c Cmd>, NoMemory>
        requires runs { self.old.runs ≡ true }
        ensures waits { OnOk result (self.new.waits ≡ self.old.waits) }
        ensures arrives { IfOk result (λ found. (rest : StackOf) →
            stack_after_quiet_at code.now (P.plain plain.now)
            (command_at code.now self.old.top.unit self.old.top.index)
            self.old.top.unit self.old.top.index (arguments self.old.top.env.items)
            (waits_in self.old.waits) rest ≡ landing found self.new rest) }
        ensures command { IfOk result
            (λ found. IfSome found (λ c. Stands code.now c.now self.new)) }
    {
        match code.command(self.top.unit, self.top.index) {
            None => Ok(None),
            Some(c) => self.arrive_at(code, plain, c),
        }
    }

    /// The command of the next step, and its unit runs; units before it are over.
    pub(crate) fn settle<'c, P: PlainWords>(
        &mut self,
        code: &'c Code,
        plain: &P,
    ) -> Result<Option<&'c Cmd>, NoMemory>
        ensures settled { IfOk result (λ found.
            stack_after_quiet code.now (P.plain plain.now) (stack_in self.old)
            ≡ landing found self.new Empty) }
        ensures command { IfOk result
            (λ found. IfSome found (λ c. Stands code.now c.now self.new)) }
        ensures aside { OnOk result (aside_in self.new ≡ aside_in self.old) }
    {
        while self.begin()? {
            if let Some(c) = self.arrive(code, plain)? {
                return Ok(Some(c));
            }
            self.leave();
        }
        Ok(None)
    }
}
