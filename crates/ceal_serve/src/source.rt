// The source part of what is heard.

ghost use Rattle.std.specs.Prelude.{◌≡◌, ◌≤◌, ◌<◌, ◌+◌, ◌↔◌, [], IsTrue, List, ℕ, vec_len, IfSome, IfOk, IfErr, OnOk};
ghost use Rattle.std.specs.Prelude.{OnErr, IsErrOf};
ghost use Rattle.ceal_compile.specs.Source.{IsFirstFault};
ghost use Rattle.ceal_lex.specs.Parts.{IsMark};
ghost use Rattle.ceal_serve.specs.Exchange.{IsBegun, SaysPrefix, Says, given};
ghost use Rattle.ceal_serve.specs.Listening.{HasLine, IsFaultLineOf, IsHeardSource, OwesFault, SourceIs, TakesLine};
ghost use Rattle.ceal_serve.specs.Troubles.{IsCounted};
ghost use Rattle.ceal_serve.specs.Turns.{IsBeginning, IsTooLong};

use crate::conversation::{Conversation, say};
use crate::lines::{LIMIT, Lines};
use crate::trouble::Trouble;
use ceal_base::fault::Fault;
use ceal_compile::fault_line::fault_line;
use std::alloc::Global;

/// A source part, with its mark where that was heard whole.
#[derive(Drop)]
pub struct Source {
    pub text: Vec<u8>,
    pub marked: bool,
}

// Whether a line is the mark.
fn is_mark(line: &[u8]) -> bool
    ensures { IsTrue result ↔ IsMark line.now }
{
    matches!(line, b"%%" | b"%%\r")
}

// Takes the first line with its line feed to the end of the text, and says whether it is the mark.
fn take_line(text: &mut Vec<u8>, lines: &mut Lines, end: usize) -> Result<bool, Trouble>
    requires line { HasLine lines.old end }
    requires small { vec_len text.old + end < LIMIT }
    ensures taken { IfOk result (λ marked.
        TakesLine text.old.items text.new.items lines.old lines.new marked) }
    ensures len { IfOk result (λ marked. vec_len text.new ≡ vec_len text.old + end + 1) }
    ensures memory { IfErr result (λ trouble. trouble ≡ Trouble.Memory) }
{
    let line = &lines.rest()[..end];
    let marked = is_mark(line);
    text.extend_from_slice(line)?;
    text.push(b'\n')?;
    lines.take(end + 1);
    Ok(marked)
}

/// Hears the source part with its mark, or all that there is to hear.
pub fn hear_source<C: Conversation>(
    alloc: Global,
    fuel: u32,
    lines: &mut Lines,
    talk: &mut C,
) -> Result<Source, Trouble>
    requires begun { IfSome (C.exchange talk.old) (IsBegun fuel) }
    requires unheard { lines.old ≡ [] }
    ensures heard { IfOk result (λ source. IfSome (C.exchange talk.new)
        (IsHeardSource fuel source.marked source.text.items lines.new)) }
    ensures source { IfOk result (λ source. SourceIs source.marked source.text.items) }
    ensures small { IfOk result (λ source. vec_len source.text ≤ LIMIT) }
    ensures beginning { OnErr result (IfSome (C.exchange talk.new) IsBeginning) }
    ensures long { IsErrOf result Trouble.TooLong → IfSome (C.exchange talk.new) IsTooLong }
    ensures counted { IsCounted result (C.read_faults talk.old) (C.read_faults talk.new)
        (C.write_faults talk.old) (C.write_faults talk.new) }
    ensures given { given (C.exchange talk.new) ≡ given (C.exchange talk.old) }
{
    let mut text = Vec::new(alloc);
    loop {
        let limit = LIMIT - text.len();
        let Some(end) = lines.hear_line(talk, limit)? else {
            text.extend_from_slice(lines.rest())?;
            return Ok(Source {
                text,
                marked: false,
            });
        };
        if take_line(&mut text, lines, end)? {
            return Ok(Source { text, marked: true });
        }
    }
}

/// Says the line of the first fault of a source part.
pub fn refuse<C: Conversation>(
    alloc: Global,
    source: &[u8],
    fault: Fault,
    talk: &mut C,
) -> Result<(), Trouble>
    requires first { IsFirstFault source.now fault }
    requires owed { IfSome (C.exchange talk.old) (OwesFault source.now) }
    ensures all { OnOk result
        (Says (C.exchange talk.old) (C.exchange talk.new) (IsFaultLineOf source.now)) }
    ensures part { OnErr result ((line : List ℕ) × IsFaultLineOf source.now line
        × SaysPrefix (C.exchange talk.old) (C.exchange talk.new) line) }
    ensures short { ¬ IsErrOf result Trouble.TooLong }
    ensures counted { IsCounted result (C.read_faults talk.old) (C.read_faults talk.new)
        (C.write_faults talk.old) (C.write_faults talk.new) }
    ensures given { given (C.exchange talk.new) ≡ given (C.exchange talk.old) }
{
    let line = fault_line(alloc, source, fault)?;
    say(talk, line.items())?;
    Ok(())
}
