// The replies to the lines, one after another.

ghost use Rattle.std.specs.Prelude.{◌≡◌, IfSome, OnOk, OnErr, IsErrOf, if◌then◌else◌};
ghost use Rattle.ceal_session.specs.SessionState.{situation};
ghost use Rattle.ceal_cli.specs.Lines.{without_return as no_return};
ghost use Rattle.ceal_cli.specs.ServedLines.{BeginsReply, IsReply};
ghost use Rattle.ceal_serve.specs.Exchange.{Says, given};
ghost use Rattle.ceal_serve.specs.Listening.{HasLine};
ghost use Rattle.ceal_serve.specs.Replying.{IsAt, IsLast, Owes};
ghost use Rattle.ceal_serve.specs.Troubles.{IsCounted};
ghost use Rattle.ceal_serve.specs.Turns.{IsBeginning, IsDone, IsOneLine, IsTooLong};

use crate::conversation::{Conversation, say};
use crate::lines::{LIMIT, Lines};
use crate::trouble::Trouble;
use ceal_session::laws::{kept_line, some_reply};
use ceal_session::session::Session;

// The line of a piece that a line feed follows: one CR before it is dropped.
fn without_return(piece: &[u8]) -> &[u8]
    ensures { result.now ≡ no_return piece.now }
{
    if !piece.is_empty() && piece[piece.len() - 1] == b'\r' {
        return &piece[..piece.len() - 1];
    }
    piece
}

// Replies to a line.
fn reply<C: Conversation>(session: &mut Session, line: &[u8], talk: &mut C) -> Result<(), Trouble>
    requires owed { IfSome (C.exchange talk.old) (Owes (situation session.old) line.now) }
    ensures all { OnOk result (Says (C.exchange talk.old) (C.exchange talk.new)
        (IsReply (situation session.old) line.now (situation session.new))) }
    ensures part { Says (C.exchange talk.old) (C.exchange talk.new)
        (BeginsReply (situation session.old) line.now) }
    ensures short { ¬ IsErrOf result Trouble.TooLong }
    ensures counted { IsCounted result (C.read_faults talk.old) (C.read_faults talk.new)
        (C.write_faults talk.old) (C.write_faults talk.new) }
    ensures given { given (C.exchange talk.new) ≡ given (C.exchange talk.old) }
{
    let answer = session.answer(line)?;
    say(talk, answer.items())?;
    Ok(())
}

// Replies to the first line of what is left, which ends there.
fn reply_first<C: Conversation>(
    session: &mut Session,
    lines: &mut Lines,
    end: usize,
    talk: &mut C,
) -> Result<(), Trouble>
    requires line { HasLine lines.old end }
    requires at { IfSome (C.exchange talk.old) (IsAt lines.old (situation session.old)) }
    ensures at { OnOk result
        (IfSome (C.exchange talk.new) (IsAt lines.new (situation session.new))) }
    ensures beginning { OnErr result (IfSome (C.exchange talk.new) IsBeginning) }
    ensures short { ¬ IsErrOf result Trouble.TooLong }
    ensures counted { IsCounted result (C.read_faults talk.old) (C.read_faults talk.new)
        (C.write_faults talk.old) (C.write_faults talk.new) }
    ensures given { given (C.exchange talk.new) ≡ given (C.exchange talk.old) }
{
    // for the proof: a session keeps to its situation, in which each line has a reply
    kept_line();
    some_reply();
    reply(session, without_return(&lines.rest()[..end]), talk)?;
    lines.take(end + 1);
    Ok(())
}

// Replies to the last line.
fn reply_last<C: Conversation>(
    session: &mut Session,
    line: &[u8],
    talk: &mut C,
) -> Result<(), Trouble>
    requires one { IsOneLine line.now }
    requires last { IfSome (C.exchange talk.old) (IsLast line.now (situation session.old)) }
    ensures done { OnOk result (IfSome (C.exchange talk.new) IsDone) }
    ensures beginning { IfSome (C.exchange talk.new) IsBeginning }
    ensures short { ¬ IsErrOf result Trouble.TooLong }
    ensures counted { IsCounted result (C.read_faults talk.old) (C.read_faults talk.new)
        (C.write_faults talk.old) (C.write_faults talk.new) }
    ensures given { given (C.exchange talk.new) ≡ given (C.exchange talk.old) }
{
    // for the proof: a session keeps to its situation, in which each line has a reply
    kept_line();
    some_reply();
    reply(session, line, talk)?;
    Ok(())
}

/// Replies to each line when it is complete, before more is heard, and at the end to the last one.
pub fn reply_all<C: Conversation>(
    session: &mut Session,
    lines: &mut Lines,
    talk: &mut C,
) -> Result<(), Trouble>
    requires at { IfSome (C.exchange talk.old) (IsAt lines.old (situation session.old)) }
    ensures done { OnOk result (IfSome (C.exchange talk.new) IsDone) }
    ensures beginning { IfSome (C.exchange talk.new) IsBeginning }
    ensures long { IsErrOf result Trouble.TooLong → IfSome (C.exchange talk.new) IsTooLong }
    ensures counted { IsCounted result (C.read_faults talk.old) (C.read_faults talk.new)
        (C.write_faults talk.old) (C.write_faults talk.new) }
    ensures given { given (C.exchange talk.new) ≡ given (C.exchange talk.old) }
{
    // for the proof: in each situation each line has a reply
    some_reply();
    for _ in 0..u64::MAX {
        match lines.hear_line(talk, LIMIT)? {
            Some(end) => reply_first(session, lines, end, talk)?,
            None => return reply_last(session, lines.rest(), talk),
        }
    }
    // There are no more numbers to count lines with.
    Err(Trouble::Memory)
}
