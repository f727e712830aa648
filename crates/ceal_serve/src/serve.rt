// A conversation from its beginning to its end.

ghost use Rattle.std.specs.Prelude.{◌≡◌, ◌≢◌, ◌≤◌, [], IfSome, IfOk, OnOk, IsErrOf, vec_len};
ghost use Rattle.ceal_cli.specs.declared.top.Status.TheVariants.{Done, Refused, Usage, TooLong, ReadFault, WriteFault};
ghost use Rattle.ceal_io.specs.Streams.{Rose};
ghost use Rattle.ceal_session.specs.AfterLine.{IsAllowed};
ghost use Rattle.ceal_session.specs.SessionState.{situation};
ghost use Rattle.ceal_serve.specs.Exchange.{IsBegun, given};
ghost use Rattle.ceal_serve.specs.Listening.{IsHeardSource, SourceIs};
ghost use Rattle.ceal_serve.specs.Replying.{IsAt};
ghost use Rattle.ceal_serve.specs.Troubles.{IsCounted};
ghost use Rattle.ceal_serve.specs.Turns.{IsBeginning, IsDone, IsOver, IsRefused, IsTooLong};

use crate::conversation::Conversation;
use crate::lines::{LIMIT, Lines};
use crate::replies::reply_all;
use crate::source::{Source, hear_source, refuse};
use crate::trouble::Trouble;
use ceal_base::fault::FrontError;
use ceal_cli::Status;
use ceal_compile::compile::compile;
use ceal_session::laws::some_reply;
use ceal_session::session::Session;
use ceal_types::seed::Seed;
use std::alloc::Global;
use std::mem::forget;

/// What a conversation is served with.
#[derive(Drop)]
pub struct Terms {
    /// how many steps a run may take
    pub fuel: u32,
    /// what hashes begin with, if anything: bytes that nobody knows who writes what is heard
    pub salt: Option<[u8; 32]>,
}

// What the hashes of a session begin with. Without a salt that is the source part, which is all that was heard.
fn seed_of(salt: &Option<[u8; 32]>, source: &[u8]) -> Seed {
    match salt {
        Some(salt) => Seed::of_text(salt),
        None => Seed::of_text(source),
    }
}

// Replies to the lines of the script in a session that begins.
fn serve_script<C: Conversation>(
    session: Session,
    lines: &mut Lines,
    talk: &mut C,
) -> Result<(), Trouble>
    requires at { IfSome (C.exchange talk.old) (IsAt lines.old (situation session)) }
    ensures done { OnOk result (IfSome (C.exchange talk.new) IsDone) }
    ensures beginning { IfSome (C.exchange talk.new) IsBeginning }
    ensures long { IsErrOf result Trouble.TooLong → IfSome (C.exchange talk.new) IsTooLong }
    ensures counted { IsCounted result (C.read_faults talk.old) (C.read_faults talk.new)
        (C.write_faults talk.old) (C.write_faults talk.new) }
    ensures given { given (C.exchange talk.new) ≡ given (C.exchange talk.old) }
{
    let mut session = session;
    let told = reply_all(&mut session, lines, talk);
    // The program ends after this: its memory goes back with the process, and not piece by piece.
    forget(session);
    told
}

// Serves after the source part was heard, and says whether it is accepted.
fn serve_source<C: Conversation>(
    alloc: Global,
    terms: &Terms,
    source: &Source,
    lines: &mut Lines,
    talk: &mut C,
) -> Result<bool, Trouble>
    requires allowed { IsAllowed terms.now.fuel }
    requires source { SourceIs source.now.marked source.now.text.items }
    requires small { vec_len source.now.text ≤ LIMIT }
    requires heard { IfSome (C.exchange talk.old)
        (IsHeardSource terms.now.fuel source.now.marked source.now.text.items lines.old) }
    ensures over { IfOk result
        (λ accepted. IfSome (C.exchange talk.new) (IsOver accepted)) }
    ensures beginning { IfSome (C.exchange talk.new) IsBeginning }
    ensures long { IsErrOf result Trouble.TooLong → IfSome (C.exchange talk.new) IsTooLong }
    ensures counted { IsCounted result (C.read_faults talk.old) (C.read_faults talk.new)
        (C.write_faults talk.old) (C.write_faults talk.new) }
    ensures given { given (C.exchange talk.new) ≡ given (C.exchange talk.old) }
{
    // for the proof: a session that begins is in the situation in which nothing was run
    some_reply();
    match compile(alloc, &source.text) {
        Ok(program) => {
            if !source.marked {
                forget(program);
                return Ok(true);
            }
            let seed = seed_of(&terms.salt, &source.text);
            let session = Session::seeded(alloc, program, terms.fuel, seed)?;
            serve_script(session, lines, talk)?;
            Ok(true)
        }
        Err(FrontError::Memory) => Err(Trouble::Memory),
        Err(FrontError::Fault(fault)) => {
            refuse(alloc, &source.text, fault, talk)?;
            Ok(false)
        }
    }
}

// Serves, and says whether the source part is accepted.
fn serve_lines<C: Conversation>(
    alloc: Global,
    terms: &Terms,
    lines: &mut Lines,
    talk: &mut C,
) -> Result<bool, Trouble>
    requires allowed { IsAllowed terms.now.fuel }
    requires begun { IfSome (C.exchange talk.old) (IsBegun terms.now.fuel) }
    requires unheard { lines.old ≡ [] }
    ensures over { IfOk result
        (λ accepted. IfSome (C.exchange talk.new) (IsOver accepted)) }
    ensures beginning { IfSome (C.exchange talk.new) IsBeginning }
    ensures long { IsErrOf result Trouble.TooLong → IfSome (C.exchange talk.new) IsTooLong }
    ensures counted { IsCounted result (C.read_faults talk.old) (C.read_faults talk.new)
        (C.write_faults talk.old) (C.write_faults talk.new) }
    ensures given { given (C.exchange talk.new) ≡ given (C.exchange talk.old) }
{
    let source = hear_source(alloc, terms.fuel, lines, talk)?;
    let served = serve_source(alloc, terms, &source, lines, talk);
    drop(source);
    served
}

/// Replies to each line when it is complete, before more is heard. What was said in the end is everything that is owed
/// to what was heard, or begins it.
pub fn serve<C: Conversation>(alloc: Global, terms: &Terms, talk: &mut C) -> Status
    requires allowed { IsAllowed terms.now.fuel }
    requires begun { IfSome (C.exchange talk.old) (IsBegun terms.now.fuel) }
    ensures done { result ≡ Done → IfSome (C.exchange talk.new) IsDone }
    ensures refused { result ≡ Refused → IfSome (C.exchange talk.new) IsRefused }
    ensures beginning { IfSome (C.exchange talk.new) IsBeginning }
    ensures too_long { result ≡ TooLong → IfSome (C.exchange talk.new) IsTooLong }
    ensures read_fault { result ≡ ReadFault
        → Rose (C.read_faults talk.old) (C.read_faults talk.new) }
    ensures write_fault { result ≡ WriteFault
        → Rose (C.write_faults talk.old) (C.write_faults talk.new) }
    ensures usage { result ≢ Usage }
    ensures given { given (C.exchange talk.new) ≡ given (C.exchange talk.old) }
{
    let mut lines = Lines::new(alloc);
    match serve_lines(alloc, terms, &mut lines, talk) {
        Ok(true) => Status::Done,
        Ok(false) => Status::Refused,
        Err(Trouble::Memory) => Status::Memory,
        Err(Trouble::TooLong) => Status::TooLong,
        Err(Trouble::ReadFault) => Status::ReadFault,
        Err(Trouble::WriteFault) => Status::WriteFault,
    }
}
