// A session that a program keeps: the total of an order, brought up to date after each change.

ghost use Rattle.std.specs.Prelude.{◌≡◌, IfOk, IfErr};
ghost use Rattle.ceal_session.specs.SessionState.{situation};
ghost use Rattle.ceal_session.specs.Replies.{Answers};
ghost use Rattle.ceal_session.specs.State.{numbers_in};
ghost use Rattle.ceal_theory.specs.Pasts.{goes};

use crate::trouble::Trouble;
use ceal_base::text::Text;
use ceal_compile::compile::compile;
use ceal_session::session::Session;
use std::alloc::Global;

const SOURCE: &[u8] = b"
ceal order(mod int *price, mod int *count, mod int *total) {
  int p = read(price);
  int n = read(count);
  write(total, p * n);
}
%%
";

/// A session over the source text, with its inputs and a finished run. A run may take a thousand steps.
pub fn open(alloc: Global) -> Result<Session, Trouble> {
    let program = compile(alloc, SOURCE)?;
    let mut session = Session::new(alloc, program, 1_000)?;
    match prepare(&mut session) {
        Ok(()) => Ok(session),
        Err(trouble) => {
            drop(session);
            Err(trouble)
        }
    }
}

/// Makes the inputs, and runs the program on them.
fn prepare(session: &mut Session) -> Result<(), Trouble> {
    change(session, b"mod price int 12")?;
    change(session, b"mod count int 3")?;
    change(session, b"mod total int 0")?;
    change(session, b"run order price count total")
}

/// Sets an input, as the line says, and brings the total up to date.
pub fn update(session: &mut Session, line: &[u8]) -> Result<(), Trouble> {
    change(session, line)?;
    change(session, b"propagate")
}

/// A line that has to be answered `ok`.
pub fn change(session: &mut Session, line: &[u8]) -> Result<(), Trouble> {
    let reply = ask(session, line)?;
    let done = reply.items() == b"ok\n".as_slice();
    drop(reply);
    if done { Ok(()) } else { Err(Trouble::Refused) }
}

/// The reply to a line: what the meaning of the source text gives to it in the state that the session is in.
pub fn ask(session: &mut Session, line: &[u8]) -> Result<Text, Trouble>
    ensures answers { IfOk result (λ text. Answers session.old.state
        (numbers_in (situation session.old)) (goes (situation session.new).past)
        line.now text session.new.state) }
    ensures memory { IfErr result (λ trouble. trouble ≡ Trouble.Memory) }
{
    let reply = session.command(line)?;
    Ok(reply)
}
