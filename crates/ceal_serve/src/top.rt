// The top call.

ghost use Rattle.std.specs.Prelude.{◌≡◌, ◌≢◌, ◌⊎◌, ◌∷◌, ℕ, IfOk, IfSome, MatchOption, codes};
ghost use Rattle.ceal_cli.specs.Modes.{texts};
ghost use Rattle.ceal_cli.specs.declared.top.Status.TheVariants.{Done, Refused, Usage, TooLong, Memory, ReadFault};
ghost use Rattle.ceal_cli.specs.declared.top.Status.TheVariants.{WriteFault};
ghost use Rattle.ceal_cli.specs.declared.words.Mode.TheVariants.{Run};
ghost use Rattle.ceal_io.specs.Streams.{Rose};
ghost use Rattle.ceal_serve.specs.Exchange.{IsBegun, given};
ghost use Rattle.ceal_serve.specs.Turns.{IsBeginning, IsDone, IsRefused, IsTooLong};
ghost use Rattle.ceal_serve.specs.Words.{AskToServe, AskForNothing, status_text};

use crate::conversation::Conversation;
use crate::serve::{Terms, serve};
use ceal_base::no_memory::NoMemory;
use ceal_cli::{Mode, Status, asked_mode};
use std::alloc::Global;

// The words with the word `run` in front of them.
fn with_run(alloc: Global, words: Vec<String>) -> Result<Vec<String>, NoMemory>
    ensures { IfOk result (λ all. texts all ≡ codes "run" ∷ texts words) }
{
    let mut words = words;
    let run = String::from_str(alloc, "run")?;
    words.insert(0, run)?;
    Ok(words)
}

// The fuel of a run.
fn fuel_of(mode: Mode) -> Option<u32>
    ensures { MatchOption result ((fuel : ℕ) → mode ≢ Run fuel) (λ fuel. mode ≡ Run fuel) }
{
    match mode {
        Mode::Run(fuel) => Some(fuel),
        _ => None,
    }
}

// The fuel that the words ask for, if they ask for anything.
fn asked_fuel(alloc: Global, words: Vec<String>) -> Result<Option<u32>, NoMemory>
    ensures { IfOk result (λ found. MatchOption found (AskForNothing (texts words))
        (λ fuel. AskToServe (texts words) fuel)) }
{
    let words = with_run(alloc, words)?;
    match asked_mode(alloc, &words)? {
        Some(mode) => Ok(fuel_of(mode)),
        None => Ok(None),
    }
}

/// Does all that the program does. `words` are those after the program's name, and hashes begin with `salt`, whatever
/// it is. Nothing is heard before the words are read.
pub fn serve_main<C: Conversation>(
    alloc: Global,
    words: Vec<String>,
    salt: Option<[u8; 32]>,
    talk: &mut C,
) -> Status
    requires begun { IfSome (C.exchange talk.old)
        (λ e. (fuel : ℕ) → AskToServe (texts words) fuel → IsBegun fuel e) }
    // Where all went well, the conversation is over, and all was said for what was heard.
    ensures done { result ≡ Done → IfSome (C.exchange talk.new) IsDone }
    ensures refused { result ≡ Refused → IfSome (C.exchange talk.new) IsRefused }
    // In every case what was said begins that.
    ensures beginning { ¬ AskForNothing (texts words)
        → IfSome (C.exchange talk.new) IsBeginning }
    // When each answer comes.
    ensures too_long { result ≡ TooLong → IfSome (C.exchange talk.new) IsTooLong }
    ensures read_fault { result ≡ ReadFault
        → Rose (C.read_faults talk.old) (C.read_faults talk.new) }
    ensures write_fault { result ≡ WriteFault
        → Rose (C.write_faults talk.old) (C.write_faults talk.new) }
    ensures usage { result ≡ Usage → AskForNothing (texts words) }
    // Where the words ask for nothing, that is the answer, unless memory runs out, and nothing is heard or said.
    ensures undefined { AskForNothing (texts words) → (result ≡ Usage) ⊎ (result ≡ Memory) }
    ensures untouched { AskForNothing (texts words)
        → C.exchange talk.new ≡ C.exchange talk.old }
    ensures given { given (C.exchange talk.new) ≡ given (C.exchange talk.old) }
{
    match asked_fuel(alloc, words) {
        Ok(Some(fuel)) => serve(alloc, &Terms { fuel, salt }, talk),
        Ok(None) => Status::Usage,
        Err(NoMemory) => Status::Memory,
    }
}

/// What is said of a status on standard error.
pub fn status_line(status: Status) -> &'static str
    ensures { result.now ≡ status_text status }
{
    match status {
        Status::Done | Status::Refused => "",
        Status::Usage => "usage: ceal_serve [--fuel N]\n",
        Status::TooLong => "ceal_serve: source text or line longer than 4194304 bytes\n",
        Status::Memory => "ceal_serve: out of memory\n",
        Status::ReadFault => "ceal_serve: reading failed\n",
        Status::WriteFault => "ceal_serve: writing failed\n",
    }
}
