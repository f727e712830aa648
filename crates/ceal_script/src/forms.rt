// The words of each command.

ghost use Rattle.std.specs.Prelude.{◌≡◌, ◌∷◌, IsFalse, codes};
ghost use Rattle.ceal_script.specs.Answers.{Reads};
ghost use Rattle.ceal_script.specs.Keywords.{keyword_text};
ghost use Rattle.ceal_script.specs.Lines as lines;
ghost use Rattle.ceal_script.specs.Lines.{Says};
ghost use Rattle.ceal_script.specs.Words.{texts};

use crate::command::Command;
use crate::keyword::{Keyword, read_keyword};
use crate::line_error::LineError;
use crate::number::reads;
use crate::spelling::{identifier, kind, name, place, value, values};
use std::alloc::Global;

/// What follows `mod`.
fn read_mod(alloc: Global, rest: &[&[u8]]) -> Result<Command, LineError>
    ensures { Reads result (Says (codes "mod" ∷ texts rest.now)) }
{
    let [first, second, third] = rest else {
        return Err(LineError::Unreadable);
    };
    let name = name(alloc, first)?;
    let kind = kind(alloc, second)?;
    let value = value(alloc, third)?;
    Ok(Command::Mod { name, kind, value })
}

/// What follows `new`.
fn read_new(alloc: Global, rest: &[&[u8]]) -> Result<Command, LineError>
    ensures { Reads result (Says (codes "new" ∷ texts rest.now)) }
{
    let [first, second, others @ ..] = rest else {
        return Err(LineError::Unreadable);
    };
    let name = name(alloc, first)?;
    let shape = identifier(alloc, second)?;
    let values = values(alloc, others)?;
    Ok(Command::New {
        name,
        shape,
        values,
    })
}

/// What follows `set`.
fn read_set(alloc: Global, rest: &[&[u8]]) -> Result<Command, LineError>
    ensures { Reads result (Says (codes "set" ∷ texts rest.now)) }
{
    let [first, second] = rest else {
        return Err(LineError::Unreadable);
    };
    let place = place(alloc, first)?;
    let value = value(alloc, second)?;
    Ok(Command::Set { place, value })
}

/// What follows `run`.
fn read_run(alloc: Global, rest: &[&[u8]]) -> Result<Command, LineError>
    ensures { Reads result (Says (codes "run" ∷ texts rest.now)) }
{
    let [first, others @ ..] = rest else {
        return Err(LineError::Unreadable);
    };
    let function = identifier(alloc, first)?;
    let args = values(alloc, others)?;
    Ok(Command::Run { function, args })
}

/// What follows `get`.
fn read_get(alloc: Global, rest: &[&[u8]]) -> Result<Command, LineError>
    ensures { Reads result (Says (codes "get" ∷ texts rest.now)) }
{
    let [first] = rest else {
        return Err(LineError::Unreadable);
    };
    let place = place(alloc, first)?;
    Ok(Command::Get { place })
}

/// What follows `show`.
fn read_show(alloc: Global, rest: &[&[u8]]) -> Result<Command, LineError>
    ensures { Reads result (Says (codes "show" ∷ texts rest.now)) }
{
    let [first] = rest else {
        return Err(LineError::Unreadable);
    };
    let name = name(alloc, first)?;
    Ok(Command::Show { name })
}

/// What follows `propagate`: nothing, or a number of reads.
fn read_propagate(rest: &[&[u8]]) -> Result<Command, LineError>
    ensures { Reads result (Says (codes "propagate" ∷ texts rest.now)) }
{
    match rest {
        [] => Ok(Command::Propagate),
        [word] => match reads(word) {
            Some(reads) => Ok(Command::Slice { reads }),
            None => Err(LineError::Unreadable),
        },
        _ => Err(LineError::Unreadable),
    }
}

/// Nothing follows `blocks`.
fn read_blocks(rest: &[&[u8]]) -> Result<Command, LineError>
    ensures { Reads result (Says (codes "blocks" ∷ texts rest.now)) }
{
    match rest {
        [] => Ok(Command::Blocks),
        _ => Err(LineError::Unreadable),
    }
}

/// Nothing follows `steps`.
fn read_steps(rest: &[&[u8]]) -> Result<Command, LineError>
    ensures { Reads result (Says (codes "steps" ∷ texts rest.now)) }
{
    match rest {
        [] => Ok(Command::Steps),
        _ => Err(LineError::Unreadable),
    }
}

/// Nothing follows `work`.
fn read_work(rest: &[&[u8]]) -> Result<Command, LineError>
    ensures { Reads result (Says (codes "work" ∷ texts rest.now)) }
{
    match rest {
        [] => Ok(Command::Work),
        _ => Err(LineError::Unreadable),
    }
}

/// Nothing follows `bound`.
fn read_bound(rest: &[&[u8]]) -> Result<Command, LineError>
    ensures { Reads result (Says (codes "bound" ∷ texts rest.now)) }
{
    match rest {
        [] => Ok(Command::Bound),
        _ => Err(LineError::Unreadable),
    }
}

/// The command of a keyword with the words that follow it.
fn read_arguments(alloc: Global, word: Keyword, rest: &[&[u8]]) -> Result<Command, LineError>
    ensures { Reads result (Says (keyword_text word ∷ texts rest.now)) }
{
    match word {
        Keyword::Mod => read_mod(alloc, rest),
        Keyword::New => read_new(alloc, rest),
        Keyword::Set => read_set(alloc, rest),
        Keyword::Run => read_run(alloc, rest),
        Keyword::Propagate => read_propagate(rest),
        Keyword::Get => read_get(alloc, rest),
        Keyword::Show => read_show(alloc, rest),
        Keyword::Blocks => read_blocks(rest),
        Keyword::Steps => read_steps(rest),
        Keyword::Work => read_work(rest),
        Keyword::Bound => read_bound(rest),
    }
}

/// What follows a first word that is no comment.
fn named(alloc: Global, first: &[u8], rest: &[&[u8]]) -> Result<Command, LineError>
    requires { IsFalse (lines.is_comment first.now) }
    ensures { Reads result (Says (first.now ∷ texts rest.now)) }
{
    match read_keyword(first) {
        Some(word) => read_arguments(alloc, word, rest),
        None => Err(LineError::Unreadable),
    }
}

/// Whether a word begins with `//`.
pub fn is_comment(word: &[u8]) -> bool
    ensures { result ≡ lines.is_comment word.now }
{
    match word {
        [first, second, ..] => *first == b'/' && *second == b'/',
        _ => false,
    }
}

/// The command that words are.
pub fn command(alloc: Global, words: &[&[u8]]) -> Result<Command, LineError>
    ensures { Reads result (Says (texts words.now)) }
{
    match words {
        [] => Ok(Command::Blank),
        [first, rest @ ..] => {
            if is_comment(first) {
                return Ok(Command::Blank);
            }
            named(alloc, first, rest)
        }
    }
}
