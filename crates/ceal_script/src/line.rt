// A line, and the command that it is.

ghost use Rattle.std.specs.Prelude.{◌≡◌, ◌⊎◌, List, ℕ, IfOk, IsErrOf, Ok, Err};
ghost use Rattle.ceal_script.specs.Lines.{IsLineOf};
ghost use Rattle.ceal_script.specs.declared.command.Command.{Command as CommandOf};

use crate::command::Command;
use crate::forms::command;
use crate::line_error::LineError;
use crate::words::split_words;
use std::alloc::Global;

/// The command that a line is. The line has no line end, and a CR at its end is a byte like any other.
pub fn read_line(alloc: Global, line: &[u8]) -> Result<Command, LineError>
    ensures found { IfOk result (λ command. IsLineOf command line.now) }
    ensures all { (command : CommandOf) → IsLineOf command line.now
        → (result ≡ Ok command) ⊎ IsErrOf result LineError.Memory }
    ensures unreadable { IsErrOf result LineError.Unreadable → (command : CommandOf)
        → IsLineOf command line.now → ⊥ }
{
    let words = split_words(alloc, line)?;
    command(alloc, words.as_slice())
}

/// A line is one command's at most.
pub fn one_command()
    ensures { (line : List ℕ) (c d : CommandOf) → IsLineOf c line → IsLineOf d line → c ≡ d }
{}

/// A line is a command's, or no command's.
pub fn command_or_none()
    ensures { (line : List ℕ)
        → ((c : CommandOf) × IsLineOf c line) ⊎ ((c : CommandOf) → IsLineOf c line → ⊥) }
{}
