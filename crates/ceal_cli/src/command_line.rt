// The command line, as it is described to its parser.

ghost use Rattle.std.specs.Prelude.{◌≡◌, IfOk};
ghost use Rattle.clap.specs.Words.{app_of};
ghost use Rattle.ceal_cli.specs.CommandLine.{ceal_command};

use clap::{Arg, Command};
use std::alloc::{AllocError, Global};

/// A simple command that has the option `--fuel` with one value, and any number of words.
pub fn command_line<'a>(alloc: Global) -> Result<Command<'a>, AllocError>
    ensures { IfOk result (λ command. app_of command ≡ ceal_command) }
{
    let fuel = Arg::new(alloc, "fuel").long("fuel");
    let plain = Arg::new(alloc, "words").num_args(0..);
    let command = Command::new(alloc, "ceal")
        .no_binary_name(true)
        .disable_help_flag(true)
        .disable_version_flag(true);
    command.arg(fuel)?.arg(plain)
}
