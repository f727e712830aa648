// The fuel of a run.

ghost use Rattle.std.specs.Prelude.{MatchOption, option_map};
ghost use Rattle.ceal_cli.specs.CommandLine.{IsFuel, HasNoFuelIn};

use crate::numerals::spelled;
use ceal_session::session::LARGEST_FUEL;

/// How many steps a run may take where the words do not say it.
pub const DEFAULT_FUEL: u32 = 1_000_000;

/// The fuel of a run with this value of `--fuel`.
pub fn fuel(option: Option<&str>) -> Option<u32>
    ensures { MatchOption result (HasNoFuelIn (option_map (λ text. text.now) option.entry))
        (λ fuel. IsFuel (option_map (λ text. text.now) option.entry) fuel) }
{
    match option {
        None => Some(DEFAULT_FUEL),
        Some(text) => spelled(text, 1, LARGEST_FUEL),
    }
}
