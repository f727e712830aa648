// Numbers in the words of the command line.

ghost use Rattle.std.specs.Prelude.{MatchOption};
ghost use Rattle.ceal_cli.specs.Numerals.{Spells, SpellsNone};

/// How many digits a number has at most.
const MOST_DIGITS: usize = 10;

/// The number that a text spells, if it spells one that lies between these two.
pub fn spelled(text: &str, least: u32, most: u32) -> Option<u32>
    ensures { MatchOption result (SpellsNone least most text.now)
        (λ number. Spells least most text.now number) }
{
    if MOST_DIGITS < text.len() || text.starts_with('+') {
        return None;
    }
    match text.parse::<u32>() {
        Ok(number) if least <= number && number <= most => Some(number),
        _ => None,
    }
}
