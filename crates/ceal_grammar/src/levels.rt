// Levels of operators.

ghost use Rattle.std.specs.Prelude.{◌≡◌, ◌≤◌};
ghost use Rattle.ceal_grammar.specs.Grammar.{level as level_of_operator};

use ceal_base::operators::Binary;

/// The level of an operator with two operands: those of a higher one bind first.
pub fn binary_level(operator: Binary) -> u8
    ensures value { result ≡ level_of_operator operator }
    ensures low { result ≤ 6 }
{
    match operator {
        Binary::Or => 1,
        Binary::And => 2,
        Binary::Same => 3,
        Binary::Differ => 3,
        Binary::Less => 4,
        Binary::LessEq => 4,
        Binary::More => 4,
        Binary::MoreEq => 4,
        Binary::Add => 5,
        Binary::Sub => 5,
        Binary::Mul => 6,
        Binary::Div => 6,
        Binary::Rem => 6,
        Binary::Pick(_) => 0,
    }
}
