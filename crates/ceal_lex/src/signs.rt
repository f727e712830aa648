// The signs.

ghost use Rattle.std.specs.Prelude.{◌≡◌, ◌≢◌, ◌∷◌, [], ◌++◌, List, ℕ, IfSome, IfNone};
ghost use Rattle.ceal_lex.specs.Spelling.{sign_text};
ghost use Rattle.ceal_lex.specs.Front.{IsLongestSign};
ghost use Rattle.ceal_lex.specs.declared.token.Sign.{Sign as SignOf};

use crate::token::Sign;

/// The sign of two bytes, if they are one.
fn long_sign(first: u8, second: u8) -> Option<Sign>
    ensures spelled { IfSome result (λ s. sign_text s ≡ first ∷ second ∷ []) }
    ensures none { IfNone result ((s : SignOf) → sign_text s ≢ first ∷ second ∷ []) }
{
    match (first, second) {
        (b'-', b'>') => Some(Sign::Arrow),
        (b'&', b'&') => Some(Sign::AndAnd),
        (b'|', b'|') => Some(Sign::BarBar),
        (b'=', b'=') => Some(Sign::EqualsEquals),
        (b'!', b'=') => Some(Sign::BangEquals),
        (b'<', b'=') => Some(Sign::LessEquals),
        (b'>', b'=') => Some(Sign::GreaterEquals),
        _ => None,
    }
}

/// The sign of one byte, if it is one.
fn short_sign(first: u8) -> Option<Sign>
    ensures spelled { IfSome result (λ s. sign_text s ≡ first ∷ []) }
    ensures none { IfNone result ((s : SignOf) → sign_text s ≢ first ∷ []) }
{
    match first {
        b'<' => Some(Sign::Less),
        b'>' => Some(Sign::Greater),
        b'+' => Some(Sign::Plus),
        b'-' => Some(Sign::Minus),
        b'*' => Some(Sign::Star),
        b'/' => Some(Sign::Slash),
        b'%' => Some(Sign::Percent),
        b'!' => Some(Sign::Bang),
        b'&' => Some(Sign::Ampersand),
        b'=' => Some(Sign::Equals),
        b'(' => Some(Sign::LeftParenthesis),
        b')' => Some(Sign::RightParenthesis),
        b'{' => Some(Sign::LeftBrace),
        b'}' => Some(Sign::RightBrace),
        b',' => Some(Sign::Comma),
        b';' => Some(Sign::Semicolon),
        b'[' => Some(Sign::LeftBracket),
        b']' => Some(Sign::RightBracket),
        _ => None,
    }
}

/// The longest sign at the front, and how many bytes it has.
pub fn longest_sign(bytes: &[u8]) -> Option<(Sign, usize)>
    ensures longest { IfSome result (λ found. IsLongestSign found.0 found.1 bytes.now) }
    ensures none { IfNone result ((s : SignOf) (rest : List ℕ) → bytes.now ≢ sign_text s ++ rest) }
{
    match bytes {
        [] => None,
        [first] => Some((short_sign(*first)?, 1)),
        [first, second, ..] => match long_sign(*first, *second) {
            Some(sign) => Some((sign, 2)),
            None => Some((short_sign(*first)?, 1)),
        },
    }
}
