// Where an input is split.

ghost use Rattle.std.specs.Prelude.{◌≡◌, length, ◌<◌, ◌^◌, ◌↔◌, IsTrue, List, ℕ};
ghost use Rattle.ceal_lex.specs.Parts.{IsMark, IsSplit};
ghost use Rattle.ceal_lex.specs.declared.parts.Split.{Split as SplitRecord};

use crate::comments::line_length;
use crate::parts::Split;
use ceal_base::fault::Span;

/// Whether the text of a line is `%%`, or `%%` and one CR.
fn is_mark(text: &[u8]) -> bool
    ensures { IsTrue result ↔ IsMark text.now }
{
    matches!(text, b"%%" | b"%%\r")
}

/// The parts of an input. The line between them is the first whose bytes are `%%`, or `%%` and one CR.
/// Comments are not looked at here.
pub fn split(input: &[u8]) -> Split
    requires { length input.now < 2 ^ 32 }
    ensures parts { IsSplit input.now result }
{
    let end = input.len() as u32;
    let mut start = 0;
    while start < input.len() {
        let rest = &input[start..];
        let length = line_length(rest);
        if is_mark(&rest[..length]) {
            let script = (start + length + 1).min(input.len());
            return Split {
                source: Span {
                    from: 0,
                    to: start as u32,
                },
                marked: true,
                script: Span {
                    from: script as u32,
                    to: end,
                },
            };
        }
        start += length + 1;
    }
    Split {
        source: Span { from: 0, to: end },
        marked: false,
        script: Span { from: end, to: end },
    }
}

/// An input has one split.
pub fn one_split()
    ensures { (input : List ℕ) (p q : SplitRecord) → IsSplit input p → IsSplit input q → p ≡ q }
{}

/// Each input that is short enough has one.
pub fn some_split()
    ensures { (input : List ℕ) → length input < 2 ^ 32 → (p : SplitRecord) × IsSplit input p }
{}
