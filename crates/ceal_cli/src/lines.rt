// The lines of a script.

ghost use Rattle.std.specs.Prelude.{◌≡◌, ◌∷◌, [], ◌++◌, ◌==◌, position, IfSome, MatchOption, if◌then◌else◌};
ghost use Rattle.std.specs.Option.{option_copied};
ghost use Rattle.ceal_lex.specs.Parts.{source_of};
ghost use Rattle.ceal_cli.specs.Lines.{script_of, script_lines, pieces_of, pieces_left, without_return as no_return};

use ceal_lex::parts::Split;
use std::marker::Model;

/// The source part of an input.
pub fn source<'a>(input: &'a [u8], part: &Split) -> &'a [u8]
    ensures { result.now ≡ source_of input.now part.now }
{
    let to = part.source.to as usize;
    if to < input.len() {
        &input[..to]
    } else {
        input
    }
}

/// The script part of an input.
pub fn script<'a>(input: &'a [u8], part: &Split) -> &'a [u8]
    ensures { result.now ≡ script_of input.now part.now }
{
    let from = part.script.from as usize;
    if from < input.len() {
        &input[from..]
    } else {
        &[]
    }
}

// Where the first line feed is.
fn line_end(text: &[u8]) -> Option<usize>
    ensures { result ≡ position (λ b. b == 10) text.now }
{
    text.iter().position(|b| *b == b'\n')
}

/// The text before the first line feed, and the text after it, where there is a line feed.
fn cut_line(text: &[u8]) -> (&[u8], Option<&[u8]>)
    ensures lines { pieces_of text.now ≡ result.0.now ∷ pieces_left (option_copied result.1) }
    ensures whole { IfSome result.1 (λ rest. text.now ≡ result.0.now ++ 10 ∷ rest.now) }
{
    match line_end(text) {
        Some(at) => (&text[..at], Some(&text[at + 1..])),
        None => (text, None),
    }
}

/// The line of a piece between line feeds: where a line feed follows, one CR before it is dropped.
fn line(piece: &[u8], ended: bool) -> &[u8]
    ensures { result.now ≡ (if ended then no_return piece.now else piece.now) }
{
    if ended { without_return(piece) } else { piece }
}

fn without_return(piece: &[u8]) -> &[u8]
    ensures { result.now ≡ no_return piece.now }
{
    if !piece.is_empty() && piece[piece.len() - 1] == b'\r' {
        return &piece[..piece.len() - 1];
    }
    piece
}

/// The lines of a script, from one on, which contracts see as a list.
#[derive(Drop)]
pub struct ScriptLines<'a> {
    rest: Option<&'a [u8]>,
}

impl<'a> Model for ScriptLines<'a> {
    ghost use Rattle.std.specs.Option.{option_copied};
    ghost use Rattle.std.specs.Prelude.{List, ℕ};
    ghost use Rattle.ceal_cli.specs.Lines.{lines_left};

    ghost Value = { List (List ℕ) };

    ghost view = { λ s. lines_left (option_copied s.rest) };
}

impl<'a> ScriptLines<'a> {
    /// All of them.
    pub fn new(script: &'a [u8]) -> ScriptLines<'a>
        ensures { result ≡ script_lines script.now }
    {
        ScriptLines { rest: Some(script) }
    }

    /// The same lines once more.
    pub fn copied(&self) -> ScriptLines<'a>
        ensures { result ≡ self.now }
    {
        ScriptLines { rest: self.rest }
    }

    /// Takes the first line that is left.
    pub fn next(&mut self) -> Option<&'a [u8]>
        ensures { MatchOption result ((self.old ≡ []) × (self.new ≡ []))
            (λ line. self.old ≡ line.now ∷ self.new) }
    {
        let Some(rest) = self.rest else {
            return None;
        };
        let (piece, after) = cut_line(rest);
        self.rest = after;
        Some(line(piece, after.is_some()))
    }
}
