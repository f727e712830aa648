// Where comments end.

ghost use Rattle.std.specs.Prelude.{◌≡◌, ◌≤◌, length, ◌==◌, MatchOption, position};
ghost use Rattle.std.specs.List.{position_or_len};
ghost use Rattle.ceal_lex.specs.Characters.{LINE_FEED};
ghost use Rattle.ceal_lex.specs.Front.{IsNeverClosed, ClosesAt};

/// The place of the first LF.
fn line_end(text: &[u8]) -> Option<usize>
    ensures { result ≡ position (λ b. b == LINE_FEED) text.now }
{
    text.iter().position(|byte| *byte == b'\n')
}

/// The number of bytes before the end of the line.
pub fn line_length(text: &[u8]) -> usize
    ensures within { result ≤ length text.now }
    ensures first { result ≡ position_or_len (λ b. b == LINE_FEED) text.now }
{
    line_end(text).unwrap_or(text.len())
}

/// The number of bytes before the first `*/`.
pub fn comment_length(text: &[u8]) -> Option<usize>
    ensures { MatchOption result (IsNeverClosed text.now) (λ n. ClosesAt n text.now) }
{
    let mut at = 0;
    while at + 1 < text.len() {
        if text[at] == b'*' && text[at + 1] == b'/' {
            return Some(at);
        }
        at += 1;
    }
    None
}
