// The place of a byte in a text.

ghost use Rattle.std.specs.Prelude.{◌≡◌, ◌+◌, ◌<◌, ◌≤◌, ◌==◌, ◌^◌, if◌then◌else◌};
ghost use Rattle.ceal_compile.specs.FaultLine.{line_after, column_after};

/// A line and a column, both from 1 on; a column counts bytes.
#[derive(Clone, Copy, PartialEq, Eq, Debug)]
pub struct Position {
    pub line: usize,
    pub column: usize,
}

/// The position after one byte more.
fn after_byte(position: Position, byte: u8) -> Position
    requires line { position.line + 1 < 2 ^ 64 }
    requires column { position.column + 1 < 2 ^ 64 }
    ensures line { result.line ≡ (if byte == 10 then 1 + position.line else position.line) }
    ensures column { result.column ≡ (if byte == 10 then 1 else 1 + position.column) }
    ensures few_lines { result.line ≤ position.line + 1 }
    ensures few_columns { result.column ≤ position.column + 1 }
{
    if byte == b'\n' {
        Position {
            line: position.line + 1,
            column: 1,
        }
    } else {
        Position {
            line: position.line,
            column: position.column + 1,
        }
    }
}

/// The position of what follows the bytes.
pub fn position_after(before: &[u8]) -> Position
    ensures line { result.line ≡ line_after before.now }
    ensures column { result.column ≡ column_after before.now }
{
    let mut position = Position { line: 1, column: 1 };
    for byte in before {
        position = after_byte(position, *byte);
    }
    position
}
