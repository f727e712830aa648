// The line that tells a fault.

ghost use Rattle.std.specs.Prelude.{◌≡◌, ◌++◌, IfOk};
ghost use Rattle.ceal_compile.specs.FaultLine.{before_fault, code_text, fault_text, meaning_text};
ghost use Rattle.ceal_compile.specs.FaultLine.{fault_line as line_of};

use crate::position::{Position, position_after};
use ceal_base::fault::{Fault, FaultCode};
use ceal_base::no_memory::NoMemory;
use ceal_base::text::Text;
use std::alloc::Global;

fn code(code: FaultCode) -> &'static str
    ensures { result.now ≡ code_text code }
{
    match code {
        FaultCode::S1 => "S1",
        FaultCode::S2 => "S2",
        FaultCode::S3 => "S3",
        FaultCode::S4 => "S4",
        FaultCode::S5 => "S5",
        FaultCode::S6 => "S6",
        FaultCode::N1 => "N1",
        FaultCode::N2 => "N2",
        FaultCode::T1 => "T1",
        FaultCode::T2 => "T2",
        FaultCode::T3 => "T3",
        FaultCode::T4 => "T4",
        FaultCode::T5 => "T5",
        FaultCode::U1 => "U1",
        FaultCode::U2 => "U2",
        FaultCode::U3 => "U3",
        FaultCode::U4 => "U4",
        FaultCode::U5 => "U5",
        FaultCode::U6 => "U6",
        FaultCode::L1 => "L1",
    }
}

fn meaning(code: FaultCode) -> &'static str
    ensures { result.now ≡ meaning_text code }
{
    match code {
        FaultCode::S1 => "bad character",
        FaultCode::S2 => "number too large",
        FaultCode::S3 => "unexpected token",
        FaultCode::S4 => "nesting too deep",
        FaultCode::S5 => "unexpected end",
        FaultCode::S6 => "too many items",
        FaultCode::N1 => "unknown name",
        FaultCode::N2 => "name defined twice",
        FaultCode::T1 => "kinds differ",
        FaultCode::T2 => "wrong number of arguments",
        FaultCode::T3 => "not a modifiable",
        FaultCode::T4 => "not a struct",
        FaultCode::T5 => "no such field",
        FaultCode::U1 => "field written outside its initialiser",
        FaultCode::U2 => "statement not allowed in an initialiser",
        FaultCode::U3 => "self used otherwise",
        FaultCode::U4 => "initialiser called",
        FaultCode::U5 => "alloc by a core function",
        FaultCode::U6 => "not in a loop",
        FaultCode::L1 => "too many blocks",
    }
}

/// The bytes of the input before the fault.
fn before(input: &[u8], fault: Fault) -> &[u8]
    ensures { result.now ≡ before_fault input.now fault }
{
    let from = fault.span.from as usize;
    if from < input.len() {
        &input[..from]
    } else {
        input
    }
}

/// The line of a fault at this position.
fn text(alloc: Global, fault_code: FaultCode, position: Position) -> Result<Text, NoMemory>
    ensures { IfOk result (λ text. text ≡ fault_text fault_code position.line position.column) }
{
    let mut text = Text::from_slice(alloc, b"fault ")?;
    text.append_str(code(fault_code))?;
    text.append_str(" at ")?;
    text.append_number(position.line)?;
    text.append_str(":")?;
    text.append_number(position.column)?;
    text.append_str(": ")?;
    text.append_str(meaning(fault_code))?;
    text.append_str("\n")?;
    Ok(text)
}

/// The line of a fault, with its line feed: `fault CODE at LINE:COLUMN: MEANING`. Line and column are those of the
/// first byte of the fault's span, which is a byte of the input or its end.
pub fn fault_line(alloc: Global, input: &[u8], fault: Fault) -> Result<Text, NoMemory>
    ensures text { IfOk result (λ text. text ≡ line_of input.now fault) }
{
    text(alloc, fault.code, position_after(before(input, fault)))
}
