// The items of a trace as text. A step is a dot; each other item ends a line, the commands in the form of a listing:
//
// ..#0 = init 0(in2)                    a block by an initialiser with its arguments, or `mod int`, or `mod struct 0`
//     .in1.0 := #0                          a write of a field
//     .v2 = read(in0.0) u1(&in1.0): 4       a read: the variable, the place, the unit, the arguments, and the value
//     end
//
// `in2` is an input block, `#0` a core block, `in1.0` a field, and `&in1.0` a pointer to a modifiable.

use ceal_base::forest::{Item, Key};
use ceal_base::word::{BlockId, Place, Word};
use ceal_base::words::Words;
use std::alloc::{AllocError, Global};
use std::fmt::Write;

fn tell_block(text: &mut String, block: BlockId) -> Result<(), AllocError> {
    match block {
        BlockId::Input(n) => write!(text, "in{n}"),
        BlockId::Core(n) => write!(text, "#{n}"),
    }
}

fn tell_place(text: &mut String, place: Place) -> Result<(), AllocError> {
    tell_block(text, place.block)?;
    let field = place.field;
    write!(text, ".{field}")
}

fn tell_word(text: &mut String, word: Word) -> Result<(), AllocError> {
    match word {
        Word::Num(n) => write!(text, "{n}"),
        Word::Null => text.push_str("null"),
        Word::Block(block) => tell_block(text, block),
        Word::At(place) => {
            text.push_str("&")?;
            tell_place(text, place)
        }
    }
}

/// The words in parentheses.
fn tell_words(text: &mut String, words: &Words) -> Result<(), AllocError> {
    text.push_str("(")?;
    let mut between = "";
    for word in words.items() {
        text.push_str(between)?;
        tell_word(text, *word)?;
        between = ", ";
    }
    text.push_str(")")
}

fn tell_key(text: &mut String, key: &Key) -> Result<(), AllocError> {
    match key {
        Key::Init { function, args } => {
            write!(text, "init {function}")?;
            tell_words(text, args)
        }
        Key::ModInt => text.push_str("mod int"),
        Key::ModPtr(shape) => write!(text, "mod struct {shape}"),
    }
}

fn tell_read(
    text: &mut String,
    place: Place,
    unit: u32,
    var: u32,
    args: &Words,
) -> Result<(), AllocError> {
    write!(text, "v{var} = read(")?;
    tell_place(text, place)?;
    write!(text, ") u{unit}")?;
    tell_words(text, args)?;
    text.push_str(": ")
}

fn tell_item(text: &mut String, item: &Item) -> Result<(), AllocError> {
    match item {
        Item::Step => return text.push_str("."),
        Item::Alloc { block, key } => {
            tell_block(text, *block)?;
            text.push_str(" = ")?;
            tell_key(text, key)?;
        }
        Item::Write { place, value } => {
            tell_place(text, *place)?;
            text.push_str(" := ")?;
            tell_word(text, *value)?;
        }
        Item::Read {
            place,
            value,
            unit,
            var,
            args,
        } => {
            tell_read(text, *place, unit.0, *var, args)?;
            tell_word(text, *value)?;
        }
        Item::End => text.push_str("end")?,
    }
    text.push_str("\n")
}

/// The items as text.
pub fn told(alloc: Global, items: &[Item]) -> Result<String, AllocError> {
    let mut text = String::new(alloc);
    for item in items {
        tell_item(&mut text, item)?;
    }
    Ok(text)
}

/// The same with the work below.
pub fn told_with_work(alloc: Global, items: &[Item], work: u32) -> Result<String, AllocError> {
    let mut text = told(alloc, items)?;
    writeln!(text, "work {work}")?;
    Ok(text)
}
