// The text of the parts of a record. What is written is in range, since it was read.

ghost use Rattle.std.specs.Prelude.{◌≡◌, ◌++◌, codes, OnOk};
ghost use Rattle.std.specs.Fmt.{decimal};
ghost use Rattle.ceal_dump.specs.DumpText.{block_text, place_text, word_text, words_text, shape_text, block_line};
ghost use Rattle.ceal_dump.specs.DumpText.{block_lines, key_text, item_line, item_lines};
ghost use Rattle.ceal_dump.specs.DumpText.{Small, SmallBlock, SmallPlace, SmallWord, SmallWords, SmallShape};
ghost use Rattle.ceal_dump.specs.DumpText.{SmallBlocks, SmallKey, SmallItem, SmallItems};

use ceal_base::forest::{Item, Key, UnitId};
use ceal_base::kind::Shape;
use ceal_base::memory::BlockWords;
use ceal_base::no_memory::NoMemory;
use ceal_base::text::Text;
use ceal_base::word::{BlockId, Place, Word};

fn put_block(out: &mut Text, block: BlockId) -> Result<(), NoMemory>
    ensures text { OnOk result (out.new ≡ out.old ++ block_text block) }
    ensures range { SmallBlock block }
{
    match block {
        BlockId::Input(n) => {
            out.append(b"i")?;
            out.append_number(n as usize)
        }
        BlockId::Core(n) => {
            out.append(b"c")?;
            out.append_number(n as usize)
        }
    }
}

fn put_place(out: &mut Text, place: Place) -> Result<(), NoMemory>
    ensures text { OnOk result (out.new ≡ out.old ++ place_text place) }
    ensures range { SmallPlace place }
{
    put_block(out, place.block)?;
    out.append(b".")?;
    out.append_number(place.field as usize)
}

fn put_word(out: &mut Text, word: Word) -> Result<(), NoMemory>
    ensures text { OnOk result (out.new ≡ out.old ++ word_text word) }
    ensures range { SmallWord word }
{
    match word {
        Word::Num(n) => out.append_signed(n),
        Word::Null => out.append(b"null"),
        Word::Block(block) => put_block(out, block),
        Word::At(place) => put_place(out, place),
    }
}

/// Words with a space before each.
pub fn put_words(out: &mut Text, words: &[Word]) -> Result<(), NoMemory>
    ensures text { OnOk result (out.new ≡ out.old ++ words_text words.now) }
    ensures range { OnOk result (SmallWords words.now) }
{
    let mut words = words;
    while let Some((word, more)) = words.split_first() {
        out.append(b" ")?;
        put_word(out, *word)?;
        words = more;
    }
    Ok(())
}

fn put_shape(out: &mut Text, shape: Shape) -> Result<(), NoMemory>
    ensures text { OnOk result (out.new ≡ out.old ++ shape_text shape) }
    ensures range { SmallShape shape }
{
    match shape {
        Shape::Struct(n) => {
            out.append(b"s")?;
            out.append_number(n as usize)
        }
        Shape::ModInt => out.append(b"i"),
        Shape::ModPtr(n) => {
            out.append(b"p")?;
            out.append_number(n as usize)
        }
    }
}

fn put_line(out: &mut Text, block: &BlockWords) -> Result<(), NoMemory>
    ensures text { OnOk result (out.new ≡ out.old ++ block_line block.now) }
    ensures range { OnOk result (SmallShape block.now.shape × SmallWords block.now.words) }
{
    put_shape(out, block.shape)?;
    put_words(out, block.items())?;
    out.append(b"\n")
}

/// The lines of blocks.
pub fn put_blocks(out: &mut Text, blocks: &[BlockWords]) -> Result<(), NoMemory>
    ensures text { OnOk result (out.new ≡ out.old ++ block_lines blocks.now) }
    ensures range { OnOk result (SmallBlocks blocks.now) }
{
    let mut blocks = blocks;
    while let Some((block, more)) = blocks.split_first() {
        put_line(out, block)?;
        blocks = more;
    }
    Ok(())
}

fn put_key(out: &mut Text, key: &Key) -> Result<(), NoMemory>
    ensures text { OnOk result (out.new ≡ out.old ++ key_text key.now) }
    ensures range { OnOk result (SmallKey key.now) }
{
    match key {
        Key::Init { function, args } => {
            out.append(b"f")?;
            out.append_number(*function as usize)?;
            put_words(out, args.items())
        }
        Key::ModInt => out.append(b"i"),
        Key::ModPtr(n) => {
            out.append(b"p")?;
            out.append_number(*n as usize)
        }
    }
}

/// The letter of an item, a modifiable and its content.
fn put_access(out: &mut Text, letter: &[u8], place: Place, value: Word) -> Result<(), NoMemory>
    ensures text { OnOk result (out.new
        ≡ out.old ++ letter.now ++ place_text place ++ codes " " ++ word_text value) }
    ensures range { SmallPlace place × SmallWord value }
{
    out.append(letter)?;
    put_place(out, place)?;
    out.append(b" ")?;
    put_word(out, value)
}

/// The unit of a read, its variable and its arguments.
fn put_unit(out: &mut Text, unit: UnitId, var: u32, args: &[Word]) -> Result<(), NoMemory>
    ensures text { OnOk result (out.new
        ≡ out.old ++ codes " u" ++ decimal unit.0 ++ codes " v" ++ decimal var
        ++ words_text args.now) }
    ensures range { OnOk result (Small unit.0 × Small var × SmallWords args.now) }
{
    out.append(b" u")?;
    out.append_number(unit.0 as usize)?;
    out.append(b" v")?;
    out.append_number(var as usize)?;
    put_words(out, args)
}

fn put_item(out: &mut Text, item: &Item) -> Result<(), NoMemory>
    ensures text { OnOk result (out.new ≡ out.old ++ item_line item.now) }
    ensures range { OnOk result (SmallItem item.now) }
{
    match item {
        Item::Step => out.append(b"s\n"),
        Item::Alloc { block, key } => {
            out.append(b"a ")?;
            put_block(out, *block)?;
            out.append(b" ")?;
            put_key(out, key)?;
            out.append(b"\n")
        }
        Item::Write { place, value } => {
            put_access(out, b"w ", *place, *value)?;
            out.append(b"\n")
        }
        Item::Read {
            place,
            value,
            unit,
            var,
            args,
        } => {
            put_access(out, b"r ", *place, *value)?;
            put_unit(out, *unit, *var, args.items())?;
            out.append(b"\n")
        }
        Item::End => out.append(b"e\n"),
    }
}

/// The lines of items.
pub fn put_items(out: &mut Text, items: &[Item]) -> Result<(), NoMemory>
    ensures text { OnOk result (out.new ≡ out.old ++ item_lines items.now) }
    ensures range { OnOk result (SmallItems items.now) }
{
    let mut items = items;
    while let Some((item, more)) = items.split_first() {
        put_item(out, item)?;
        items = more;
    }
    Ok(())
}
