// Recorded traces, their texts and their verdicts. The dumps were worked out by hand from the rules of the language and
// of the text.

ghost use Rattle.std.specs.Prelude.{◌≡◌, true};
ghost use Rattle.ceal_code.specs.Valid.{valid};

use ceal_base::kind::Shape;
use ceal_base::memory::BlockWords;
use ceal_base::no_memory::NoMemory;
use ceal_base::recorded::Record;
use ceal_base::text::Text;
use ceal_base::word::Word;
use ceal_code::code::Code;
use ceal_dump::read::{DumpError, read_dump};
use ceal_dump::write::dump_text;
use ceal_samples::inputs::at;
use ceal_samples::programs::{INC, compiled};
use ceal_samples::told::told;
use ceal_traceck::check::check_trace;
use ceal_traceck::verdict::Verdict;
use std::alloc::Global;
use std::test::Fail;

/// The increment of 4.
pub const INCREMENT: &str = "ceal-trace 1
inputs 2
i 4
i 0
run 0 i0.0 i1.0
trace 5
s
r i0.0 4 u1 v2 i1.0
s
w i1.0 5
e
memory 2 0
i 4
i 5
end
";

/// The record whose dump this is, if it is one.
fn read(alloc: Global, dump: &[u8]) -> Result<Option<Record>, NoMemory> {
    match read_dump(alloc, dump) {
        Ok(kept) => Ok(Some(kept)),
        Err(DumpError::Memory) => Err(NoMemory),
        Err(DumpError::Unreadable) => Ok(None),
    }
}

/// The dump of the record whose dump this is.
fn written(alloc: Global, dump: &[u8]) -> Result<Option<Text>, NoMemory> {
    match read_dump(alloc, dump) {
        Ok(kept) => {
            let text = dump_text(alloc, &kept);
            drop(kept);
            Ok(Some(text?))
        }
        Err(DumpError::Memory) => Err(NoMemory),
        Err(DumpError::Unreadable) => Ok(None),
    }
}

/// Whether the blocks are modifiables that hold these numbers.
fn are_numbers(blocks: &[BlockWords], numbers: &[i64]) -> bool {
    let Some((block, blocks)) = blocks.split_first() else {
        return numbers.is_empty();
    };
    let Some((n, numbers)) = numbers.split_first() else {
        return false;
    };
    block.shape == Shape::ModInt
        && block.items() == [Word::Num(*n)].as_slice()
        && are_numbers(blocks, numbers)
}

/// The verdict on a dump; None where it is the dump of no record.
fn verdict(alloc: Global, code: &Code, dump: &str) -> Result<Option<Verdict>, NoMemory>
    requires { valid code.now ≡ true }
{
    match read(alloc, dump.as_bytes())? {
        None => Ok(None),
        Some(kept) => {
            let verdict = check_trace(alloc, code, &kept);
            drop(kept);
            Ok(Some(verdict?))
        }
    }
}

/// The verdict on a dump for a source.
fn judged(alloc: Global, source: &[u8], dump: &str) -> Result<Option<Verdict>, Fail> {
    let program = compiled(alloc, source)?;
    let verdict = verdict(alloc, &program.code, dump);
    drop(program);
    Ok(verdict?)
}

/// Whether the record is that of the increment of 4.
fn is_increment(kept: &Record) -> bool {
    kept.function == 0
        && kept.args.items() == [at(0), at(1)].as_slice()
        && are_numbers(kept.inputs.items(), &[4, 0])
        && are_numbers(kept.memory.inputs.items(), &[4, 5])
        && kept.memory.items().is_empty()
}

/// The items of the record whose dump this is, as text.
fn told_items(alloc: Global, dump: &[u8]) -> Result<Option<String>, NoMemory> {
    match read(alloc, dump)? {
        None => Ok(None),
        Some(kept) => {
            let text = told(alloc, kept.forest.items());
            drop(kept);
            Ok(Some(text?))
        }
    }
}

#[test]
fn a_dump_is_read(rt: HostRuntime) -> Result<(), Fail> {
    let alloc = rt.alloc();
    let kept = read(alloc, INCREMENT.as_bytes()).expect(&rt, "memory");
    assert!(rt; kept.as_ref().is_some_and(is_increment));
    drop(kept);
    let items = told_items(alloc, INCREMENT.as_bytes()).expect(&rt, "memory");
    assert_eq!(rt;
        items.as_deref(),
        Some(".v2 = read(in0.0) u1(&in1.0): 4\n.in1.0 := 5\nend\n")
    );
    Ok(())
}

#[test]
fn a_dump_is_written(rt: HostRuntime) -> Result<(), Fail> {
    let text = written(rt.alloc(), INCREMENT.as_bytes()).expect(&rt, "memory");
    match &text {
        Some(text) => assert!(rt; text.items() == INCREMENT.as_bytes()),
        None => panic!(rt; "it is unreadable"),
    }
    drop(text);
    Ok(())
}

/// The verdict on a record of the increment: with this function, this content that is read, this one that is written,
/// and this one that the memory has.
fn increment(
    alloc: Global,
    function: &str,
    read: &str,
    write: &str,
    after: &str,
) -> Result<Option<Verdict>, Fail> {
    let text = format!(in alloc;
        "ceal-trace 1
inputs 2
i 4
i 0
run {function} i0.0 i1.0
trace 5
s
r i0.0 {read} u1 v2 i1.0
s
w i1.0 {write}
e
memory 2 0
i 4
i {after}
end
"
    )?;
    judged(alloc, INC, &text)
}

#[test]
fn each_verdict_comes_once(rt: HostRuntime) -> Result<(), Fail> {
    let alloc = rt.alloc();
    for (function, read, write, after, verdict) in [
        ("0", "4", "5", "5", Verdict::Yes),
        ("7", "4", "5", "5", Verdict::NoFit),
        ("0", "4", "6", "6", Verdict::NotReplay),
        ("0", "3", "4", "4", Verdict::NotHonest),
        ("0", "4", "5", "6", Verdict::MemoryDiffers),
    ] {
        let found = increment(alloc, function, read, write, after)?;
        assert_eq!(rt; found, Some(verdict));
    }
    Ok(())
}

#[test]
fn other_numerals_are_no_dump(rt: HostRuntime) -> Result<(), Fail> {
    let alloc = rt.alloc();
    // a leading zero, minus zero, a number that is too large, none, two spaces, and a carriage return
    for (read, write, after) in [
        ("04", "5", "5"),
        ("-0", "1", "1"),
        ("9223372036854775808", "5", "5"),
        ("", "5", "5"),
        (" 4", "5", "5"),
        ("4", "5\r", "5"),
    ] {
        let found = increment(alloc, "0", read, write, after)?;
        assert_eq!(rt; found, None, "at {read}");
    }
    Ok(())
}

/// Whether this is the dump of a record.
fn is_dump(alloc: Global, bytes: &[u8]) -> Result<bool, NoMemory> {
    let kept = read(alloc, bytes)?;
    let is_some = kept.is_some();
    drop(kept);
    Ok(is_some)
}

#[test]
fn a_cut_dump_is_none(rt: HostRuntime) -> Result<(), Fail> {
    let alloc = rt.alloc();
    let bytes = INCREMENT.as_bytes();
    for length in 0..bytes.len() {
        assert!(rt; !is_dump(alloc, &bytes[..length])?);
    }
    let longer = format!(in alloc; "{INCREMENT}\n").expect(&rt, "memory");
    assert!(rt; !is_dump(alloc, longer.as_bytes()).expect(&rt, "memory"));
    Ok(())
}

/// Makes two modifiables, and reads the second.
const TWO: &[u8] = b"
ceal two(mod int *o) {
  mod int *s = modref int();
  mod int *t = modref int();
  write(s, -3);
  write(t, 4);
  int x = read(t);
  write(o, x);
}
%%
";

/// The verdict on its record, where the blocks have the numbers 7 and 2, with these contents of theirs.
fn two(alloc: Global, first: &str, second: &str) -> Result<Option<Verdict>, Fail> {
    let text = format!(in alloc;
        "ceal-trace 1
inputs 1
i 9
run 0 i0.0
trace 13
s
a c7 i
s
a c2 i
s
w c7.0 -3
s
w c2.0 4
s
r c2.0 4 u1 v3 i0.0
s
w i0.0 4
e
memory 1 2
i 4
i {first}
i {second}
end
"
    )?;
    judged(alloc, TWO, &text)
}

#[test]
fn core_blocks_stand_in_the_order_of_their_allocations(rt: HostRuntime) -> Result<(), Fail> {
    let alloc = rt.alloc();
    let in_order = two(alloc, "-3", "4")?;
    assert_eq!(rt; in_order, Some(Verdict::Yes));
    let by_number = two(alloc, "4", "-3")?;
    assert_eq!(rt; by_number, Some(Verdict::MemoryDiffers));
    Ok(())
}
