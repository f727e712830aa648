// One round over the blocks.

ghost use Rattle.std.specs.Prelude.{◌≡◌, ◌≢◌, ◌<◌, ◌≤◌, ◌^◌, ◌||◌, ◌&&◌, not, true, false, ℕ, length, slice_get};
ghost use Rattle.std.specs.Prelude.{slice_set, [], Some, IfOk, OnOk};
ghost use Rattle.ceal_flow.specs.Live.{assigns, stmt_assigns};
ghost use Rattle.ceal_flow.specs.Sets.{is_in, is_that, set_at, IsAscending};
ghost use Rattle.ceal_live.specs.Rounds.{comes, IsClosed, Underway, room};

use ceal_base::no_memory::NoMemory;
use ceal_base::typed::TypedStmt;
use ceal_flow::block::GraphBlock;
use ceal_flow::live_set::LiveSet;
use std::alloc::Global;
use std::mem;

fn assigned(s: &TypedStmt) -> Option<u32>
    ensures { result ≡ stmt_assigns s.now }
{
    match s {
        TypedStmt::Declare(_, n, _, _) => Some(*n),
        TypedStmt::Assign(_, n, _) => Some(*n),
        TypedStmt::SetField(..) => None,
        TypedStmt::Write(..) => None,
        TypedStmt::Call(..) => None,
        TypedStmt::If(..) => None,
        TypedStmt::While(..) => None,
        TypedStmt::Return(..) => None,
        TypedStmt::Break(..) => None,
        TypedStmt::Continue(..) => None,
    }
}

/// Adds what is live at the block of this number but one variable, and says whether any was added.
fn join_at(
    set: &mut LiveSet,
    sets: &[LiveSet],
    at: u32,
    except: Option<u32>,
) -> Result<bool, NoMemory>
    ensures ok { OnOk result
        ((w : ℕ)
        → is_in w set.new
        ≡ (is_in w set.old || (is_in w (set_at sets.now at) && not (is_that except w)))) }
    ensures same { IfOk result (λ changed. changed ≡ false → set.new ≡ set.old) }
    ensures more { IfOk result (λ changed. changed ≡ true → length set.old < length set.new) }
    ensures ascending { IsAscending set.old → IsAscending set.new }
    ensures few { length set.old ≤ 2 ^ 32 → length set.new ≤ 2 ^ 32 }
{
    match sets.get(at as usize) {
        Some(other) => {
            let changed = set.join(other, except)?;
            Ok(changed)
        }
        None => Ok(false),
    }
}

/// Adds what reaches a block from those to which it jumps, and says whether any was added.
fn join_jumps(set: &mut LiveSet, sets: &[LiveSet], block: &GraphBlock) -> Result<bool, NoMemory>
    ensures ok { OnOk result
        ((w : ℕ) → is_in w set.new ≡ (is_in w set.old || comes sets.now block.now w)) }
    ensures same { IfOk result (λ changed. changed ≡ false → set.new ≡ set.old) }
    ensures more { IfOk result (λ changed. changed ≡ true → length set.old < length set.new) }
    ensures ascending { IsAscending set.old → IsAscending set.new }
    ensures few { length set.old ≤ 2 ^ 32 → length set.new ≤ 2 ^ 32 }
{
    match block {
        GraphBlock::Test { yes, no, .. } => {
            let first = join_at(set, sets, *yes, None)?;
            let second = join_at(set, sets, *no, None)?;
            Ok(first | second)
        }
        GraphBlock::Act { stmt, next } => {
            let changed = join_at(set, sets, *next, assigned(stmt))?;
            Ok(changed)
        }
        GraphBlock::Done => Ok(false),
        GraphBlock::Unreached => Ok(false),
    }
}

/// Takes the set of a block out, and leaves an empty one there.
fn take_set(alloc: Global, sets: &mut Vec<LiveSet>, at: usize) -> LiveSet
    requires { at < length sets.old.items }
    ensures set { result ≡ set_at sets.old.items at }
    ensures left { sets.new.items ≡ slice_set sets.old.items at [] }
{
    mem::replace(&mut sets[at], LiveSet::empty(alloc))
}

fn put_set(sets: &mut Vec<LiveSet>, at: usize, set: LiveSet)
    requires { at < length sets.old.items }
    ensures { sets.new.items ≡ slice_set sets.old.items at set }
{
    sets[at] = set;
}

/// Brings the set of a block up to date, and says whether it has grown.
fn update(
    alloc: Global,
    sets: &mut Vec<LiveSet>,
    blocks: &[GraphBlock],
    at: usize,
) -> Result<bool, NoMemory>
    requires within { at < length blocks.now }
    requires underway { Underway blocks.now sets.old.items }
    ensures underway { OnOk result (Underway blocks.now sets.new.items) }
    ensures same { IfOk result (λ changed. changed ≡ false → sets.new.items ≡ sets.old.items) }
    ensures closed { IfOk result
        (λ changed. changed ≡ false → IsClosed blocks.now sets.new.items at) }
    ensures more { IfOk result
        (λ changed. changed ≡ true → room sets.new.items < room sets.old.items) }
{
    let mut set = take_set(alloc, sets, at);
    let changed = join_jumps(&mut set, sets.as_slice(), &blocks[at])?;
    put_set(sets, at, set);
    Ok(changed)
}

/// Brings the sets of all blocks up to date, the last first, and says whether any has grown.
pub fn go_round(
    alloc: Global,
    sets: &mut Vec<LiveSet>,
    blocks: &[GraphBlock],
) -> Result<bool, NoMemory>
    requires underway { Underway blocks.now sets.old.items }
    ensures underway { OnOk result (Underway blocks.now sets.new.items) }
    ensures closed { IfOk result
        (λ changed. changed ≡ false → (b : ℕ) → IsClosed blocks.now sets.new.items b) }
    ensures more { IfOk result
        (λ changed. changed ≡ true → room sets.new.items < room sets.old.items) }
{
    let mut changed = false;
    for at in (0..blocks.len()).rev() {
        let more = update(alloc, sets, blocks, at)?;
        changed = changed | more;
    }
    Ok(changed)
}
