// What a session is resumed from.

ghost use Rattle.std.specs.Prelude.{◌≡◌, IfOk, IfSome, MatchOption};
ghost use Rattle.ceal_session.specs.Questions.{IsReady};
ghost use Rattle.ceal_session.specs.SessionState.{situation};
ghost use Rattle.ceal_session.specs.InputNames.{AreSpelled};
ghost use Rattle.ceal_session.specs.SessionSave.{IsSaved};

use crate::state::State;
use ceal_base::no_memory::NoMemory;
use ceal_base::text::Text;
use ceal_snap::saved::Saved;
use ceal_types::names::Names;
use std::alloc::Global;

/// The names in their order. No table has 2^32 - 1 of them.
fn names_of(alloc: Global, names: &Names) -> Result<Vec<Text>, NoMemory>
    ensures { IfOk result (λ texts. texts.items ≡ names.now) }
{
    let mut texts = Vec::new(alloc);
    for number in 0..u32::MAX {
        match names.at(number) {
            None => return Ok(texts),
            Some(name) => texts.push(name.copy()?)?,
        }
    }
    Err(NoMemory)
}

/// The save of the run. There is none where there is no run, the last one was out of fuel, or an edit or a repair is
/// pending.
pub fn saved(alloc: Global, state: &State) -> Result<Option<Saved>, NoMemory>
    ensures saved { IfOk result
        (λ found. MatchOption found (¬ IsReady state.now.state)
        (λ s. IsSaved (situation state.now) s)) }
    ensures names { IfOk result (λ found. IfSome found (λ s. AreSpelled s.names)) }
{
    match state.recorded(alloc)? {
        None => Ok(None),
        Some(kept) => {
            let bound = state.bound(alloc)?;
            let names = names_of(alloc, state.names())?;
            let saved = Saved::new(state.fuel(), state.work(), bound, names, kept);
            Ok(Some(saved))
        }
    }
}
