// What has changed since a mark, where a question would be answered.

ghost use Rattle.std.specs.Prelude.{◌≡◌, None, IfOk, OnOk, OnErr, MatchOption};
ghost use Rattle.ceal_session.specs.Marks.{AreChanged, HoldsNumbers, IsMarked, places_of};
ghost use Rattle.ceal_session.specs.Questions.{IsReady};
ghost use Rattle.ceal_session.specs.SessionState.{situation};
ghost use Rattle.ceal_session.specs.Steps.{reply_to_query};
ghost use Rattle.ceal_session.specs.Values.{IfRefused};
ghost use Rattle.ceal_session.specs.declared.reply.Query.{Query as QueryOf};
ghost use Rattle.ceal_session.specs.declared.reply.Reply.TheVariants.{Refused};

use crate::handle::Handle;
use crate::refusal::Refusal;
use crate::state::State;
use crate::value_error::ValueError;
use std::alloc::Global;

/// Why no question is answered, if none is.
fn unready(state: &State) -> Option<Refusal>
    ensures { MatchOption result (IsReady state.now.state)
        (λ r. (q : QueryOf) → reply_to_query state.now.state q ≡ Refused r) }
{
    if state.has_no_run() {
        return Some(Refusal::C7);
    }
    if state.is_pending() {
        return Some(Refusal::C8);
    }
    None
}

/// Marks the modifiables, where questions are answered.
pub fn mark(state: &mut State) -> Result<(), ValueError>
    ensures ready { OnOk result (IsReady state.old.state) }
    ensures refused { IfRefused result
        (λ r. (q : QueryOf) → reply_to_query state.old.state q ≡ Refused r) }
    ensures marked { OnOk result (IsMarked state.old state.new) }
    ensures numbers { OnOk result (HoldsNumbers state.new) }
    ensures kept { situation state.new ≡ situation state.old }
    ensures same { state.new ≡ record state.old
        { engine = record state.old.engine { marked = state.new.engine.marked } } }
    ensures err { OnErr result (state.new ≡ state.old) }
{
    if let Some(refusal) = unready(state) {
        return Err(ValueError::Refused(refusal));
    }
    state.mark()?;
    Ok(())
}

/// The modifiables of inputs that have changed since, where questions are answered.
pub fn changed(alloc: Global, state: &State) -> Result<Option<Vec<Handle>>, ValueError>
    ensures ready { OnOk result (IsReady state.now.state) }
    ensures refused { IfRefused result
        (λ r. (q : QueryOf) → reply_to_query state.now.state q ≡ Refused r) }
    ensures told { IfOk result
        (λ found. MatchOption found (state.now.engine.marked ≡ None)
        (λ handles. AreChanged state.now (places_of handles.items))) }
    ensures numbers { OnOk result (HoldsNumbers state.now) }
{
    if let Some(refusal) = unready(state) {
        return Err(ValueError::Refused(refusal));
    }
    let found = state.changed(alloc)?;
    Ok(found)
}
