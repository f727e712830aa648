// The laws of replies, each the contract of a function that does nothing but call the laws on which it rests.

ghost use Rattle.ceal_session.specs.Bounded.{BoundedLaw};
ghost use Rattle.ceal_session.specs.Framing.{FramedLaw};
ghost use Rattle.ceal_session.specs.Laws.{OneCommandLaw, OneAnswerLaw, OneReplyLaw, OneStateLaw, OneScriptLaw};
ghost use Rattle.ceal_session.specs.Laws.{JoinedLaw, BegunLaw, SomeReplyLaw, SomeScriptLaw, DroppedLaw, KeptLaw};
ghost use Rattle.ceal_session.specs.Laws.{KeptByEditLaw, KeptEditLaw, KeptHandleLaw};
ghost use Rattle.ceal_session.specs.PartLaws.{PartsAreWholeLaw, PartsEndLaw};
ghost use Rattle.ceal_session.specs.Entries.{EntriesLaw, OneTextLaw};
ghost use Rattle.ceal_session.specs.SaveLaws.{AlikeLaw, HeldLaw, OneSavedLaw, ResavedLaw, ResumedLaw, SavedLaw};
ghost use Rattle.ceal_session.specs.SavedAgain.{BecomeLaw, BecomesLaw, SavedAfterLaw, SavedAgainLaw};
ghost use Rattle.ceal_session.specs.Strangers.{StrangerLaw};
ghost use Rattle.ceal_session.specs.UpdateCost.{UpdateCostLaw};

/// A law: a line is one command's at most, and has one reply by a state and its numbers; so it has one in a situation,
/// and one situation after it.
pub fn one_reply()
    ensures command { OneCommandLaw }
    ensures answer { OneAnswerLaw }
    ensures state { OneStateLaw }
    ensures reply { OneReplyLaw }
{
    ceal_script::line::one_command();
    ceal_show::laws::one_text();
}

/// A law: lines have one text of replies in a situation, and one situation after them, from which more lines continue.
pub fn one_script()
    ensures law { OneScriptLaw }
    ensures joined { JoinedLaw }
{
    one_reply();
}

/// A law: in a situation that a session reaches each line has a reply, and so have lines one after another; the
/// situations after them are such ones. So is a session that was left when memory ran out.
pub fn some_reply()
    ensures begun { BegunLaw }
    ensures reply { SomeReplyLaw }
    ensures script { SomeScriptLaw }
    ensures dropped { DroppedLaw }
{
    ceal_code::laws::progress_law();
    ceal_script::line::command_or_none();
    ceal_show::laws::fitting_is_whole();
    ceal_show::laws::some_text();
}

/// A law: a session that is in a situation answers each line as is said there, and is in the situation after it.
pub fn kept_line()
    ensures law { KeptLaw }
{
    ceal_code::laws::progress_law();
    ceal_script::line::command_or_none();
    ceal_show::laws::fitting_is_whole();
    ceal_show::laws::some_text();
    one_reply();
}

/// A law: the replies of lines are the text that the plain meaning of the source gives to them with a list of entries,
/// which trace repair gives, one for each line that runs.
pub fn entries_law()
    ensures law { EntriesLaw }
    ensures one { OneTextLaw }
{
    ceal_code::laws::progress_law();
    ceal_script::line::command_or_none();
    ceal_show::laws::fitting_is_whole();
    ceal_show::laws::some_text();
    one_reply();
}

/// A law: situations that are the same up to the numbers of core blocks have the same replies, line by line.
pub fn alike_law()
    ensures law { AlikeLaw }
{
    ceal_code::laws::progress_law();
    ceal_script::line::command_or_none();
    ceal_show::laws::fitting_is_whole();
    ceal_show::laws::some_text();
    some_reply();
    kept_line();
    one_reply();
}

/// A law: after a completed run or repair, whole or in slices without an edit between them, the work is at most the
/// bound, and the bound at most the steps.
pub fn bounded_law()
    ensures law { BoundedLaw }
{
    ceal_code::laws::progress_law();
    ceal_script::line::command_or_none();
    ceal_show::laws::fitting_is_whole();
    ceal_show::laws::some_text();
    one_reply();
}

/// A law: what an update of a finished run looks at and touches is paid by the edits, by the cost of the two first
/// traces side by side and by the reads that are apart in them, whatever updates came before.
pub fn update_cost_law()
    ensures law { UpdateCostLaw }
{
    ceal_engine::laws::cost_law();
}

/// A law: the save of a session is that of the situation that it is in, and a situation has one save at most.
pub fn saved_law()
    ensures law { SavedLaw }
    ensures one { OneSavedLaw }
{
    ceal_record::laws::renamed_law();
    ceal_record::laws::one_record_law();
}

/// A law: a save that holds has a trace, and its situation is one that a session comes to.
pub fn held_law()
    ensures law { HeldLaw }
{}

/// A law: what a session saves holds, and resumed it answers each script as the session would have answered it, and has
/// the same save.
pub fn resumed_law()
    ensures law { ResumedLaw }
    ensures again { ResavedLaw }
{
    ceal_theory::names::renaming_law();
    alike_law();
    saved_law();
}

/// A law: a session that was resumed may be saved again after more lines, as often as one likes. Its save is then, to
/// the last number, that of a session that carried out all of these lines without a stop.
pub fn saved_again_law()
    ensures after { SavedAfterLaw }
    ensures again { SavedAgainLaw }
    ensures line { BecomesLaw }
    ensures lines { BecomeLaw }
{
    kept_line();
    one_script();
    saved_law();
    resumed_law();
}

/// A law: of a save that holds, whoever wrote it, nothing but its work and its bound is believed, and these until the
/// next completed run or repair.
pub fn stranger_law()
    ensures law { StrangerLaw }
{
    ceal_code::laws::progress_law();
    ceal_script::line::command_or_none();
    ceal_show::laws::fitting_is_whole();
    ceal_show::laws::some_text();
    one_reply();
    alike_law();
}

/// A law: a modifiable stays one after each line, so a handle stands for the same as long as its session.
pub fn kept_handle()
    ensures law { KeptHandleLaw }
{
    ceal_code::laws::progress_law();
    ceal_script::line::command_or_none();
    ceal_show::laws::fitting_is_whole();
    ceal_show::laws::some_text();
}

/// A law: a session that is in a situation is in the next one after an edit by a handle, as `set_number` makes it; and
/// a modifiable stays one.
pub fn kept_edit()
    ensures law { KeptEditLaw }
    ensures handle { KeptByEditLaw }
{
    ceal_code::laws::progress_law();
    ceal_script::line::command_or_none();
    ceal_show::laws::fitting_is_whole();
    ceal_show::laws::some_text();
}

/// A law: there is an end of lines `propagate READS`, since each that is answered `more` leaves fewer reads from the
/// first stale one on; and they end in the situation in which one line `propagate` ends.
pub fn sliced_law()
    ensures end { PartsEndLaw }
    ensures whole { PartsAreWholeLaw }
{
    ceal_code::laws::progress_law();
    ceal_script::line::command_or_none();
    ceal_show::laws::fitting_is_whole();
    ceal_show::laws::some_text();
    one_reply();
}

/// A law: how much there is to read of each reply.
pub fn framed_law()
    ensures law { FramedLaw }
{
    one_reply();
}
