// Laws of engines, each the contract of a function that does nothing.

ghost use Rattle.ceal_engine.specs.Cost.{CostLaw};
ghost use Rattle.ceal_engine.specs.Partial.{BeginsLaw, KeptLaw};
ghost use Rattle.ceal_engine.specs.Room.{RoomLaw};

/// An engine with a run carries the repair that begins from its trace.
pub fn begins_law()
    ensures law { BeginsLaw }
{}

/// After an edit, and with one input more, an engine carries the repair that it carried.
pub fn kept_law()
    ensures law { KeptLaw }
{}

/// What any list of edits, new inputs and repairs looks at and touches is bounded by the edits, by the steps that are
/// re-executed, by the reads that get another value, and by the writes and nodes that the trace loses, whatever its
/// size.
pub fn cost_law()
    ensures law { CostLaw }
{}

/// Over any list of edits, new inputs and repairs there is room for no more nodes than at first, or than the largest
/// repair among them needs, however many they are.
pub fn room_law()
    ensures law { RoomLaw }
{}
