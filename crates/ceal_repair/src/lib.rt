//! The run of trace code over the nodes of its trace, and change propagation over them: the body of the engine. The
//! number of contents that a propagation looks at is bounded by what is re-executed and revoked, whatever the size of
//! the trace.
//!
//! Below it are the tables of a trace in step (`tables`): its nodes, the lists of its modifiables, the queue of its
//! stale reads, and the memo. Their contracts speak of the list of nodes, of what each place holds before any write,
//! and of the stamps that are queued. What is true of all tables is `Kept`. Each place has exactly the writes and the
//! reads of the nodes, and each key exactly their allocations and reads. Each read that is not queued records what was
//! recorded last of its place: its base, the last write or the value of the last read. So wherever a read does not have
//! the content of its moment, a queued read of its place is there or before it, with no write of the place between. A
//! queued read that has the content of its moment leaves the queue without another one coming in. So nothing above
//! these calls sees an order of stamps. Where a call runs out of memory, the tables must not be used any more, but for
//! the edit of a base, which changes nothing then. `laws` has what follows of `Kept`.
//!
//! Contracts speak of the list of nodes and of the theory of repair: the nodes of a run from nothing stand for the
//! first trace of the call, and after a propagation for the repair of the trace before it (`specs/Answers`). Inside, a
//! moment of a run is a function of the nodes after the cursor (`specs/Moment`): what is left over to the unit that
//! runs, up to a limit, and what waits around it (`specs/Around`). A run from nothing has no limit and nothing left
//! over. A propagation is one turn after another (`specs/Turning`), each the first stale read with what is inside it.
//!
//! `running` has what a run keeps, `room` what is kept from one repair to the next, `first` the run from nothing, and
//! `advance` change propagation, whole or in parts. A `repair` under way does one act of a unit at a time: it puts
//! nodes in after its cursor (`put`), takes allocations and reads that are left over (`take`, `read`), and passes kept
//! nodes inside a taken read (`pass`). `turns` are made one after another; `turn` begins one, `complete` lets its unit
//! act until it is over, and `end` ends it. `cutting` revokes nodes that are left over, `bases` sets what modifiables
//! hold before any write, `edits` does so for an input that is new to a run, `sought` are keys that are looked for
//! among the nodes, and `words` reads plain words. By `written_in` a trace tells the modifiables the values of writes.
#![tactic(auto)]

pub mod advance;
mod bases;
mod complete;
pub mod cutting;
pub mod edits;
pub mod first;
mod frame;
pub mod laws;
mod recorded;
mod repair;
pub mod room;
pub mod running;
mod sought;
pub mod tables;
mod words;
mod written_in;
