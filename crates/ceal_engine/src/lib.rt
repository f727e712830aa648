//! The engine: runs trace code on inputs, and brings the run up to date after edits of the inputs, by change
//! propagation (Acar, *Self-Adjusting Computation*, 2005).
//!
//! `specs/Engine` says what an engine has: the trace of its last run with its nodes, and what a finished run came to,
//! which is the run from scratch on its present inputs up to the numbers of its core blocks. `specs/Repaired` says what
//! becomes of the trace: after a first run it is the first trace, after a propagation its repair. The body keeps what
//! `ceal_repair` keeps of a run: the nodes, the lists of the modifiables, the queue of reads that may be stale, the
//! memo, and the heap. `specs/Cost` says how many contents a propagation looks at, whatever the size of the trace. A
//! repair may be done in slices, with edits between them: `specs/Partial` says what becomes of it. `asking` tests what
//! calls require, `run` has the run with its phase and what edits and new inputs do to it, `reading` reads words and
//! contents, and `items` lists the flat items of nodes.
#![tactic(auto)]

mod asking;
pub mod engine;
mod items;
mod kept_call;
pub mod laws;
pub mod phase;
mod reading;
mod run;
pub mod run_error;
