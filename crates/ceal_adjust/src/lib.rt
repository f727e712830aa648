//! The first trace of a call and the repair of a trace in code, equal to the definitions of `ceal_theory`: memoised
//! change propagation (Acar, *Self-Adjusting Computation*, 2005), over a whole trace at each edit.
//!
//! `adjust` has the two calls, `first_forest` and `adjust`. Both turn one machine, a `repair` (`complete`): it walks
//! the old flat items once, with a cursor that only moves on, and re-executes units by the stepper of `ceal_code`, over
//! the memory of the trace. `search` finds what is taken by the tables of `old` (`mark`, `places`).
//!
//! `slices` has repair in slices, `begin_repair` and `slice_repair`: `turn` after `turn`, each of which runs the unit
//! of the first read that is `stale` by itself, over the blocks that are `known`.
#![tactic(auto)]

pub mod adjust;
mod complete;
mod frame;
pub mod known;
mod mark;
mod old;
mod places;
mod repair;
mod search;
pub mod slices;
mod stale;
mod turn;
