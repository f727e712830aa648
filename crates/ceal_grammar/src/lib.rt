//! The grammar: which tokens are those of a program within the limits, of which tree, and which fault is the first.
//!
//! The definitions are in `specs/`: the derivations of the grammar (`Grammar`), the tokens of a derivation with their
//! nesting, their item and their operators (`Spelled`), its tree (`Trees`), accepted tokens and the first fault
//! (`Faults`). They know no parser. `Machine` is a reading that takes one token at a time: `state` says where it can
//! are, and `step` how a token moves it; `Judged` is its result over all the tokens of a source. `laws` says what holds
//! of them: tokens have one tree or one first fault, and the reading finds it. `levels` has those of operators.
#![tactic(auto)]

pub mod laws;
pub mod levels;
pub mod stack;
pub mod state;
