//! A session: the replies to the lines of a script, one after another.
//!
//! `specs/` says what each command is answered and what it leaves (`Steps`), what the names and values of a line stand
//! for (`Senses`), and the texts of replies (`Texts`). Every answer about a run is that of the run from scratch on the
//! inputs of that moment (`Runs`); `Replies` puts lines together. `SessionSave` says what is saved of a session, and
//! which session continues from a save.
#![tactic(auto)]

mod advance;
pub mod answer;
mod bound;
mod commands;
pub mod handle;
mod journal;
pub mod laws;
mod marks;
mod numbers;
pub mod refusal;
pub mod reply;
mod restore;
mod saving;
pub mod sense;
mod senses;
pub mod session;
mod state;
mod steps;
mod texts;
pub mod value_error;
mod values;
mod view;
