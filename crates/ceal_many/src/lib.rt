//! Many sessions in one script: each line names the session that answers it.
//!
//! What a session is, is left open: `Answerer` is what answers the lines of one, and `Maker` what makes one. `Many` is
//! proved for every maker. `specs/` says what a line says (`Lines`), how replies are written (`Prefixes`), and what
//! they are (`Replies`); `Alone` and `Laws` say that the replies to one name's lines depend only on these lines.
#![tactic(auto)]

mod answerer;
mod entry;
mod heading;
pub mod laws;
mod many;
mod prefix;

pub use answerer::{Answerer, Maker};
pub use many::Many;
