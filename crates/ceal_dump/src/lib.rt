//! The dump text of a record, written (`write`) and read back (`read`).
//!
//! `specs/` has the text of a record as a function (`DumpText`). The reader goes through bytes as if they were such a
//! text (`reader`, `words`, `blocks`, `items`), never says of a part that it is none, and at the end compares the text
//! of what it has read with the bytes. So it reads nothing but dumps, whatever its parts make of other bytes.
#![tactic(auto)]

mod blocks;
pub mod has_dump;
mod items;
pub mod laws;
pub mod read;
pub mod reader;
mod text;
mod words;
pub mod write;
