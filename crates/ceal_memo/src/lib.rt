//! The memo table: the recorded reads and allocations by their keys, among which change propagation finds what it can
//! take again.
//!
//! Keys are only in the trace: who has it tells them (`keys`). The order of the stamps belongs to the caller: each
//! call that compares stamps is handed it, and what is kept follows it.
//!
//! `key` is what a read is found again by, `keys` tells the keys of entries, `seed` is what hashes begin with, `memo`
//! the table with its calls; `laws` says along which orders a memo still follows. Inside, `digest` has the hashes of
//! keys, `table` the entries by their hashes, and `sought` is a key that is looked for. `lists` has the stamps of each
//! hash, in lists that have numbers, and `chains` finds them. `home` is the list of each stamp, by which an entry is
//! taken out without a key.
#![tactic(auto)]

mod chains;
mod digest;
mod home;
pub mod key;
pub mod keys;
pub mod laws;
mod lists;
pub mod memo;
pub mod seed;
mod sought;
mod table;
