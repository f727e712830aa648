//! Order maintenance: a list of stamps, any two of which are compared in one step.
//!
//! A new stamp is put directly after one that is there. Contracts see the stamps as a list of distinct numbers,
//! the first stamp first, and beside it how many may be inserted without taking memory. The order of two stamps is
//! the order of their places in that list.
//!
//! `stamp` is what callers hold, `order` the list and its calls. Inside, `link` has the links of a doubly linked list
//! whose labels rise along it, `labels` finds a label for a new link and gives labels again where none is free, and
//! `run` finds the links that get new labels then.
//!
//! What is kept by time is kept in lists of stamps that rise along the order: each is before those that follow it.
//! `rising` is such a list, searched by halves; it is in a `short_list`, which takes no memory for up to two stamps,
//! and for more a `sequence`, which keeps chunks of them in a balanced `tree`. `chunks` puts items into such a tree and
//! takes them out, and `search` finds a place in it. `laws` says along which other orders stamps still rise.
//!
//! Two more modules serve all that is kept by time: `room` makes room in lists that grow, and `packed` is a word in 12
//! bytes.
#![tactic(auto)]

mod chunks;
mod labels;
pub mod laws;
mod link;
pub mod order;
pub mod packed;
pub mod rising;
pub mod room;
mod run;
pub mod search;
pub mod sequence;
pub mod short_list;
pub mod stamp;
mod tree;
