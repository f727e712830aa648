//! The tests of the runtime's containers: order maintenance, traces, modifiables, the queue, the memo tables, raw
//! words and the store of core blocks, only by public calls. No crate uses this one.
#![tactic(auto)]

#[cfg(test)]
mod asserts;
#[cfg(test)]
mod heap;
#[cfg(test)]
mod memo;
#[cfg(test)]
mod mods;
#[cfg(test)]
mod order;
#[cfg(test)]
mod orders;
#[cfg(test)]
mod queue;
#[cfg(test)]
mod trace;
#[cfg(test)]
mod trace_of_map;
#[cfg(test)]
mod words;
