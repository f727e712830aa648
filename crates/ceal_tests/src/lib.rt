//! The tests that take only public calls, of all crates but the runtime's containers (ceal_runtime_tests) and what runs
//! and repairs over them (ceal_engine_tests). A module has the tests of one crate. No crate uses this one. What is one
//! whole input with its answer is no test but a row of ceal_rows.
#![tactic(auto)]

#[cfg(test)]
mod asserts;
#[cfg(test)]
mod base;
#[cfg(test)]
mod code;
#[cfg(test)]
mod flow;
#[cfg(test)]
mod io;
#[cfg(test)]
mod lex;
#[cfg(test)]
mod live;
#[cfg(test)]
mod many;
#[cfg(test)]
mod mean;
#[cfg(test)]
mod parse;
#[cfg(test)]
mod script;
#[cfg(test)]
mod types;
#[cfg(test)]
mod workloads;
