//! The tests, by public calls, of what runs and repairs: repair over whole traces (`adjust`, with `edits`), the run
//! over nodes (`nodes`), the engine, the recorded traces (`dumps`). The engine is tested with `drive`, beside `adjust`
//! in `side_by_side`, in slices in `in_slices` and `known`, after edits that change nothing in `idle`, by what changed
//! in `marks`, and where memory is refused in `recovered`. Sessions are tested where memory is refused (`refused`),
//! saved (`saves`), and by values without text (`values`). No crate uses this one.
#![tactic(auto)]

#[cfg(test)]
mod adjust;
#[cfg(test)]
mod asserts;
#[cfg(test)]
mod drive;
#[cfg(test)]
mod dumps;
#[cfg(test)]
mod edits;
#[cfg(test)]
mod engine;
#[cfg(test)]
mod idle;
#[cfg(test)]
mod in_slices;
#[cfg(test)]
mod known;
#[cfg(test)]
mod marks;
#[cfg(test)]
mod nodes;
#[cfg(test)]
mod recovered;
#[cfg(test)]
mod refused;
#[cfg(test)]
mod saves;
#[cfg(test)]
mod side_by_side;
#[cfg(test)]
mod sliced;
#[cfg(test)]
mod values;
#[cfg(test)]
mod wanted;
