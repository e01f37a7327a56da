//! Tests of trees, and of what has no worked values: the derives of plain values, several messages
//! in parallel, states of plain numbers, streams of a small state that only these tests have, over
//! devices that fail, and what generic code may promise over the traits. Digests are those of
//! Python's `hashlib`. `blake2_kat` has the worked values: two crates of tests are proved in
//! parallel.

#![tactic(auto)]

#[cfg(test)]
mod checks;
#[cfg(test)]
mod derives;
#[cfg(test)]
mod many;
#[cfg(test)]
mod state;
#[cfg(test)]
mod streams;
#[cfg(test)]
mod traits;
#[cfg(test)]
mod trees;
