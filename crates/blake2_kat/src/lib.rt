//! Worked values of the libraries, except trees, which have their own: of hash functions,
//! buffers, transcripts, readings, witnesses, lists of calls and streams, over devices that fail
//! and when memory is refused. They come from RFC 7693 and from Python's `hashlib.blake2b` and
//! `hashlib.blake2s`, and not from this project's own code. They are apart from the libraries,
//! since a crate that has tests is proved twice. `blake2` contains the tests of what is private
//! there.

#![tactic(auto)]

#[cfg(test)]
mod buffer;
#[cfg(test)]
mod calls;
#[cfg(test)]
mod changed_transcripts;
#[cfg(test)]
mod checks;
#[cfg(test)]
mod copies;
#[cfg(test)]
mod debug;
#[cfg(test)]
mod families;
#[cfg(test)]
mod hashers;
#[cfg(test)]
mod key_lengths;
#[cfg(test)]
mod last_node;
#[cfg(test)]
mod macs;
#[cfg(test)]
mod memory;
#[cfg(test)]
mod nodes;
#[cfg(test)]
mod parameter_block;
#[cfg(test)]
mod readme;
#[cfg(test)]
mod rounds;
#[cfg(test)]
mod selftest;
#[cfg(test)]
mod simd;
#[cfg(test)]
mod streams;
#[cfg(test)]
mod transcripts;
#[cfg(test)]
mod type_sizes;
#[cfg(test)]
mod witness;
