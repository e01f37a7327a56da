// Made by tools/twins.py from src/saved/blake2b.rt.
//! Saved states of BLAKE2s.

ghost use Rattle.std.specs.Prelude.{◌≡◌, ◌↔◌, drop, length, replicate, slice_index, take};
ghost use Rattle.std.specs.Prelude.{IfSome, IsSome, IsTrue, SomeIff};
ghost use Rattle.std.specs.Int.{from_le_bytes, w64};
ghost use Rattle.blake2_simd.specs.Family.{blake2s};
ghost use Rattle.blake2_compress.specs.Hash.{words_of};
ghost use Rattle.blake2_state.specs.Blake2s.{CanBeSaved, HoldsOnlySavedData, IsReady, saved_bytes};
ghost use Rattle.blake2_state.specs.Blake2s.{state_of};
ghost use Rattle.blake2_state.specs.SavedStates.{IsSavedState};

use super::write_after;
use crate::blake2s::State;
use blake2_compress::compress::blake2s::{to_bytes, to_rows, to_words};
use blake2_compress::params::blake2s::block_rows;
use blake2_digest::padded;

// What the bytes begin with: the family's name, and the version of the encoding.
const HEADING: [u8; 8] = *b"BLAKE2s\x01";

impl State {
    // Whether the state can be saved.
    fn can_be_saved(&self) -> bool
        ensures { IsTrue result ↔ CanBeSaved self.now }
    {
        self.is_ready() && !self.has_key() && self.start_length == 0
    }

    // The bytes of the state.
    fn encoded(&self) -> [u8; 147]
        requires { IsReady self.now }
        ensures { result ≡ saved_bytes self.now }
    {
        let length = self.pending_length as usize;
        let numbers = [
            self.output_size as u8,
            self.pending_length as u8,
            (self.last_node != 0) as u8,
        ];
        let mut out = [0; 147];
        write_after::<147>(&mut out, 0, &HEADING);
        write_after::<147>(&mut out, 8, &to_bytes(&to_rows(&self.chain)));
        write_after::<147>(&mut out, 40, &to_bytes(&to_rows(&self.first)));
        write_after::<147>(&mut out, 72, &self.counter.to_le_bytes());
        write_after::<147>(&mut out, 80, &numbers);
        write_after::<147>(&mut out, 83, &self.pending[..length]);
        out
    }

    /// Returns the bytes of the state, from which `load` makes it again: on another machine, in
    /// another program, with a later version of this crate. A state that is not ready, or that has
    /// a key, is not saved: with the bytes of a state anybody can make the digests that it will
    /// return.
    pub fn save(&self) -> Option<[u8; 147]>
        ensures { SomeIff result (CanBeSaved self.now) (saved_bytes self.now) }
    {
        if !self.can_be_saved() {
            return None;
        }
        Some(self.encoded())
    }

    // The state that these bytes are those of, if there is one.
    fn decoded(saved: &[u8]) -> Self
        requires { length saved.now ≡ 147 }
        ensures { result ≡ record {
          chain = words_of blake2s 8 (take 32 (drop 8 saved.now));
          first = words_of blake2s 8 (take 32 (drop 40 saved.now));
          counter = from_le_bytes w64 (take 8 (drop 72 saved.now));
          pending_length = slice_index saved.now 81;
          start_length = 0;
          output_size = slice_index saved.now 80;
          last_node = slice_index saved.now 82;
          pending = drop 83 saved.now;
          key = replicate 32 0;
        } }
    {
        State {
            chain: to_words(&block_rows(&saved[8..40])),
            first: to_words(&block_rows(&saved[40..72])),
            counter: u64::from_le_bytes(padded::<8>(&saved[72..80])),
            pending_length: saved[81] as u16,
            start_length: 0,
            output_size: saved[80] as u16,
            last_node: saved[82] as u16,
            pending: padded::<64>(&saved[83..]),
            key: [0; 32],
        }
    }

    // Whether the state is saved as these bytes.
    fn is_saved_as(&self, saved: &[u8]) -> bool
        ensures { IsTrue result ↔ (CanBeSaved self.now × (saved_bytes self.now ≡ saved.now)) }
    {
        match self.save() {
            Some(again) => saved == &again[..],
            None => false,
        }
    }

    /// Returns the state that was saved as these bytes: it returns the same digests. The answer is
    /// `None` exactly for bytes that are not those of a saved state.
    pub fn load(saved: &[u8]) -> Option<Self>
        ensures accepted { IsSome result ↔ IsSavedState blake2s saved.now }
        ensures savable { IfSome result CanBeSaved }
        ensures bytes { IfSome result (λ s. saved_bytes s ≡ saved.now) }
        ensures same { (was : IsSavedState blake2s saved.now) → IfSome result (λ s.
            (s.output_size ≡ was.size) × (state_of s ≡ was.state)) }
        ensures no_more { IfSome result HoldsOnlySavedData }
    {
        if saved.len() != 147 {
            return None;
        }
        let state = Self::decoded(saved);
        if !state.is_saved_as(saved) {
            return None;
        }
        Some(state)
    }
}
