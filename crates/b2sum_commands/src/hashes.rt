//! The hash functions, which the program passes to the commands.

ghost use Rattle.std.specs.Prelude.{◌≡◌, ◌↔◌, ℕ, ◌<◌, ◌≤◌, ◌^◌, List, length, take, IsTrue, OnOk};
ghost use Rattle.std.specs.Prelude.{true, false, ◌||◌, IsErr, [], map, slice_index_or};
ghost use Rattle.std.specs.Result.{IsErrOf};
ghost use Rattle.blake2_streams.specs.Streams.{ReturnsAllBytes};

use crate::devices::OpenFile;
use crate::options::Options;
use b2sum_lines::Algorithm;
use blake2_streams::StreamFault;

/// A hash function, with the length of its digests.
#[derive(Clone, Copy, Debug, PartialEq, Eq)]
pub struct Function {
    /// The algorithm.
    pub algorithm: Algorithm,
    /// The number of bytes of a digest, 1 to the most that the algorithm has.
    pub bytes: usize,
}

/// Hash functions of what sources return.
pub trait Hashes {
    ghost use Rattle.b2sum_commands.specs.declared.hashes.Function.{Function};
    ghost use Rattle.b2sum_commands.specs.declared.options.Options.{Options};
    ghost use Rattle.b2sum_commands.specs.World.{Hashing};

    // The digests of texts.
    ghost hashing: { Hashing };

    // These texts are hashed several at a time by a function, with the parameters of the options.
    ghost hashes_several: { Options → Function → List (List ℕ) → Type 0 };

    /// Writes the digest of all that the source returns at the front of `out`, by this function
    /// with the key, the salt and the persona of the options. The source is read in pieces of the
    /// buffer, which has at least 1 byte and at most 16 MiB. The source must not have failed
    /// before. The error is `StreamFault::Read` if a read returns an error, and `TooLong` if the
    /// source returns 2^64 bytes or more (2^58 for a tree), or if the algorithm refuses a length.
    fn digest_source<S: OpenFile>(
        &self,
        options: &Options,
        function: Function,
        source: &mut S,
        buffer: &mut [u8],
        out: &mut [u8; 64],
    ) -> Result<(), StreamFault>
        requires source { S.failed source.old ≡ false }
        requires room { 0 < length buffer.old }
        requires most { length buffer.old ≤ 2 ^ 24 }
        ensures read { IsErrOf result StreamFault.Read ↔ IsTrue (S.failed source.new) }
        ensures refused { IsErr result
            → (S.failed source.new || hashing.rejects options.now function) ≡ true }
        ensures whole { OnOk result ((text : List ℕ)
            × ReturnsAllBytes (S.left source.old) (S.left source.new) text
            × (take function.bytes out.new
            ≡ hashing.digest options.now function text)) }
        ensures name { S.named source.new ≡ S.named source.old };

    /// Writes the digest of each of these texts at the front of its place in `out`, by this
    /// function with the salt and the persona of the options, up to eight of them at a time. There
    /// are as many places as texts. Returns whether it did: not under a key, for an algorithm that
    /// has no lanes for it, or if the algorithm refuses a length. It takes least time if each text
    /// is at least as long as the next.
    fn digest_several(
        &self,
        options: &Options,
        function: Function,
        texts: &[&[u8]],
        out: &mut [[u8; 64]],
    ) -> bool
        requires { length out.old ≡ length texts.now }
        ensures right { result ≡ true → (j : ℕ) → j < length texts.now
            → take function.bytes (slice_index_or out.new j [])
            ≡ hashing.digest options.now function
            (slice_index_or (map (λ t. t.now) texts.now) j []) }
        ensures refused { result ≡ false
            → ¬ hashes_several options.now function (map (λ t. t.now) texts.now) };

    /// Writes the MAC that seals a list, by the key and the salt of the options, and a
    /// personalization of seals. Of the key the first 64 bytes count, and of the salt the first 16.
    fn seal(&self, options: &Options, list: &[u8], out: &mut [u8; 64])
        ensures { out.new ≡ hashing.seal options.now list.now };

    /// Writes the key that is derived from a key of 1 to 64 bytes for a context. `out` has 1 to 64
    /// bytes.
    fn derive_key(&self, key: &[u8], context: &[u8], out: &mut [u8])
        requires some_key { 1 ≤ length key.now }
        requires fits { length key.now ≤ 64 }
        requires some { 1 ≤ length out.old }
        requires room { length out.old ≤ 64 }
        ensures { out.new ≡ hashing.derive key.now context.now (length out.old) };

    /// Returns the best length of a buffer, in bytes.
    fn piece_bytes(&self, options: &Options) -> usize
        ensures some { 0 < result }
        ensures most { result ≤ 2 ^ 24 };
}
