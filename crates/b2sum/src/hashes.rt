//! BLAKE2 as the hash functions of the commands.

ghost use Rattle.std.specs.Prelude.{◌≡◌, ◌↔◌, ℕ, ◌+◌, ◌<◌, ◌≤◌, ◌^◌, ◌||◌, List, ◌++◌, length};
ghost use Rattle.std.specs.Prelude.{take, IsTrue, IsErr, OnOk, IfSome, true, false};
ghost use Rattle.std.specs.Io.KnownBytes.{Consumes};
ghost use Rattle.std.specs.Result.{IsErrOf};
ghost use Rattle.blake2_streams.specs.Streams.{ReturnsAllBytes};
ghost use Rattle.blake2_state.specs.TreeStates.{IsReady as IsReadyTree, count, future};
ghost use Rattle.blake2_tree.specs.TreeLengths.{AreAcceptedTreeLengths, tree_lengths_of};
ghost use Rattle.blake2_tree.specs.TreeRoot.{tree_parameters, tree_root};
ghost use Rattle.blake2_simd.specs.Family.{blake2b};
ghost use Rattle.blake2_compress.specs.Hash.{sequential};
ghost use Rattle.blake2_state.specs.ConstructorArguments.{AdmitsState, digest_given};
ghost use Rattle.blake2_state.specs.ConstructorArguments.{parameters_given};
ghost use Rattle.blake2_xof.specs.Xof.{derived_key};
ghost use Rattle.b2sum.specs.FileDigests.{digest_by_function};
ghost use Rattle.b2sum.specs.RefusedTexts.{IsTooLong, AcceptsOptions, key_byte_count, text_limit};

use crate::lanes::digest_several;
use crate::states::{Absorb, HashState};
use b2sum_commands::{Function, Hashes, OpenFile, Options};
use b2sum_lines::Algorithm;
use blake2::streams::StreamFault;
use blake2_digest::{scrub_stack, tell_bytes};
use blake2_parallel::{blake2bp, blake2sp};
use blake2_state::tree::TreeState;
use blake2_state::{StateParameters, blake2b, blake2s};
use blake2_xof::blake2xb;
use std::array::from_fn;

/// BLAKE2b, BLAKE2s, BLAKE2bp, BLAKE2sp, and trees over BLAKE2b.
#[derive(Clone, Copy)]
pub struct Blake2;

// The number of bytes that one read requests.
const PIECE_BYTES: usize = 1 << 16;

// The number of bytes that one read for a tree requests: many leaves.
const TREE_PIECE_BYTES: usize = 1 << 20;

// The personalization of seals.
const SEAL_PERSONA: &[u8] = b"b2sum sealed";

// The bytes of the stack that are overwritten after a state is initialized under a key: more than
// that needs.
const START_BYTES: usize = 4096;

// The bytes of the stack that are overwritten after a key is derived: more than that needs.
const DERIVED_BYTES: usize = 8192;

impl Hashes for Blake2 {
    ghost use Rattle.blake2_simd.specs.Family.{blake2b};
    ghost use Rattle.blake2_xof.specs.Xof.{derived_key};
    ghost use Rattle.b2sum.specs.FileDigests.{digest_by_function, seal_mac};
    ghost use Rattle.b2sum.specs.RefusedTexts.{HashesSeveral};

    ghost hashing = { record {
      digest = digest_by_function;
      rejects = λ _ _. true;
      seal = seal_mac;
      derive = derived_key blake2b;
    } };

    ghost hashes_several = { HashesSeveral };

    fn digest_source<S: OpenFile>(
        &self,
        options: &Options,
        function: Function,
        source: &mut S,
        buffer: &mut [u8],
        out: &mut [u8; 64],
    ) -> Result<(), StreamFault>
        requires source { S.failed source.old ≡ false }
        requires room { 0 < length buffer.old }
        ensures read { IsErrOf result StreamFault.Read ↔ IsTrue (S.failed source.new) }
        // What the trait asks says nothing here: `too_long` says when an error comes.
        ensures refused { IsErr result → (S.failed source.new || true) ≡ true }
        ensures whole { OnOk result ((text : List ℕ)
            × ReturnsAllBytes (S.left source.old) (S.left source.new) text
            × (take function.bytes out.new ≡ digest_by_function options.now function text)) }

        // It refuses exactly lengths that the algorithm does not accept, and too many bytes.
        ensures too_long { IfSome (S.left source.old) (IsTooLong result (S.failed source.new)
            (AcceptsOptions options.now function)
            (key_byte_count function.algorithm options.now.key.items)
            (text_limit function.algorithm)) }
        ensures name { S.named source.new ≡ S.named source.old }
    {
        let given = parameters(options, function);
        match function.algorithm {
            Algorithm::Blake2b => digest::<blake2b::State, S>(&given, source, buffer, out),
            Algorithm::Blake2s => digest::<blake2s::State, S>(&given, source, buffer, out),
            Algorithm::Blake2bp => digest::<blake2bp::State, S>(&given, source, buffer, out),
            Algorithm::Blake2sp => digest::<blake2sp::State, S>(&given, source, buffer, out),
            Algorithm::Tree(leaf) => {
                digest_tree(leaf, options.threads, &given, source, buffer, out)
            }
        }
    }

    fn digest_several(
        &self,
        options: &Options,
        function: Function,
        texts: &[&[u8]],
        out: &mut [[u8; 64]],
    ) -> bool {
        if !options.key.is_empty() {
            return false;
        }
        let given = parameters(options, function);
        match function.algorithm {
            Algorithm::Blake2b => {
                let mut states: [blake2b::State; 8] = from_fn(|_| blake2b::State::zeros());
                digest_several(&given, texts, &mut states[..], out)
            }
            Algorithm::Blake2s => {
                let mut states: [blake2s::State; 8] = from_fn(|_| blake2s::State::zeros());
                digest_several(&given, texts, &mut states[..], out)
            }
            Algorithm::Blake2bp | Algorithm::Blake2sp | Algorithm::Tree(_) => false,
        }
    }

    fn seal(&self, options: &Options, list: &[u8], out: &mut [u8; 64]) {
        let given = StateParameters {
            output_size: 64,
            key: front(options.key.as_slice(), 64),
            salt: front(options.salt.as_slice(), 16),
            persona: SEAL_PERSONA,
        };
        digest_list(&given, list, out);
    }

    fn derive_key(&self, key: &[u8], context: &[u8], out: &mut [u8]) {
        derive_key(key, context, out);
        scrub_stack::<DERIVED_BYTES>();
    }

    fn piece_bytes(&self, options: &Options) -> usize {
        match options.algorithm {
            Algorithm::Tree(_) => TREE_PIECE_BYTES,
            _ => PIECE_BYTES,
        }
    }
}

// Writes the key that is derived by BLAKE2Xb from a key of 1 to 64 bytes for a context, in a
// separate frame, which the caller scrubs. `out` has 1 to 64 bytes.
#[inline(never)]
fn derive_key(key: &[u8], context: &[u8], out: &mut [u8])
    requires some_key { 1 ≤ length key.now }
    requires fits { length key.now ≤ 64 }
    requires some { 1 ≤ length out.old }
    requires room { length out.old ≤ 64 }
    ensures { out.new ≡ derived_key blake2b key.now context.now (length out.old) }
{
    let mut state = blake2xb::State::init(out.len() as u64, key, b"", b"").unwrap();
    state.update(context);
    state.squeeze(out);
    state.wipe();
}

// Returns the parameters of a hash by this function.
fn parameters<'a>(options: &'a Options, function: Function) -> StateParameters<'a>
    ensures size { result.output_size ≡ function.bytes }
    ensures key { result.key.now ≡ options.now.key.items }
    ensures salt { result.salt.now ≡ options.now.salt.items }
    ensures persona { result.persona.now ≡ options.now.persona.items }
{
    StateParameters {
        output_size: function.bytes,
        key: options.key.as_slice(),
        salt: options.salt.as_slice(),
        persona: options.persona.as_slice(),
    }
}

// Absorbs what the source returns, to its end. Returns whether it got there: otherwise a read has
// failed, or the state has no room for all of it.
fn absorb_source<H: Absorb, S: OpenFile>(source: &mut S, state: &mut H, buffer: &mut [u8]) -> bool
    requires source { S.failed source.old ≡ false }
    requires buffer { 0 < length buffer.old }
    requires ready { H.IsReady state.old }
    ensures ready { H.IsReady state.new }
    ensures size { H.size state.new ≡ H.size state.old }
    ensures failed { IsTrue (S.failed source.new) → result ≡ false }
    ensures name { S.named source.new ≡ S.named source.old }
    ensures whole { result ≡ true → (text : List ℕ)
        × ReturnsAllBytes (S.left source.old) (S.left source.new) text
        × (H.count state.old + length text < H.limit)
        × ((y : List ℕ) → H.future state.new y ≡ H.future state.old (text ++ y)) }
    ensures too_long { result ≡ false → S.failed source.new ≡ false → (text : List ℕ)
        × Consumes (S.left source.old) (S.left source.new) text
        × (H.limit ≤ H.count state.old + length text) }
{
    let mut room = state.room();
    'reading: loop {
        let Ok(count) = source.read(buffer) else {
            return false;
        };
        if count == 0 {
            break;
        }
        let piece = &buffer[..count];
        tell_bytes(piece);
        if count as u64 > room {
            return false;
        }
        state.absorb(piece);
        room -= count as u64;
    }
    true
}

// Returns why a source was not absorbed.
fn fault_of<S: OpenFile>(source: &S) -> StreamFault
    ensures read { IsTrue (S.failed source.now) → result ≡ StreamFault.Read }
    ensures too_long { S.failed source.now ≡ false → result ≡ StreamFault.TooLong }
{
    if source.failed() {
        StreamFault::Read
    } else {
        StreamFault::TooLong
    }
}

// Initializes a state, in a separate frame, which the caller scrubs if there is a key. Returns
// whether the parameters are accepted.
#[inline(never)]
fn init_state<H: HashState>(state: &mut H, given: &StateParameters<'_>) -> bool
    ensures refused { result ≡ false ↔ ¬ H.accepts given.now }
    ensures ready { result ≡ true → H.IsReady state.new }
    ensures size { result ≡ true → H.size state.new ≡ given.now.output_size }
    ensures most { result ≡ true → given.now.output_size ≤ 64 }
    ensures digest { result ≡ true → (y : List ℕ) → H.future state.new y ≡ H.digest given.now y }
    ensures count { result ≡ true → H.count state.new ≡ H.key_count given.now }
{
    state.init_given(given)
}

fn digest<H: HashState + Drop, S: OpenFile>(
    given: &StateParameters<'_>,
    source: &mut S,
    buffer: &mut [u8],
    out: &mut [u8; 64],
) -> Result<(), StreamFault>
    requires source { S.failed source.old ≡ false }
    requires room { 0 < length buffer.old }
    ensures read { IsErrOf result StreamFault.Read ↔ IsTrue (S.failed source.new) }
    ensures name { S.named source.new ≡ S.named source.old }
    ensures whole { OnOk result ((text : List ℕ)
        × ReturnsAllBytes (S.left source.old) (S.left source.new) text
        × (take given.now.output_size out.new ≡ H.digest given.now text)) }
    ensures too_long { IfSome (S.left source.old) (IsTooLong result (S.failed source.new)
        (H.accepts given.now) (H.key_count given.now) H.limit) }
{
    let mut state = H::zeros();
    if !init_state(&mut state, given) {
        return Err(StreamFault::TooLong);
    }
    if !given.key.is_empty() {
        scrub_stack::<START_BYTES>();
    }
    if !absorb_source(source, &mut state, buffer) {
        return Err(fault_of(source));
    }
    state.write_digest(&mut out[..]);
    Ok(())
}

// Writes the digest of a list, by BLAKE2b with 64 bytes, with these parameters, which must be those
// of a hash.
fn digest_list(given: &StateParameters<'_>, list: &[u8], out: &mut [u8; 64])
    requires size { given.now.output_size ≡ 64 }
    requires accepted { AdmitsState blake2b (parameters_given given.now sequential) }
    ensures { out.new ≡ digest_given blake2b given.now sequential false list.now }
{
    let mut state = blake2b::State::zeros();
    if init_state(&mut state, given) {
        if !given.key.is_empty() {
            scrub_stack::<START_BYTES>();
        }
        state.absorb(list);
        state.write_digest(&mut out[..]);
    }
}

// Returns the first bytes, at most so many.
fn front(bytes: &[u8], most: usize) -> &[u8]
    ensures front { result.now ≡ take most bytes.now }
    ensures bound { length result.now ≤ most }
{
    if bytes.len() <= most {
        bytes
    } else {
        &bytes[..most]
    }
}

// Absorbs what the source returns, to its end. Returns whether it got there: otherwise a read has
// failed, or the tree would have 2^58 bytes. It is a separate function in the text, so that
// `c/b2sum.c` can take its place, and read the file of this number by so many threads, or one on
// each processor if they are 0. Here one thread reads it.
#[inline(never)]
fn absorb_tree<S: OpenFile>(
    source: &mut S,
    number: i32,
    threads: u32,
    state: &mut TreeState,
    buffer: &mut [u8],
) -> bool
    requires source { S.failed source.old ≡ false }
    requires room { 0 < length buffer.old }
    requires ready { IsReadyTree state.old }
    ensures ready { IsReadyTree state.new }
    ensures size { state.new.root.output_size ≡ state.old.root.output_size }
    ensures failed { IsTrue (S.failed source.new) → result ≡ false }
    ensures name { S.named source.new ≡ S.named source.old }
    ensures whole { result ≡ true → (text : List ℕ)
        × ReturnsAllBytes (S.left source.old) (S.left source.new) text
        × (count state.old + length text < 2 ^ 58)
        × ((y : List ℕ) → future state.new y ≡ future state.old (text ++ y)) }
    ensures too_long { result ≡ false → S.failed source.new ≡ false → (text : List ℕ)
        × Consumes (S.left source.old) (S.left source.new) text
        × (2 ^ 58 ≤ count state.old + length text) }
{
    absorb_source(source, state, buffer)
}

fn digest_tree<S: OpenFile>(
    leaf: u32,
    threads: u32,
    given: &StateParameters<'_>,
    source: &mut S,
    buffer: &mut [u8],
    out: &mut [u8; 64],
) -> Result<(), StreamFault>
    requires source { S.failed source.old ≡ false }
    requires room { 0 < length buffer.old }
    ensures read { IsErrOf result StreamFault.Read ↔ IsTrue (S.failed source.new) }
    ensures name { S.named source.new ≡ S.named source.old }
    ensures whole { OnOk result ((text : List ℕ)
        × ReturnsAllBytes (S.left source.old) (S.left source.new) text
        × (take given.now.output_size out.new ≡ tree_root given.now.output_size
        (tree_parameters given.now.salt.now given.now.persona.now leaf) text)) }
    ensures too_long { IfSome (S.left source.old) (IsTooLong result (S.failed source.new)
        (AreAcceptedTreeLengths (tree_lengths_of given.now.output_size
        (tree_parameters given.now.salt.now given.now.persona.now leaf))) 0 (2 ^ 58)) }
{
    let Ok(mut state) = TreeState::new(given.output_size, given.salt, given.persona, leaf) else {
        return Err(StreamFault::TooLong);
    };
    let number = source.number();
    if !absorb_tree(source, number, threads, &mut state, buffer) {
        return Err(fault_of(source));
    }
    state.write_root(&mut out[..]);
    Ok(())
}
