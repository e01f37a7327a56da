// Made by tools/twins.py from src/blake2xb.rt.
//! BLAKE2Xs, with a state of plain numbers.

ghost use Rattle.std.specs.Prelude.{◌≡◌, ◌+◌, ◌^◌, ◌<◌, ◌≤◌, ◌↔◌, length, take, drop};
ghost use Rattle.std.specs.Prelude.{replicate, IfOk, IsErr, IsTrue};
ghost use Rattle.blake2_simd.specs.Family.{blake2s};
ghost use Rattle.blake2_compress.specs.Views.{tree_of};
ghost use Rattle.blake2_digest.specs.States.{Fresh, ResetToStart, Updated};
ghost use Rattle.blake2_state.specs.ConstructorArguments.{counted_key_bytes};
ghost use Rattle.blake2_state.specs.States.{is_on};
ghost use Rattle.blake2_xof.specs.Blake2xs.{HasSqueezed, IsAbsorbing, IsReady, output_length_of};
ghost use Rattle.blake2_xof.specs.Blake2xs.{meaning};
ghost use Rattle.blake2_xof.specs.Blake2xs.{output_now, output_of, zeros};
ghost use Rattle.blake2_xof.specs.Xof.{AdmitsXof, outputs, root_tree_parameters, settings};

use crate::reader::blake2xs::{Reader, UNKNOWN_LENGTH};
use blake2_compress::params::Tree;
use blake2_digest::InvalidLength;
use blake2_state::{StateParameters, blake2s as root};

// The tree parameters of the root hash.
fn root_place(xof_length: u64) -> Tree
    requires { xof_length < 2 ^ 32 }
    ensures { tree_of result ≡ root_tree_parameters xof_length }
{
    Tree {
        fanout: 1,
        depth: 1,
        leaf_length: 0,
        node_offset: xof_length * 0x1_0000_0000,
        node_depth: 0,
        inner_length: 0,
    }
}

/// A state of BLAKE2Xs as plain numbers. All values of the fields are states, and none is unsafe.
/// A state returns output if it is ready ([`State::is_ready`]), as all are that `init` has made.
#[repr(C)]
#[derive(Drop)]
pub struct State {
    /// The root hash.
    pub root: root::State,
    /// The output.
    pub reader: Reader,
    /// 0 while the state absorbs bytes, and all else once its output is read.
    pub reading: u64,
}

impl State {
    /// Returns whether the state returns output.
    pub fn is_ready(&self) -> bool
        ensures { IsTrue result ↔ IsReady self.now }
    {
        self.root.is_ready() && self.root.output_size == 32 && self.reader.is_ready()
    }

    /// Returns whether the state absorbs bytes: it is ready, and none of its output was read since
    /// the last start.
    pub fn is_absorbing(&self) -> bool
        ensures { IsTrue result ↔ IsAbsorbing self.now }
    {
        self.is_ready() && self.reading == 0 && self.reader.position == 0
    }

    /// Returns the zeroed state, which is not ready.
    pub fn zeros() -> Self
        ensures { result ≡ zeros }
    {
        State {
            root: root::State::zeros(),
            reader: Reader::zeros(),
            reading: 0,
        }
    }

    /// Overwrites everything with zeros. The state is then not ready.
    pub fn wipe(&mut self)
        ensures { self.new ≡ zeros }
    {
        *self = Self::zeros();
    }

    /// Returns whether BLAKE2Xs accepts these parameters: an output of `xof_length` bytes, 1 to
    /// 2^16 - 2, or `UNKNOWN_LENGTH`, a key of up to 32 bytes (no bytes mean no key), a salt and a
    /// persona of up to 8 each.
    pub fn accepts(xof_length: u64, key: &[u8], salt: &[u8], persona: &[u8]) -> bool
        ensures { IsTrue result
            ↔ AdmitsXof blake2s (settings xof_length key.now salt.now persona.now) }
    {
        xof_length >= 1
            && xof_length <= UNKNOWN_LENGTH
            && key.len() <= 32
            && salt.len() <= 8
            && persona.len() <= 8
    }

    /// Returns a state that has absorbed no message, with an output of `xof_length` bytes: 1 to
    /// 2^16 - 2, or `UNKNOWN_LENGTH` if the length is not known in advance. The key has up to 32
    /// bytes (no bytes mean no key), and salt and persona have up to 8 each. The error is
    /// `InvalidLength`, exactly for other lengths.
    pub fn init(
        xof_length: u64,
        key: &[u8],
        salt: &[u8],
        persona: &[u8],
    ) -> Result<Self, InvalidLength>
        ensures refused { IsErr result
            ↔ ¬ AdmitsXof blake2s (settings xof_length key.now salt.now persona.now) }
        ensures ready { IfOk result (λ s. IsAbsorbing s) }
        ensures xof_length { IfOk result (λ s. s.reader.xof_length ≡ xof_length) }
        ensures fresh { IfOk result (λ s. Fresh meaning
            (outputs blake2s (settings xof_length key.now salt.now persona.now))
            (counted_key_bytes blake2s key.now) s) }
    {
        if !Self::accepts(xof_length, key, salt, persona) {
            return Err(InvalidLength);
        }
        let given = StateParameters {
            output_size: 32,
            key,
            salt,
            persona,
        };
        let root = root::State::init_tree(&given, &root_place(xof_length))?;
        Ok(State {
            root,
            reader: Reader::new(xof_length, salt, persona),
            reading: 0,
        })
    }

    /// Returns how many bytes the state has counted since its last start, including those of a
    /// key's block: 64 for a key. The state must be ready.
    pub fn counted(&self) -> u64
        requires { IsReady self.now }
        ensures { result ≡ meaning.count self.now }
    {
        self.root.counted()
    }

    /// Absorbs the input after all that was absorbed before. The state must be ready, and absorb
    /// bytes. Fewer than 2^64 bytes may be counted in all; `counted` returns the count so far.
    pub fn update(&mut self, input: &[u8])
        requires absorbing { IsAbsorbing self.old }
        requires counted { meaning.count self.old + length input.now < 2 ^ 64 }
        ensures absorbing { IsAbsorbing self.new }
        ensures xof_length { self.new.reader.xof_length ≡ self.old.reader.xof_length }
        ensures updated { Updated meaning self.old input.now self.new }
    {
        self.root.update(input);
    }

    /// Goes back to the start: parameters and key are kept, and the root hash of an output that was
    /// read is overwritten with zeros. The state must be ready.
    pub fn reset(&mut self)
        requires { IsReady self.old }
        ensures absorbing { IsAbsorbing self.new }
        ensures xof_length { self.new.reader.xof_length ≡ self.old.reader.xof_length }
        ensures reset { ResetToStart meaning self.old self.new }
        ensures root_hash { self.new.reader.root ≡ replicate 32 0 }
    {
        self.root.reset();
        self.reader.root = [0; 32];
        self.reader.position = 0;
        self.reading = 0;
    }

    // Computes the root hash, unless the output is already being read.
    fn begin_reading(&mut self)
        requires { IsReady self.old }
        ensures output { output_of self.new.reader ≡ output_now self.old }
        ensures reading { IsTrue (is_on self.new.reading) }
        ensures root { self.new.root ≡ self.old.root }
        ensures texts { self.new.reader.texts ≡ self.old.reader.texts }
        ensures xof_length { self.new.reader.xof_length ≡ self.old.reader.xof_length }
        ensures position { self.new.reader.position ≡ self.old.reader.position }
    {
        if self.reading != 0 {
            return;
        }
        self.root.write_digest(&mut self.reader.root);
        self.reading = 1;
    }

    /// Reads the next bytes of the output into `out`. The state must be ready, and have that many
    /// bytes left, as `left` of its reader returns. It absorbs nothing more before a reset.
    pub fn squeeze(&mut self, out: &mut [u8])
        requires ready { IsReady self.old }
        requires room { self.old.reader.position + length out.old ≤ output_length_of
            self.old.reader }
        ensures ready { IsReady self.new }
        ensures squeezed { HasSqueezed self.old (length out.old) self.new }
        ensures output { out.new
            ≡ take (length out.old) (drop self.old.reader.position (output_now self.old)) }
    {
        self.begin_reading();
        self.reader.read(out);
    }
}
