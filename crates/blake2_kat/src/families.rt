//! The two families by their words, so that a test is written once for both.

use crate::checks::reading;
use blake2::transcripts::{Input, Step, Transcript};
use blake2::{Blake2b512, Blake2bVarCore, Blake2s256, Blake2sVarCore, Digest, LastNode};
use blake2_test_support::inputs::input_of_reading;
use std::alloc::AllocError;
use std::fmt::Debug;
use std::process::Abort;

/// The words of a family, whose blocks have B bytes, and the calls of its core that tests compare.
pub(crate) trait Word<const B: usize>: Copy + Drop + Eq + Debug {
    /// The word with a bit turned.
    fn with_bit_flipped(self, bit: usize) -> Self;

    /// The bytes of the word, low byte first, and then zeros.
    fn to_bytes(self) -> [u8; 8];

    /// The digest of the maximum size of a node, which is checked to be accepted.
    fn digest(rt: &(impl Abort + AllocGlobal), node: &Input<'_>) -> Vec<u8>;

    /// The transcript of an input, which is checked to be accepted, at a size that the family has.
    fn transcript_of_accepted(
        rt: &(impl Abort + AllocGlobal),
        input: &Input<'_>,
        output_size: usize,
    ) -> Transcript<Self, B>;

    /// Whether the transcript is read. It is then checked to be that of the input that is read.
    fn is_read(rt: &(impl Abort + AllocGlobal), told: &Transcript<Self, B>) -> bool;

    /// Whether the transcript is read as this input, which the family accepts, at this output size.
    fn is_read_as(
        rt: &(impl Abort + AllocGlobal),
        told: &Transcript<Self, B>,
        input: &Input<'_>,
        output_size: usize,
    ) -> bool;

    /// The witness of two inputs, which are checked to be accepted, at a size that the family has.
    fn witness(
        rt: &(impl Abort + AllocGlobal),
        a: &Input<'_>,
        b: &Input<'_>,
        output_size: usize,
    ) -> Result<Option<(Step<Self, B>, Step<Self, B>)>, AllocError>;
}

impl Word<128> for u64 {
    fn with_bit_flipped(self, bit: usize) -> u64 {
        self ^ 1u64.wrapping_shl((bit % 64) as u32)
    }

    fn to_bytes(self) -> [u8; 8] {
        self.to_le_bytes()
    }

    fn digest(rt: &(impl Abort + AllocGlobal), node: &Input<'_>) -> Vec<u8> {
        assert!(rt; Blake2bVarCore::accepts(node) && Blake2bVarCore::admits_tree(&node.tree));
        let mut hasher = Blake2b512::new_with_tree(node.salt, node.persona, &node.tree);
        hasher.set_last_node(node.last_node);
        Digest::update(&mut hasher, node.message);
        hasher
            .finalize()
            .to_vec(rt.alloc())
            .expect(rt, "room for a digest")
    }

    fn transcript_of_accepted(
        rt: &(impl Abort + AllocGlobal),
        input: &Input<'_>,
        output_size: usize,
    ) -> Transcript<u64, 128> {
        assert!(rt; Blake2bVarCore::accepts(input) && output_size <= 64);
        let written = Blake2bVarCore::transcript(rt.alloc(), input, output_size);
        written.expect(rt, "room for a transcript")
    }

    fn is_read(rt: &(impl Abort + AllocGlobal), told: &Transcript<u64, 128>) -> bool {
        let read = Blake2bVarCore::read_transcript(rt.alloc(), told);
        let Some(read) = read.expect(rt, "room for a reading") else {
            return false;
        };
        let written = Self::transcript_of_accepted(rt, &input_of_reading(&read), read.output_size);
        assert!(rt; written == *told, "{told:?}");
        true
    }

    fn is_read_as(
        rt: &(impl Abort + AllocGlobal),
        told: &Transcript<u64, 128>,
        input: &Input<'_>,
        output_size: usize,
    ) -> bool {
        if !Blake2bVarCore::accepts(input) {
            return false;
        }
        let wanted = reading(rt, input, output_size);
        Blake2bVarCore::read_transcript(rt.alloc(), told) == Ok(Some(wanted))
    }

    fn witness(
        rt: &(impl Abort + AllocGlobal),
        a: &Input<'_>,
        b: &Input<'_>,
        output_size: usize,
    ) -> Result<Option<(Step<u64, 128>, Step<u64, 128>)>, AllocError> {
        assert!(rt; Blake2bVarCore::accepts(a) && Blake2bVarCore::accepts(b) && output_size <= 64);
        Blake2bVarCore::witness(rt.alloc(), a, b, output_size)
    }
}

impl Word<64> for u32 {
    fn with_bit_flipped(self, bit: usize) -> u32 {
        self ^ 1u32.wrapping_shl((bit % 32) as u32)
    }

    fn to_bytes(self) -> [u8; 8] {
        u64::from(self).to_le_bytes()
    }

    fn digest(rt: &(impl Abort + AllocGlobal), node: &Input<'_>) -> Vec<u8> {
        assert!(rt; Blake2sVarCore::accepts(node) && Blake2sVarCore::admits_tree(&node.tree));
        let mut hasher = Blake2s256::new_with_tree(node.salt, node.persona, &node.tree);
        hasher.set_last_node(node.last_node);
        Digest::update(&mut hasher, node.message);
        hasher
            .finalize()
            .to_vec(rt.alloc())
            .expect(rt, "room for a digest")
    }

    fn transcript_of_accepted(
        rt: &(impl Abort + AllocGlobal),
        input: &Input<'_>,
        output_size: usize,
    ) -> Transcript<u32, 64> {
        assert!(rt; Blake2sVarCore::accepts(input) && output_size <= 32);
        let written = Blake2sVarCore::transcript(rt.alloc(), input, output_size);
        written.expect(rt, "room for a transcript")
    }

    fn is_read(rt: &(impl Abort + AllocGlobal), told: &Transcript<u32, 64>) -> bool {
        let read = Blake2sVarCore::read_transcript(rt.alloc(), told);
        let Some(read) = read.expect(rt, "room for a reading") else {
            return false;
        };
        let written = Self::transcript_of_accepted(rt, &input_of_reading(&read), read.output_size);
        assert!(rt; written == *told, "{told:?}");
        true
    }

    fn is_read_as(
        rt: &(impl Abort + AllocGlobal),
        told: &Transcript<u32, 64>,
        input: &Input<'_>,
        output_size: usize,
    ) -> bool {
        if !Blake2sVarCore::accepts(input) {
            return false;
        }
        let wanted = reading(rt, input, output_size);
        Blake2sVarCore::read_transcript(rt.alloc(), told) == Ok(Some(wanted))
    }

    fn witness(
        rt: &(impl Abort + AllocGlobal),
        a: &Input<'_>,
        b: &Input<'_>,
        output_size: usize,
    ) -> Result<Option<(Step<u32, 64>, Step<u32, 64>)>, AllocError> {
        assert!(rt; Blake2sVarCore::accepts(a) && Blake2sVarCore::accepts(b) && output_size <= 32);
        Blake2sVarCore::witness(rt.alloc(), a, b, output_size)
    }
}
