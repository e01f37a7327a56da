//! Hashers that no caller reaches in a test's time, up to the largest count, 2^64 - 1, and the
//! words that hashers start from.

ghost use Rattle.std.specs.Prelude.{◌≤◌};

mod scalar;

use crate::calls::{Call, ReplayFault, replay};
use crate::digest::{CustomizedInit, Duplicate, FixedOutput, FixedOutputReset, Reset, Update};
use crate::streams::{SliceSink, SliceSource, StreamFault, hash_stream};
use crate::{Blake2b, Blake2b128, Blake2b512, Blake2s, Blake2s256, Digest};
use blake2_compress::consts::{BLAKE2B_IV, BLAKE2S_IV};
use scalar::compress;
use std::process::Abort;

// BLAKE2b-512 that has compressed 2^64 - 256 bytes and keeps a block of zeros: 127 bytes are left
// to the largest count.
fn blake2b_near_the_limit() -> Blake2b512 {
    Blake2b512::counting_from(u64::MAX - 255, &[0; 128])
}

// BLAKE2s-256 that has compressed 2^64 - 128 bytes and keeps a block of zeros: 63 bytes are left
// to the largest count.
fn blake2s_near_the_limit() -> Blake2s256 {
    Blake2s256::counting_from(u64::MAX - 127, &[0; 64])
}

// Their digests after that number of zeros, high byte first, from a plain program of RFC 7693,
// 3.2, in Python, whose digests of short messages are those of hashlib; and the lines of these.
const GREATEST_BLAKE2B: [u128; 4] = [
    0x13a39966e71fc38d0c2e77f8b81f5d82,
    0xc2b3345321a34447f6f9d7324d10812d,
    0x020c6fa39d5a32e8b3b5368cf0313b1f,
    0x93c06f36e211c260f69e8b4e95dbef05,
];

const GREATEST_BLAKE2S: [u128; 2] = [
    0x98b6e82d0a434c4f45c7632ec858cc44,
    0x56700dde01acbf72f462ba795e35439d,
];

const LINE_OF_BLAKE2B: &[u8] = b"13a39966e71fc38d0c2e77f8b81f5d82c2b3345321a34447f6f9d7324d10812d\
    020c6fa39d5a32e8b3b5368cf0313b1f93c06f36e211c260f69e8b4e95dbef05\n";

const LINE_OF_BLAKE2S: &[u8] =
    b"98b6e82d0a434c4f45c7632ec858cc4456700dde01acbf72f462ba795e35439d\n";

// Checks that a digest is these numbers of 16 bytes.
fn check_digest(rt: &impl Abort, digest: &[u8], wanted: &[u128]) {
    let (found, rest) = digest.as_chunks::<16>();
    assert!(rt; found.len() == wanted.len() && rest.is_empty());
    for (bytes, number) in found.iter().zip(wanted) {
        assert!(rt; u128::from_be_bytes(*bytes) == *number, "{number:x}");
    }
}

// Checks what a stream of a number of zeros to a hasher returns, and all that it writes.
fn check_stream<H: Update + FixedOutput<N> + Drop, const N: usize>(
    rt: &impl Abort,
    hasher: H,
    length: usize,
    answer: Result<u64, StreamFault>,
    line: &[u8],
)
    requires { N ≤ 64 }
{
    let message = [0; 128];
    assert!(rt; length <= 128 && line.len() <= 129);
    let mut source = SliceSource::new(&message[..length], 100, None);
    let mut room = [0u8; 129];
    let mut sink = SliceSink::new(&mut room, 129, None);
    let found = hash_stream(&mut source, &mut sink, hasher);
    let written = sink.written();
    assert!(rt; found == answer && written == line.len(), "{length}");
    assert!(rt; &room[..line.len()] == line, "{length}");
}

#[test]
fn stream_to_the_greatest_count(rt: HostRuntime) {
    let near = blake2b_near_the_limit();
    check_stream::<_, 64>(&rt, near, 127, Ok(127), LINE_OF_BLAKE2B);
    let near = blake2b_near_the_limit();
    check_stream::<_, 64>(&rt, near, 128, Err(StreamFault::TooLong), b"");
    let near = blake2s_near_the_limit();
    check_stream::<_, 32>(&rt, near, 63, Ok(63), LINE_OF_BLAKE2S);
    let near = blake2s_near_the_limit();
    check_stream::<_, 32>(&rt, near, 64, Err(StreamFault::TooLong), b"");
}

// What a list of two calls returns: an update of a number of zeros, and this one.
fn replay_zeros<H, const N: usize>(
    rt: &(impl Abort + AllocGlobal),
    first: H,
    length: usize,
    second: Call<'_>,
) -> Result<Vec<[u8; N]>, ReplayFault>
where
    H: Update + FixedOutputReset<N> + FixedOutput<N> + Reset + Duplicate + Drop,
{
    let zeros = [0; 128];
    assert!(rt; length <= 128);
    let calls = [Call::Update(0, &zeros[..length]), second];
    replay(rt.alloc(), first, &calls)
}

// The digest that such a list returns, which is checked to be the only one.
fn single_digest<H, const N: usize>(
    rt: &(impl Abort + AllocGlobal),
    first: H,
    length: usize,
) -> [u8; N]
where
    H: Update + FixedOutputReset<N> + FixedOutput<N> + Reset + Duplicate + Drop,
{
    let digests = replay_zeros::<H, N>(rt, first, length, Call::Finalize(0));
    match digests.expect(rt, "digests").as_slice() {
        [digest] => *digest,
        digests => panic!(rt; "{} digests", digests.len()),
    }
}

#[test]
fn count_blake2b_to_the_greatest(rt: HostRuntime) {
    let mut hasher = blake2b_near_the_limit();
    assert!(rt; hasher.counted() == u64::MAX - 127);
    Update::update(&mut hasher, &[0; 127]);
    assert!(rt; hasher.counted() == u64::MAX);
    check_digest(&rt, &hasher.finalize(), &GREATEST_BLAKE2B);
    let digest: [u8; 64] = single_digest(&rt, blake2b_near_the_limit(), 127);
    check_digest(&rt, &digest, &GREATEST_BLAKE2B);
    let one_more = Call::Update(0, b"\0");
    let refused = replay_zeros::<_, 64>(&rt, blake2b_near_the_limit(), 127, one_more);
    assert!(rt; matches!(refused, Err(ReplayFault::TooLong(1))));
}

#[test]
fn count_blake2s_to_the_greatest(rt: HostRuntime) {
    let mut hasher = blake2s_near_the_limit();
    assert!(rt; hasher.counted() == u64::MAX - 63);
    Update::update(&mut hasher, &[0; 63]);
    assert!(rt; hasher.counted() == u64::MAX);
    check_digest(&rt, &hasher.finalize(), &GREATEST_BLAKE2S);
    let digest: [u8; 32] = single_digest(&rt, blake2s_near_the_limit(), 63);
    check_digest(&rt, &digest, &GREATEST_BLAKE2S);
    let one_more = Call::Update(0, b"\0");
    let refused = replay_zeros::<_, 32>(&rt, blake2s_near_the_limit(), 63, one_more);
    assert!(rt; matches!(refused, Err(ReplayFault::TooLong(1))));
}

// The bytes of chaining words.
fn to_bytes(h: [u32; 8]) -> [[u8; 4]; 8] {
    h.map(|word| word.to_le_bytes())
}

// The two blocks after 2^32 - 64 bytes count 2^32 and 2^32 + 1, past the counter's low word.
#[test]
fn count_blake2s_past_2_32(rt: HostRuntime) {
    let mut start = BLAKE2S_IV;
    start[0] ^= 0x01010020;
    let mut last = [0; 64];
    last[0] = b'*';
    // The digest of 65 bytes 2a, from hashlib.blake2s.
    let h = compress(start, &[b'*'; 64], 64, false);
    let found = to_bytes(compress(h, &last, 65, true));
    let wanted = [
        0xcfc0beac42a11534ea33a2d8ccadee69,
        0xef7d6766d6d781c3a9bdfaae3ae9c2c3,
    ];
    check_digest(&rt, found.as_flattened(), &wanted);
    let h = compress(start, &[0; 64], 1 << 32, false);
    let wanted = to_bytes(compress(h, &last, (1 << 32) + 1, true));
    let mut hasher = Blake2s256::counting_from((1 << 32) - 64, &[0; 64]);
    Update::update(&mut hasher, b"*");
    assert!(rt; hasher.counted() == (1 << 32) + 1);
    assert!(rt; hasher.finalize().as_slice() == wanted.as_flattened());
}

// IV xored with the words of the parameter block (RFC 7693, 2.5; the BLAKE2 document, 2.8): the
// length of a digest, fanout and depth 1, and a persona.
#[test]
fn start_from_the_parameters(rt: HostRuntime) {
    let mut wanted = BLAKE2B_IV;
    wanted[0] ^= 0x01010010;
    wanted[6] ^= 0x6c616e6f73726570;
    assert!(rt; Blake2b128::new_customized(b"personal").first_words() == wanted);
    let mut wanted = BLAKE2B_IV;
    wanted[0] ^= 0x01010000;
    assert!(rt; Blake2b::<0>::new().first_words() == wanted);
    let mut wanted = BLAKE2S_IV;
    wanted[0] ^= 0x01010010;
    assert!(rt; Blake2s::<16>::new().first_words() == wanted);
}
