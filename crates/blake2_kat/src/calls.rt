//! Lists of calls on hashers.

use crate::checks::{check_digits, update_checked};
use blake2::calls::{Call, replay};
use blake2::digest::{Duplicate, FixedOutput, FixedOutputReset, Reset, Update};
use blake2::{Blake2b256, Blake2b512, Blake2s256, Digest};
use blake2_test_support::inputs::{CALLS, fill_with_counting_bytes, has_hex_digits};
use std::process::Abort;

// Checks that a list of calls returns these digests, in hexadecimal.
fn check_replay<H, const N: usize>(
    rt: &(impl Abort + AllocGlobal),
    first: H,
    calls: &[Call<'_>],
    wanted: &[&str],
)
where
    H: Update + FixedOutputReset<N> + FixedOutput<N> + Reset + Duplicate + Drop,
{
    let digests = replay::<H, N>(rt.alloc(), first, calls).expect(rt, "digests");
    assert!(rt; digests.len() == wanted.len(), "{wanted:?}");
    for (i, (digest, digits)) in digests.iter().zip(wanted.iter()).enumerate() {
        assert!(rt;
            has_hex_digits(digest.as_slice(), digits),
            "digest {i} is not {digits}"
        );
    }
}

#[test]
fn replay_returns_digests_of_copies(rt: HostRuntime) {
    let abc = "ba80a53f981c4d0d6a2797b69f12f6e94c212f14685ac4b74b12bb6fdbffa2d1\
               7d87c5392aab792dc252d5de4533cc9518d38aa8dbf1925ab92386edd4009923";
    let nothing = "786a02f742015903c6c6fd852552d272912f4740e15847618a86e217f71f5419\
                   d25e1031afee585313896444934eb04b903a685b1448b755d56f701afe9be2ce";
    check_replay::<_, 64>(&rt, Blake2b512::new(), &CALLS, &[abc, abc, nothing]);
    let abc = "508c5e8c327c14e2e1a72ba34eeb452f37458b209ed63a294d999b4c86675982";
    let nothing = "69217a3079908094e11121d042354a7c1f55b6482ca1a51e1b250dfd1ed0eef9";
    check_replay::<_, 32>(&rt, Blake2s256::new(), &CALLS, &[abc, abc, nothing]);
}

// Checks the digest of the digests of the first 1 to 1,000 bytes, each by a copy in a separate
// slot. The expected ones are those of `tests/expected_values.py`, under `replays`.
fn check_digests_of_1000_prefixes<H, const N: usize>(
    rt: &(impl Abort + AllocGlobal),
    first: H,
    wanted: &str,
)
where
    H: Update + FixedOutputReset<N> + FixedOutput<N> + Reset + Duplicate + Drop,
{
    let mut message = [0; 1000];
    fill_with_counting_bytes(&mut message);
    let mut calls = Vec::new(rt.alloc());
    for byte in message.chunks(1) {
        calls.push(Call::Update(0, byte)).expect(rt, "an update");
        calls.push(Call::Clone(0)).expect(rt, "a clone");
    }
    for slot in 1..1001 {
        calls.push(Call::Finalize(slot)).expect(rt, "a digest");
    }
    let digests = replay::<H, N>(rt.alloc(), first, calls.as_slice()).expect(rt, wanted);
    assert!(rt; digests.len() == 1000, "{wanted}");
    let mut hasher = Blake2b256::new();
    for digest in &digests {
        update_checked(rt, &mut hasher, digest.as_slice());
    }
    check_digits(rt, &hasher.finalize(), wanted);
}

#[test]
fn replay_hashes_1000_prefixes(rt: HostRuntime) {
    let wanted = "f61444b1133ce519c8e309676d976e14a98ba4e21c946441e322928df26b1abe";
    check_digests_of_1000_prefixes::<_, 64>(&rt, Blake2b512::new(), wanted);
    let wanted = "1da4761ee42dd01f62e8cc09ddc9f446059b364fb051a82b3451349af905ab41";
    check_digests_of_1000_prefixes::<_, 32>(&rt, Blake2s256::new(), wanted);
}
