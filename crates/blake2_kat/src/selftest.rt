//! The self-tests of RFC 7693, appendix E: one digest of the digests of many sizes and lengths,
//! with and without keys.

ghost use Rattle.std.specs.Prelude.{◌≤◌};

use crate::checks::update_checked;
use blake2::digest::FixedOutput;
use blake2::{Blake2b, Blake2b256, Blake2bMac, Blake2s, Blake2s256, Blake2sMac, Digest};
use blake2_test_support::inputs::has_hex_digits;
use std::process::Abort;

// Fills the bytes with the appendix's sequence of this seed.
fn fill_with_rfc_7693_sequence(bytes: &mut [u8], seed: u32) {
    let mut a = 0xdead4badu32.wrapping_mul(seed);
    let mut b = 1u32;
    for byte in bytes.iter_mut() {
        let sum = a.wrapping_add(b);
        a = b;
        b = sum;
        *byte = (sum >> 24) as u8;
    }
}

// Absorbs BLAKE2b's digests of one size, for each of the appendix's lengths without and with a
// key.
fn update_with_blake2b_digests<const N: usize>(rt: &impl Abort, digests: &mut Blake2b256)
    requires { N ≤ 64 }
{
    let mut key = [0; N];
    fill_with_rfc_7693_sequence(&mut key, N as u32);
    for length in [0u32, 3, 128, 129, 255, 1024] {
        let mut room = [0; 1024];
        let message = &mut room[..length as usize];
        fill_with_rfc_7693_sequence(message, length);
        update_checked(rt, digests, Blake2b::<N>::digest(message).as_slice());
        let mac = Blake2bMac::<N>::new_with_salt_and_personal(Some(&key), b"", b"");
        let mut mac = mac.expect(rt, "a MAC under this key");
        update_checked(rt, &mut mac, message);
        update_checked(rt, digests, mac.finalize_fixed().as_slice());
    }
}

// Absorbs BLAKE2s's digests of one size, for each of the appendix's lengths without and with a
// key.
fn update_with_blake2s_digests<const N: usize>(rt: &impl Abort, digests: &mut Blake2s256)
    requires { N ≤ 32 }
{
    let mut key = [0; N];
    fill_with_rfc_7693_sequence(&mut key, N as u32);
    for length in [0u32, 3, 64, 65, 255, 1024] {
        let mut room = [0; 1024];
        let message = &mut room[..length as usize];
        fill_with_rfc_7693_sequence(message, length);
        update_checked(rt, digests, Blake2s::<N>::digest(message).as_slice());
        let mac = Blake2sMac::<N>::new_with_salt_and_personal(Some(&key), b"", b"");
        let mut mac = mac.expect(rt, "a MAC under this key");
        update_checked(rt, &mut mac, message);
        update_checked(rt, digests, mac.finalize_fixed().as_slice());
    }
}

#[test]
fn blake2b_passes_rfc_7693_self_test(rt: HostRuntime) {
    let mut digests = Blake2b256::new();
    update_with_blake2b_digests::<20>(&rt, &mut digests);
    update_with_blake2b_digests::<32>(&rt, &mut digests);
    update_with_blake2b_digests::<48>(&rt, &mut digests);
    update_with_blake2b_digests::<64>(&rt, &mut digests);
    let wanted = "c23a7800d98123bd10f506c61e29da5603d763b8bbad2e737f5e765a7bccd475";
    assert!(rt; has_hex_digits(&digests.finalize(), wanted));
}

#[test]
fn blake2s_passes_rfc_7693_self_test(rt: HostRuntime) {
    let mut digests = Blake2s256::new();
    update_with_blake2s_digests::<16>(&rt, &mut digests);
    update_with_blake2s_digests::<20>(&rt, &mut digests);
    update_with_blake2s_digests::<28>(&rt, &mut digests);
    update_with_blake2s_digests::<32>(&rt, &mut digests);
    let wanted = "6a411f08ce25adcdfb02aba641451cec53c598b24f4fc787fbdc88797f4c1dfe";
    assert!(rt; has_hex_digits(&digests.finalize(), wanted));
}
