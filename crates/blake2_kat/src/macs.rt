//! Outputs of the MACs, personas of the hashers, and what constructors refuse.

use crate::checks::{check_digits, update_checked};
use blake2::digest::{
    CustomizedInit, FixedOutput, InvalidLength, InvalidOutputSize, KeyInit, Mac, VariableOutputCore,
};
use blake2::{
    Blake2b128, Blake2bMac, Blake2bMac512, Blake2bVarCore, Blake2sMac256, Blake2sVarCore,
};
use blake2_test_support::inputs::{KEY, has_hex_digits};
use std::process::Abort;

// Checks the output of BLAKE2b's MAC for no message.
fn check_blake2b_mac_of_no_message(
    rt: &impl Abort,
    key: Option<&[u8]>,
    salt: &[u8],
    persona: &[u8],
    wanted: &str,
) {
    let mac = Blake2bMac512::new_with_salt_and_personal(key, salt, persona).expect(rt, wanted);
    check_digits(rt, &mac.finalize_fixed(), wanted);
}

// Checks the output of BLAKE2s's MAC for no message.
fn check_blake2s_mac_of_no_message(
    rt: &impl Abort,
    key: Option<&[u8]>,
    salt: &[u8],
    persona: &[u8],
    wanted: &str,
) {
    let mac = Blake2sMac256::new_with_salt_and_personal(key, salt, persona).expect(rt, wanted);
    check_digits(rt, &mac.finalize_fixed(), wanted);
}

#[test]
fn macs_with_salt_and_persona(rt: HostRuntime) {
    let wanted = "03de3b295dcfc3b25b05abb09bc95fe3e9ff3073638badc68101d1e42019d077\
         1dd07525a3aae8318e92c5e5d967ba92e4810d0021d7bf3b49da0b4b4a8a4e1f";
    check_blake2b_mac_of_no_message(&rt, Some(&KEY), b"", b"personal", wanted);
    let wanted = "25a4ee63b594aed3f88a971e1877ef7099534f9097291f88fb86c79b5e70d022";
    check_blake2s_mac_of_no_message(&rt, Some(&KEY), b"", b"personal", wanted);
    let wanted = "fa3cd38902ae0602d8f0066f18c579fae8068074fbe91f9f5774f841f5ab51fe\
         39140ad78d6576f8a0b9f8f4c264221111c9911d8ba1dbefcd034acdbedb8cde";
    check_blake2b_mac_of_no_message(&rt, None, b"salt", b"persona", wanted);
    let wanted = "d7de83e2b1fedd9755db747235b7ba4bf9773a16b91c6b241e4b1d926160d9eb";
    check_blake2s_mac_of_no_message(&rt, None, b"salt", b"persona", wanted);
}

#[test]
fn hasher_with_a_persona(rt: HostRuntime) {
    let mut hasher = Blake2b128::new_customized(b"personal");
    update_checked(&rt, &mut hasher, b"hello");
    assert!(rt; has_hex_digits(&hasher.finalize_fixed(), "5a5eb0aecc053af1ce6de25354c1c761"));
    let mac = Blake2bMac::<16>::new_with_salt_and_personal(None, b"", b"personal");
    let mut mac = mac.expect(&rt, "a MAC without a key");
    Mac::update(&mut mac, b"hello");
    assert!(rt; has_hex_digits(&mac.finalize_fixed(), "5a5eb0aecc053af1ce6de25354c1c761"));
}

#[test]
fn blake2b_macs_refuse_wrong_lengths(rt: HostRuntime) {
    let bytes = [7u8; 65];
    for (key, salt, persona) in [(0, 4, 7), (65, 0, 0), (1, 17, 0), (1, 0, 17)] {
        let mac = Blake2bMac512::new_with_salt_and_personal(
            Some(&bytes[..key]),
            &bytes[..salt],
            &bytes[..persona],
        );
        assert!(rt; matches!(mac, Err(InvalidLength)), "{key} {salt} {persona}");
    }
    assert!(rt; Blake2bMac512::new_from_slice(&[]).is_err());
    assert!(rt; Blake2bMac512::new_from_slice(&bytes[..64]).is_ok());
    assert!(rt; Blake2bMac512::new_from_slice(&bytes[..65]).is_err());
}

#[test]
fn blake2s_macs_refuse_wrong_lengths(rt: HostRuntime) {
    let bytes = [7u8; 65];
    for (key, salt, persona) in [(0, 4, 7), (33, 0, 0), (1, 9, 0), (1, 0, 9)] {
        let mac = Blake2sMac256::new_with_salt_and_personal(
            Some(&bytes[..key]),
            &bytes[..salt],
            &bytes[..persona],
        );
        assert!(rt; matches!(mac, Err(InvalidLength)), "{key} {salt} {persona}");
    }
    assert!(rt; Blake2sMac256::new_from_slice(&[]).is_err());
    assert!(rt; Blake2sMac256::new_from_slice(&bytes[..32]).is_ok());
    assert!(rt; Blake2sMac256::new_from_slice(&bytes[..33]).is_err());
}

#[test]
fn cores_refuse_wrong_output_sizes(rt: HostRuntime) {
    assert!(rt; matches!(Blake2bVarCore::new(65), Err(InvalidOutputSize)));
    assert!(rt; matches!(Blake2sVarCore::new(33), Err(InvalidOutputSize)));
    assert!(rt; Blake2bVarCore::new(0).is_ok());
}

// Whether BLAKE2b's MAC of 300 bytes accepts the tag.
fn blake2b_mac_accepts_tag(rt: &impl Abort, tag: &[u8]) -> bool {
    let mac = Blake2bMac512::new_from_slice(&[0x42; 64]).expect(rt, "a MAC under 64 bytes");
    mac.chain_update(&[42; 300]).verify_slice(tag).is_ok()
}

#[test]
fn blake2b_mac_accepts_only_its_tag(rt: HostRuntime) {
    let mac = Blake2bMac512::new(&[0x42; 64]).chain_update(&[42; 300]);
    let tag = mac.finalize().into_bytes();
    let tag = tag.as_slice();
    assert!(rt; blake2b_mac_accepts_tag(&rt, tag));
    let (_, beginning) = tag.split_last().expect(&rt, "a tag of no bytes");
    assert!(rt; !blake2b_mac_accepts_tag(&rt, beginning));
    let wanted = "226ed748d3ada97130b047f75ebb308a12d0d534b4d58cef2114de79cea0f1af\
         8ec36affb9ca8acb3af055879919d895002242ac45113d605d18bd76ad6251ab";
    check_digits(&rt, tag, wanted);
}

// Whether BLAKE2s's MAC of 300 bytes accepts the tag.
fn blake2s_mac_accepts_tag(rt: &impl Abort, tag: &[u8]) -> bool {
    let mac = Blake2sMac256::new_from_slice(&[0x42; 32]).expect(rt, "a MAC under 32 bytes");
    mac.chain_update(&[42; 300]).verify_slice(tag).is_ok()
}

#[test]
fn blake2s_mac_accepts_only_its_tag(rt: HostRuntime) {
    let mac = Blake2sMac256::new(&[0x42; 32]).chain_update(&[42; 300]);
    let tag = mac.finalize().into_bytes();
    let tag = tag.as_slice();
    assert!(rt; blake2s_mac_accepts_tag(&rt, tag));
    let (_, beginning) = tag.split_last().expect(&rt, "a tag of no bytes");
    assert!(rt; !blake2s_mac_accepts_tag(&rt, beginning));
    let wanted = "529f4f5488fba36a6e6b6ed17a0303e9a0732d86e769eb23523f5eabbb23cfa6";
    check_digits(&rt, tag, wanted);
}
