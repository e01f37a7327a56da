//! Outputs of BLAKE2X and derived keys. `hashlib` has none: the values are those of the model in
//! `tests/oracle.py`, and Go's package has the same.

use super::{append_output, check_rows_of_commands, is_digest_of_outputs, output_if_successful};
use std::process::Abort;

#[test]
fn xof_outputs_are_printed(rt: HostRuntime) {
    check_rows_of_commands(&rt, OUTPUTS, None, 0);
}

const OUTPUTS: &str = "\
xof xb 1|abc|cd
xof xb 65 key=010203|abc|6f8d40351e3dd9ba7bcc919067dfde0832198b968290d0e3a8cd2c9618b160f1\
e4558be761e1ff568726ddb64c247b4eeaabf4e9589839c7af1ed22c0246b34fc7
xof xs 33 persona-text=apple salt=01|abc|\
eea2823aa41ed238900ec86e5abd0edf2c9507fd48ff4b0d4a55e32cfe62fe6275
xof xs 8||4b1b488dc79e978c
derive 32 context|master key|7f71fabc20c90d95ae1ed05991e53c05396b98ff3a928cbc7bb3ae6b953f228c
derive 65 a|kkkkkkkkkkkkkkkkkkkkkkkkkkkkkkkkkkkkkkkkkkkkkkkkkkkkkkkkkkkkkkkk|\
2943174eec800cfacbca8203866f2084f2735187ada464222f0943c4f8b9ec21\
52e45372158bdc3b7754cea9aa3de8e98c661f1b68c4a3c8f8a6302b8cac5650cd
derive 3 raw|key|53d860
sum b128 persona-text=a=b|abc|a1d352f737a1495354f66cd9b7d293a1
sum s128 persona-text=apple|abc|920ddb0203d8ef082ac648fb064a5940";

// Checks that a command over an input prints the bytes of these digits, and no newline. Bars
// separate the three.
fn check_raw_bytes(rt: &(impl Abort + AllocGlobal), row: &str) {
    let (words, rest) = row.split_once('|').unwrap_or((row, ""));
    let (input, digits) = rest.split_once('|').unwrap_or((rest, ""));
    let output = output_if_successful(rt.alloc(), &[words], input.as_bytes());
    let found = hex::encode(rt.alloc(), output.as_slice()).expect(rt, words);
    assert_eq!(rt; found.as_str(), digits, "b2 {words}");
}

#[test]
fn raw_outputs_have_no_newline(rt: HostRuntime) {
    for row in RAW_OUTPUTS.lines() {
        check_raw_bytes(&rt, row);
    }
}

const RAW_OUTPUTS: &str = "\
xof xb 1 raw|abc|cd
xof xb 65 raw key=010203|abc|6f8d40351e3dd9ba7bcc919067dfde0832198b968290d0e3a8cd2c9618b160f1\
e4558be761e1ff568726ddb64c247b4eeaabf4e9589839c7af1ed22c0246b34fc7
xof xs 33 raw persona-text=apple salt=01|abc|\
eea2823aa41ed238900ec86e5abd0edf2c9507fd48ff4b0d4a55e32cfe62fe6275
derive 32 context raw|master key|\
7f71fabc20c90d95ae1ed05991e53c05396b98ff3a928cbc7bb3ae6b953f228c
derive 3 raw raw|key|53d860";

// Outputs of several pieces, the longest of BLAKE2Xs among them.
#[test]
fn outputs_of_several_pieces_are_printed(rt: HostRuntime) {
    let (mut long, mut longest) = (Vec::new(rt.alloc()), Vec::new(rt.alloc()));
    append_output(&rt, &mut long, &["xof xb 10000"], b"abc");
    append_output(&rt, &mut longest, &["xof xs 65534"], b"abc");
    let wanted = "a6dc995dc95bea9381a29cccba8b872be1483a584a6e5d8f532578426e236192";
    assert!(rt; is_digest_of_outputs(long.as_slice(), wanted));
    let wanted = "06f02728e14ef3df3ae310afdd48b04a2e99e36e4787ab8dd767dd36d3c947e9";
    assert!(rt; is_digest_of_outputs(longest.as_slice(), wanted));
}

#[test]
fn long_raw_outputs_are_printed(rt: HostRuntime) {
    let (mut long, mut longest) = (Vec::new(rt.alloc()), Vec::new(rt.alloc()));
    append_output(&rt, &mut long, &["xof xb 10000 raw"], b"abc");
    append_output(&rt, &mut longest, &["xof xs 65534 raw"], b"abc");
    let wanted = "e87179bfb1b75653d476f74f7ee0c315b643f1fc6941cc0a485026605a7d5b71";
    assert!(rt; is_digest_of_outputs(long.as_slice(), wanted));
    let wanted = "88bdcee274737362c99a3a549b253f1f239d8327c3933793105cc6474466dbb8";
    assert!(rt; is_digest_of_outputs(longest.as_slice(), wanted));
}

// A key that is the input has 1 to 64 bytes.
#[test]
fn derived_key_needs_key_of_1_to_64_bytes(rt: HostRuntime) {
    check_rows_of_commands(&rt, WRONG_KEYS, None, 2);
}

const WRONG_KEYS: &str = "\
derive 32 context||b2: wrong length
derive 32 context|kkkkkkkkkkkkkkkkkkkkkkkkkkkkkkkkkkkkkkkkkkkkkkkkkkkkkkkkkkkkkkkkk|b2: wrong length";
