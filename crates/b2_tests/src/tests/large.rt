//! Inputs of more than a MiB, and scripts of ten thousand lines. The lines and digests over the
//! input come from `tests/expected_values.py`, under `large`.

use super::script::check_script_is_refused;
use super::{check_prints_only_line, is_digest_of_outputs, output_if_successful, text_of_parts};
use std::alloc::{AllocError, Global};
use std::process::Abort;

// The length of the input in bytes.
const INPUT_BYTES: usize = (1 << 20) + 1;

// KIND; the line of `sum` over the input; and the digest of what `steps` prints over it.
const DIGESTS: &str = "\
b512|25cc597182fb9b2840c188ae8a2007569ec0b11ca2dfd9447d5eb94b15f9a0c7\
91f40cff82758849a753b43d04f5f526916a7f22f58d6e1fa821a18d1b0cea15|\
ba782512d614cdf586cde39246f29debda06e28076897c476d3b91edb15dc6f2\n\
s256|5b6a9e00d9e93e5e5702a6a6f6853905a79f10243d6883f9d49b5e32c43ff310|\
f506f03008633ed93b4adae5c5ca1cbb9a51ec0ae2958ae4766f69c7cc268be9\n\
";

// The line of `tree b256 1` over the first bytes of the input, of which a piece has 65,537.
const BYTES_ROOT: &str = "a285c343f3812798625708f036c5546a9b1fb51bf0e60e6706ff2f29d81255af";

// LEAF, and the line of `tree b256` over the input. A piece of the input has many such leaves, a
// few, or not a whole one.
pub(super) const ROOTS: &str = "\
64|1b6af88dbba72489483c4756533e1050f6c780af2f42784787c398987a7c71f5\n\
1000|4f9e0d1124250152879c91ffa01a972c39f0260fa25ae8f0bc335c1c4659d11e\n\
4096|a8552846bf0459c5db94f3734e1c20cb4c20cc41d11c96f33157c366f744d3b9\n\
20000|ca12a7f82ecf90cedba466868b36f5babdd02fbcf6db0f83d2b1f1c545f75289\n\
1048576|c246c4c8659b40d2c1900d2dd16ea16cdbedcb7791b32d6c2ef052348be2b6d1\n\
1048577|07b740dbfd566e58e8e09c7d1d04598861d0664b6ff20973dc37331a60531c16\n\
67108864|fdfeaf6df7e020f83b31b41a2b244efbcb97f99a917a024d2480e86d104f4248\n\
";

// Returns the input, whose byte i is i modulo 251.
pub(super) fn large_input(alloc: Global) -> Result<Vec<u8>, AllocError> {
    let mut input = Vec::with_capacity(alloc, INPUT_BYTES)?;
    for i in 0..INPUT_BYTES {
        input.push((i % 251) as u8)?;
    }
    Ok(input)
}

// Checks a KIND over the input and over a script that updates slot 0 with it.
fn check_kind_over_large_input(
    rt: &(impl Abort + AllocGlobal),
    kind: &str,
    digests: &str,
    input: &[u8],
    script: &[u8],
) {
    let (digest, steps_digest) = digests.split_once('|').unwrap_or((digests, ""));
    check_prints_only_line(rt, "sum", kind, input, digest);
    check_prints_only_line(rt, "script", kind, script, digest);
    let transcript = output_if_successful(rt.alloc(), &["steps ", kind], input);
    assert!(rt;
        is_digest_of_outputs(transcript.as_slice(), steps_digest),
        "b2 steps {kind}"
    );
}

// Returns the input, its digits, and a script that updates slot 0 with it.
fn large_input_digits_and_script(alloc: Global) -> Result<(Vec<u8>, String, String), AllocError> {
    let input = large_input(alloc)?;
    let digits = hex::encode(alloc, input.as_slice())?;
    let script = text_of_parts(alloc, &["u 0 ", digits.as_str(), "\nf 0\n"])?;
    Ok((input, digits, script))
}

#[test]
fn large_inputs_have_their_digests(rt: HostRuntime) {
    let (input, digits, script) = large_input_digits_and_script(rt.alloc()).expect(
        &rt,
        "memory for the test",
    );
    for row in DIGESTS.lines() {
        let (kind, digests) = row.split_once('|').unwrap_or((row, ""));
        check_kind_over_large_input(&rt, kind, digests, input.as_slice(), script.as_bytes());
    }
    let digits = digits.as_str();
    let none = output_if_successful(rt.alloc(), &["witness b512 ", digits, " ", digits], b"");
    assert!(rt; none.as_slice() == b"none\n".as_slice(), "b2 witness b512");
}

#[test]
fn large_trees_have_their_roots(rt: HostRuntime) {
    let input = large_input(rt.alloc()).expect(&rt, "memory for the test");
    for row in ROOTS.lines() {
        let (leaf, root) = row.split_once('|').unwrap_or((row, ""));
        check_prints_only_line(&rt, "tree b256", leaf, input.as_slice(), root);
    }
}

#[test]
fn more_leaves_than_a_piece_have_their_root(rt: HostRuntime) {
    let input = large_input(rt.alloc()).expect(&rt, "memory for the test");
    let bytes = input.as_slice().get(..65_600).unwrap_or(b"");
    check_prints_only_line(&rt, "tree b256", "1", bytes, BYTES_ROOT);
}

// Returns a script of ten thousand lines, of which the one at `place`, from 0, is `other`.
fn long_script_with_other_line(
    alloc: Global,
    place: usize,
    line: &str,
    other: &str,
) -> Result<String, AllocError> {
    let mut script = String::new(alloc);
    for i in 0..10_000 {
        script.push_str(if i == place { other } else { line })?;
        script.push_str("\n")?;
    }
    Ok(script)
}

// Checks which line of such a script is refused. Bars are between the line, the other one and the
// cause.
fn check_refused_line_of_long_script(rt: &(impl Abort + AllocGlobal), place: usize, lines: &str) {
    let (line, rest) = lines.split_once('|').unwrap_or((lines, ""));
    let (other, cause) = rest.split_once('|').unwrap_or((rest, ""));
    let script = long_script_with_other_line(rt.alloc(), place, line, other).expect(rt, lines);
    let fault = format!(in rt.alloc(); "b2: line {}: {cause}", place.saturating_add(1));
    check_script_is_refused(rt, script.as_bytes(), fault.expect(rt, lines).as_str());
}

#[test]
fn refused_line_of_ten_thousand_is_named(rt: HostRuntime) {
    for place in [
        0, 1, 8, 9, 98, 99, 999, 1023, 1024, 4095, 4096, 5000, 8999, 9998, 9999,
    ] {
        // The line, the other line, and the cause.
        check_refused_line_of_long_script(&rt, place, "u 0 61|u 0 6|wrong line");
        check_refused_line_of_long_script(&rt, place, "d 0||wrong line");
        check_refused_line_of_long_script(&rt, place, "c 0|c 00|wrong line");
        check_refused_line_of_long_script(&rt, place, "u 0 6162|u 10001 61|no such slot");
        check_refused_line_of_long_script(&rt, place, "r 0|f 99999|no such slot");
    }
}
