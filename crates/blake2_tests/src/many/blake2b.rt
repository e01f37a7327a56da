//! Four messages of BLAKE2b in parallel.

ghost use Rattle.std.specs.Prelude.{◌≤◌};

use super::{counting_bytes, counting_message, input_with_key, read_row};
use blake2::many::blake2b::{accepts_four, hash_four};
use blake2::transcripts::Input;
use blake2_test_support::inputs::{has_hex_digits, input, split_leading_number, unkeyed};

// Four inputs, each of the first n bytes of its message, which are what a row says, as
// `eight_inputs_of_kind` has them.
fn four_inputs_of_kind<'a>(
    bytes: &'a [u8; 4306],
    n: usize,
    what: &str,
    key: &'a [u8],
) -> [Input<'a>; 4]
    requires { n ≤ 4096 }
{
    let mut inputs = [
        unkeyed(counting_message(bytes, 0, n)),
        input(None, b"salt", b"", counting_message(bytes, 40, n)),
        input(None, b"", b"persona", counting_message(bytes, 80, n)),
        input(
            None,
            b"0123456789abcdef",
            b"fedcba9876543210",
            counting_message(bytes, 120, n),
        ),
    ];
    for (j, input) in inputs.iter_mut().enumerate() {
        if what == "keyed" {
            input.key = key.get(j..);
        }
        input.last_node = what == "nodes" && j % 2 == 1;
    }
    inputs
}

// Whether the inputs are accepted, and have these digests.
fn have_digests(inputs: &[Input<'_>; 4], wanted: &str) -> bool {
    accepts_four(inputs) && has_hex_digits(hash_four::<16>(inputs).as_flattened(), wanted)
}

// What the inputs are, the length of their messages, and their digests.
const DIGESTS: &str = "\
unkeyed|0|cae66941d9efbd404e4d88758ea67670c8d682029e33a968ffedfdc5d3226a70\
dc46b8aa218ba780ffa2d9b38e235d0455019f5c950b7e418c30981e11a09102\n\
unkeyed|129|aaf1b0371f6d4ee49ee4fb5ddd9c49ef1ff2d2032663376f2a5aa885bf2efa31\
c7b0da6e42363ff6417ccbd2fefa6f516f19b279dca4a5394a7670b230f12e6a\n\
unkeyed|1000|bca120dfd89cd95d82898473a5b01c90efadea570c53e1590648635a26990836\
d8d339487ecbbb15208eb9d6cd26a3b8b9558b97cc09b3684a0fd200cd45057a\n\
keyed|0|a10863b6fdabb849c1e450fb165688451d886c7a8247361daf44836075886e48\
feb27a12b5761caa06e8bba095b1eb210efb90088f73acae2e0c3043230d7b6d\n\
keyed|129|bd6e57cc45f237a8d7726db04c7630c47674da641c9ea907d1a8a426b52be3e8\
59f560293cb79063b2cd6728d40c5d7d09ba7ac41edf40ee3fb2e987d1dd3635\n\
nodes|129|aaf1b0371f6d4ee49ee4fb5ddd9c49efdaf8fdf426ea5c21b2d8df556d61e961\
c7b0da6e42363ff6417ccbd2fefa6f5175fe66049a1f65c09f50f5aa468fe556\n\
";

#[test]
fn four_inputs_have_their_digests(rt: HostRuntime) {
    let key = [7; 64];
    let bytes = counting_bytes();
    for row in DIGESTS.lines() {
        let (what, n, wanted) = read_row(row);
        assert!(rt; n <= 4096, "{row}");
        let inputs = four_inputs_of_kind(&bytes, n, what, &key);
        assert!(rt; have_digests(&inputs, wanted), "{n} bytes");
    }
}

const ALIKE: &str = "\
0|a10863b6fdabb849c1e450fb165688450155bc3309790f740d94ee9ad78a31ca\
a10863b6fdabb849c1e450fb165688453a2f5df1d74722f67bdc873ac897fe57\n\
72|176a788b5d9894b742036742469585dedcfcd08546346b2cce1adf9ca137aff1\
f37dae6f4c9eb4f16086e52d9202faf0ba01fa9034bd6aab5d2f8882ff74e439\n\
";

// A key counts for 128 bytes, so n bytes under one are next to n + 128 without.
#[test]
fn keyed_and_unkeyed_of_equal_count_by_four(rt: HostRuntime) {
    let key = [7; 64];
    let bytes = counting_bytes();
    for row in ALIKE.lines() {
        let (n, wanted) = split_leading_number(row).unwrap_or((usize::MAX, row));
        assert!(rt; n <= 3000, "{row}");
        let p0 = input_with_key(&key, counting_message(&bytes, 0, n));
        let p1 = unkeyed(counting_message(&bytes, 40, n + 128));
        let p2 = input_with_key(&key, counting_message(&bytes, 80, n));
        let p3 = unkeyed(counting_message(&bytes, 120, n + 128));
        let mut inputs = [p0, p1, p2, p3];
        assert!(rt; have_digests(&inputs, wanted), "{n} bytes");
        inputs[3] = unkeyed(counting_message(&bytes, 120, n + 129));
        assert!(rt; !accepts_four(&inputs), "{n} bytes");
    }
}
