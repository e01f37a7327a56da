//! `b2 witness`.

use super::{check_prints_only_text, check_rows_of_commands};
use blake2::{Blake2b, Blake2s, Digest};
use std::process::Abort;

// The letter and the chaining words of the only step of a message, for a digest of no bytes.
pub(super) const B0: &str =
    "s 6a09e667f2bdc908 bb67ae8584caa73b 3c6ef372fe94f82b a54ff53a5f1d36f1 510e527fade682d1 \
    9b05688c2b3e6c1f 1f83d9abfb41bd6b 5be0cd19137e2179 ";

const S0: &str = "s 6b08e667 bb67ae85 3c6ef372 a54ff53a 510e527f 9b05688c 1f83d9ab 5be0cd19 ";

#[test]
fn witness_prints_differing_steps(rt: HostRuntime) {
    check_prints_only_text(
        &rt,
        "witness b0 61 62",
        b"",
        &[B0, "1 1 61|127*00|\n", B0, "1 1 62|127*00|\n"],
    );
    check_prints_only_text(
        &rt,
        "witness s0 61 62",
        b"",
        &[S0, "1 1 61|63*00|\n", S0, "1 1 62|63*00|\n"],
    );
    check_prints_only_text(
        &rt,
        "witness b0 - 00",
        b"",
        &[B0, "0 1 |128*00|\n", B0, "1 1 |128*00|\n"],
    );
}

// Returns two of the 257 messages 0000 to 0100 that have equal digests of one byte.
fn messages_with_equal_1_byte_digests<H: Digest<1> + Drop>() -> Option<(u16, u16)>
    requires { H.is_supported }
{
    let mut seen = [None; 256];
    for number in 0..257u16 {
        let [byte] = H::digest(&number.to_be_bytes());
        let place = byte as usize;
        if let Some(other) = seen[place] {
            return Some((other, number));
        }
        seen[place] = Some(number);
    }
    None
}

// Checks the steps of such a pair: their letter and chaining words, and the zeros after a
// message.
fn check_equal_pair<H: Digest<1> + Drop>(
    rt: &(impl Abort + AllocGlobal),
    kind: &str,
    chain: &str,
    zeros: &str,
)
    requires { H.is_supported }
{
    let (a, b) = messages_with_equal_1_byte_digests::<H>().expect(rt, "a pair");
    let words = format!(in rt.alloc(); "witness {kind} {a:04x} {b:04X}").expect(rt, kind);
    let first = format!(in rt.alloc(); "{chain} 2 1 {a:04x}|{zeros}*00|\n").expect(rt, kind);
    let second = format!(in rt.alloc(); "{chain} 2 1 {b:04x}|{zeros}*00|\n").expect(rt, kind);
    check_prints_only_text(rt, words.as_str(), b"", &[first.as_str(), second.as_str()]);
}

#[test]
fn witness_of_equal_1_byte_digests(rt: HostRuntime) {
    let chain = "s 6a09e667f2bdc909 bb67ae8584caa73b 3c6ef372fe94f82b a54ff53a5f1d36f1 \
        510e527fade682d1 9b05688c2b3e6c1f 1f83d9abfb41bd6b 5be0cd19137e2179";
    check_equal_pair::<Blake2b<1>>(&rt, "b8", chain, "126");
    let chain = "s 6b08e666 bb67ae85 3c6ef372 a54ff53a 510e527f 9b05688c 1f83d9ab 5be0cd19";
    check_equal_pair::<Blake2s<1>>(&rt, "s8", chain, "62");
}

// The arguments, no input, and the line.
const NONE: &str = "\
witness b512 61 61||none\n\
witness b512 616263 -||none\n\
witness b512 - -||none\n\
witness b128 61 62||none\n\
witness b256 61 62||none\n\
witness s128 61 62||none\n\
witness s256 61 62||none\n\
witness b0 aB Ab||none\n\
witness s8 61 61||none\n\
witness b8 61 62||none\n\
";

// The source fails at its first read, which shows that no command reads it.
#[test]
fn no_witness_is_printed(rt: HostRuntime) {
    check_rows_of_commands(&rt, NONE, Some(0), 0);
}
