//! `b2 script`.

use super::{check_prints_only_text, check_status_and_only_line, text_of_parts};
use std::process::Abort;

// Checks that `script b512` over these lines prints only this line, with status 2.
pub(super) fn check_script_is_refused(rt: &(impl Abort + AllocGlobal), lines: &[u8], line: &str) {
    check_status_and_only_line(rt, "script b512", lines, None, 2, line);
}

pub(super) const NOTHING: &str = "786a02f742015903c6c6fd852552d272912f4740e15847618a86e217f71f5419\
    d25e1031afee585313896444934eb04b903a685b1448b755d56f701afe9be2ce\n";

pub(super) const ABC: &str = "ba80a53f981c4d0d6a2797b69f12f6e94c212f14685ac4b74b12bb6fdbffa2d1\
    7d87c5392aab792dc252d5de4533cc9518d38aa8dbf1925ab92386edd4009923\n";

#[test]
fn scripts_print_digests_of_hashers(rt: HostRuntime) {
    let lines = b"u 0 6162\nc 0\nu 0 63\nd 0\nu 1 63\nf 1\nf 0\n";
    check_prints_only_text(&rt, "script b512", lines, &[ABC, ABC, NOTHING]);
    let lines = b"c 0\nf 0\nu 1 616263\nf 1";
    check_prints_only_text(&rt, "script b512", lines, &[NOTHING, ABC]);
    check_prints_only_text(&rt, "script b512", b"", &[]);
    let lines = b"u 0 -\nu 0 61\nu 0 -\nu 0 6263\nf 0\n";
    check_prints_only_text(&rt, "script b512", lines, &[ABC]);
    check_prints_only_text(
        &rt,
        "script b256",
        b"u 0 61\nr 0\nu 0 616263\nd 0\nf 0",
        &[
            "bddd813c634239723171ef3fee98579b94964e3bb1cb3e427262c8c068d52319\n",
            "0e5751c026e543b2e8ab2eb06099daa1d1e5df47778f7787faab45cdf12fe3a8\n",
        ],
    );
}

// Checks what a command prints over a script of these parts.
fn check_script_prints(
    rt: &(impl Abort + AllocGlobal),
    words: &str,
    script: &[&str],
    printed: &[&str],
) {
    let script = text_of_parts(rt.alloc(), script).expect(rt, words);
    check_prints_only_text(rt, words, script.as_bytes(), printed);
}

#[test]
fn scripts_print_tags_of_macs(rt: HostRuntime) {
    check_script_prints(
        &rt,
        "script s256 key=000102030405060708090a0b0c0d0e0f101112131415161718191a1b1c1d1e1f \
        persona=706572736f6e616c",
        &["u 0 61\nr 0\nd 0\nc 0\nf 1\n"],
        &["2*25a4ee63b594aed3f88a971e1877ef7099534f9097291f88fb86c79b5e70d022\n"],
    );
    // Two slots have 129 bytes and one more in the second. The key's block is counted again after
    // each reset.
    check_script_prints(
        &rt,
        "script b128 key=0102 salt=73616c74 persona=706572736f6e61",
        &["u 0 |129*2A|\nc 0\nu 1 61\nd 1\nd 1\nu 1 616263\nf 1\n"],
        &[
            "f055cd4f78d84ef3b1c58a2cb973a879\n",
            "9a490e8f665edbf75387b5f17a336560\n",
            "64e477c9f5c0ba5bd0d2d41455c1fb48\n",
        ],
    );
    check_script_prints(
        &rt,
        "script s128 key=0102",
        &["u 0 |65*2a|\nc 0\nu 1 2b\nf 0\nd 1\nf 1"],
        &[
            "b82a29201f546a895fc507144be994dc\n",
            "f812936ed5d452b46bb462084ebfaeb4\n",
            "289fffba168826124638ec07d7383848\n",
        ],
    );
}

// Lines that a script can't have, with bars between them.
const WRONG_LINES: &str = "\
|u|u |u 0|u 0 |u 0 6|u 0 6g|u 0 6162 |u 0  61|u  0 61|u 0 61 62|u 00 61|u - 61|u 0 --\
|U 0 61| u 0 61|c|c |c 0 |c  0|c 0 61|c -1|c +1|c x|r|r 01|f|f 00|f 1000000000|f 0\r\
|d 0123456789|d 0x0|x 0|uu 0 61|cf 0";

#[test]
fn wrong_script_lines_are_named(rt: HostRuntime) {
    for line in WRONG_LINES.split('|') {
        check_script_of_parts_is_refused(&rt, &[line, "\nf 0\n"], "b2: line 1: wrong line");
        check_script_of_parts_is_refused(
            &rt,
            &["11*c 0\n|", line, "\nx 0\n"],
            "b2: line 12: wrong line",
        );
    }
    // Wrong lines are found before any call.
    check_script_is_refused(&rt, b"f 0\nf 0\nx 0", "b2: line 3: wrong line");
    check_script_is_refused(&rt, b"f 0\n\n", "b2: line 2: wrong line");
    check_script_is_refused(&rt, b"\n", "b2: line 1: wrong line");
}

// Checks that `script b512` over a script of these parts prints only this line, with status 2.
pub(super) fn check_script_of_parts_is_refused(
    rt: &(impl Abort + AllocGlobal),
    script: &[&str],
    line: &str,
) {
    let script = text_of_parts(rt.alloc(), script).expect(rt, line);
    check_script_is_refused(rt, script.as_bytes(), line);
}

#[test]
fn absent_slots_are_named(rt: HostRuntime) {
    check_script_is_refused(&rt, b"f 0\nu 0 61\n", "b2: line 2: no such slot");
    check_script_is_refused(&rt, b"u 0 61\nf 0\nu 0 62", "b2: line 3: no such slot");
    check_script_is_refused(&rt, b"f 999999999", "b2: line 1: no such slot");
    check_script_is_refused(&rt, b"c 1", "b2: line 1: no such slot");
    check_script_is_refused(
        &rt,
        b"c 0\nr 1\nd 1\nf 1\nr 1\n",
        "b2: line 5: no such slot",
    );
    check_script_is_refused(
        &rt,
        b"c 0\nc 1\nu 2 -\nf 2\nd 2\nf 2\n",
        "b2: line 5: no such slot",
    );
}
