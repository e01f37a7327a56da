//! `b2 leaves` and `b2 root`. The digests over the large input come from `tests/expected_values.py`,
//! under `large`.

use super::large::{ROOTS, large_input};
use super::{
    append_output, check_prints_only_line, check_prints_only_text, check_rows_of_commands,
    check_status_and_only_line, is_digest_of_outputs, output_if_successful, text_of_parts,
};
use std::process::Abort;

// The digests of the leaves `abcd` and `e` of `abcde`.
pub(super) const FIRST: &str = "\
47e15a1ab6a4d0ea0932bb43e976dc986acdada1500296368d785f91231dfb18\
7dff569df1fc1d2fe75672344086f316fdc3d2c2a0fbfd9ee88ea5c15777aab1";

const LAST: &str = "\
d7f9ca207c01eede7baa10611ce6c59d93c7fdf7423c8c2e5359c04bc7ff8b8e\
a20f10204fae53aed5627461a478d2a6254be4680df5bee95133f0abe307c364";

// The root over these in 64 bytes.
const ROOT: &str = "\
14b0752e3ca5c2b4f5df98dcb4fab97caeda23424260d531f9b0b52310bb58ee\
cb6e13211a8298c3e52d543a21efa545053f3006100629ff6bd181611b38f8c8";

// The arguments, the input and the line.
const LINES: &str = "\
leaves 4 0 more|abcd|47e15a1ab6a4d0ea0932bb43e976dc986acdada1500296368d785f91231dfb18\
7dff569df1fc1d2fe75672344086f316fdc3d2c2a0fbfd9ee88ea5c15777aab1\n\
leaves 4 1 last|e|d7f9ca207c01eede7baa10611ce6c59d93c7fdf7423c8c2e5359c04bc7ff8b8e\
a20f10204fae53aed5627461a478d2a6254be4680df5bee95133f0abe307c364\n\
leaves 4 0 last||5caf2fa8a6e14d4e014b2971fef5e31287c4bcd9babed282738454ea7b4f0f80\
2c82cb50f86e209d454292967a9166366abcd19f7f389265a6b67e097079fd50\n\
leaves 3 5 last salt=73616c74 persona-text=persona|abc|\
3911ace1821f226e1ed12ef0d3f4183639abd21cb437da87f34b697594a53d2f\
67f27b230c7241978ffe49ba2c318569876d255301619f3272b6f78ae86cc791\n\
leaves 1 999999 more|a|ddee77cb80faf4daa24129a7e0747f47cee09c49cc1076b0662389f6b23e40a3\
0f5fb7fc8ef275803fded7b866458750a152f1dd720b9d98b6395498e9e12baa\n\
leaves 4294967295 1 last|abc|bc9ab3b312cf4e896a5bf8b24c4aa73a3c2f1f4d945dcdba27fe48818f067d12\
db86c684f5283a5b3371bd32af1144e4da44658003a912deaa1865f85f73c889\n\
leaves 4 72057594037927935 last|abc|\
6191ea820859446720e350dc2ef25012643913447f3925bc824e451702583806\
a927d479081f183450e5b9299deb42aa38cc0a38c0bce63aff388746bc36d5c1\n\
root b128 4|47e15a1ab6a4d0ea0932bb43e976dc986acdada1500296368d785f91231dfb18\
7dff569df1fc1d2fe75672344086f316fdc3d2c2a0fbfd9ee88ea5c15777aab1|39544fb70173708ee0632ecf773a3c6a\n\
root b256 4 salt=73616c74|47E15A1AB6A4D0EA0932BB43E976DC986ACDADA1500296368D785F91231DFB18\
7DFF569DF1FC1D2FE75672344086F316FDC3D2C2A0FBFD9EE88EA5C15777AAB1|\
2789e7e623d9ea7c4784fe858b9695d88d36f88a7e21fc5bb07e22f273e3f891";

#[test]
fn leaves_and_root_print_digests(rt: HostRuntime) {
    check_rows_of_commands(&rt, LINES, None, 0);
    check_prints_only_text(&rt, "leaves 4 0 last", b"abcde", &[FIRST, "\n", LAST, "\n"]);
}

// Inputs that are no part.
const NO_PARTS: &str = "\
leaves 4 0 more||b2: wrong length\n\
leaves 4 1 last||b2: wrong length\n\
leaves 4 0 more|abcde|b2: wrong length\n\
leaves 4 7 more|abc|b2: wrong length\n\
leaves 4 72057594037927935 last|abcd|b2: wrong length\n\
leaves 4 72057594037927936 last||b2: wrong length\n\
leaves 4 999999999999999999 more|abcd|b2: wrong length";

#[test]
fn leaves_need_all_their_arguments(rt: HostRuntime) {
    check_rows_of_commands(&rt, NO_PARTS, None, 2);
}

// Checks what `root` prints over the text of these parts, and its status.
fn check_root_line_and_status(
    rt: &(impl Abort + AllocGlobal),
    parts: &[&str],
    status: u8,
    line: &str,
) {
    let text = text_of_parts(rt.alloc(), parts).expect(rt, line);
    check_status_and_only_line(rt, "root b512 4", text.as_bytes(), None, status, line);
}

#[test]
fn root_accepts_only_right_lines(rt: HostRuntime) {
    check_root_line_and_status(&rt, &[FIRST, "\n", LAST, "\n"], 0, ROOT);
    check_root_line_and_status(&rt, &[FIRST, "\n", LAST], 0, ROOT);
    for wrong in ["\n", " ", "0", "00", "\r\n", "g"] {
        check_root_line_and_status(
            &rt,
            &[FIRST, "\n", LAST, wrong, "\n"],
            2,
            match wrong {
                "\n" => "b2: line 3: wrong line",
                _ => "b2: line 2: wrong line",
            },
        );
        check_root_line_and_status(
            &rt,
            &[FIRST, wrong, "\n", LAST],
            2,
            match wrong {
                "\n" => "b2: line 2: wrong line",
                _ => "b2: line 1: wrong line",
            },
        );
    }
    check_root_line_and_status(&rt, &[""], 2, "b2: line 1: wrong line");
    check_root_line_and_status(&rt, &[FIRST, "\n", "-"], 2, "b2: line 2: wrong line");
}

// LEAF, FIRST and whether more follows, and the digest of what `leaves` prints over the large input
// without its last byte.
const PARTS: &str = "\
64 7 more|208fbe6a9a2611eb17a49974f2bc102855b2fcc8aed638e9a42f636bd63fb812\n\
64 7 last|05e360b376fee839c5120f4da8d90f290b61a08b99acf1e40b3e0b0b87b46991\n\
1000 3 last|2ed1e6f8d3069cf74c599b42bb4c07c5cb630958fcddf9ecf1bb752e5be7bb09\n\
262144 0 more|5a7352c0252537dc3e0bb2d425304fa8a8db884301b7858e784b3ef302d622b0\n\
524288 1 last|0f6d2f0b0d172f618fdc18974344ac45a157a9fe531b3dc9582b346c34108bee";

// Parts of many leaves, of which some end the message.
#[test]
fn leaves_of_large_parts_are_printed(rt: HostRuntime) {
    let input = large_input(rt.alloc()).expect(&rt, "memory for the test");
    let part = input
        .as_slice()
        .split_last()
        .map_or(b"".as_slice(), |(_, part)| part);
    for row in PARTS.lines() {
        let (words, wanted) = row.split_once('|').unwrap_or((row, ""));
        let mut lines = Vec::new(rt.alloc());
        append_output(&rt, &mut lines, &["leaves ", words], part);
        assert!(rt;
            is_digest_of_outputs(lines.as_slice(), wanted),
            "b2 leaves {words}"
        );
    }
}

// The root over the lines of all leaves is that of the tree.
#[test]
fn root_over_leaves_is_that_of_tree(rt: HostRuntime) {
    let input = large_input(rt.alloc()).expect(&rt, "memory for the test");
    for row in ROOTS.lines() {
        let (leaf, root) = row.split_once('|').unwrap_or((row, ""));
        let lines = output_if_successful(
            rt.alloc(),
            &["leaves ", leaf, " 0 last"],
            input.as_slice(),
        );
        check_prints_only_line(&rt, "root b256", leaf, lines.as_slice(), root);
    }
}
