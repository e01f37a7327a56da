//! Eight messages of BLAKE2b in parallel.

use super::{counting_bytes, eight_inputs_of_kind, read_row};
use blake2::many::blake2b::eight::{accepts_eight, hash_eight};
use blake2::transcripts::Input;
use blake2_test_support::inputs::has_hex_digits;

// Whether the inputs are accepted, and have these digests.
fn have_digests(inputs: &[Input<'_>; 8], wanted: &str) -> bool {
    accepts_eight(inputs) && has_hex_digits(hash_eight::<16>(inputs).as_flattened(), wanted)
}

// What the inputs are, the length of their messages, and their digests.
const DIGESTS: &str = "\
unkeyed|0|cae66941d9efbd404e4d88758ea67670c8d682029e33a968ffedfdc5d3226a70\
dc46b8aa218ba780ffa2d9b38e235d046847c2d04a31f52ff8d0bd15911fb6ff\
f5e808df734d185ec1e5cfa3c8e0f79face8df4faf270b1d65165bf498a04f7e\
832422b0e208997a2183606c3989abcdcae66941d9efbd404e4d88758ea67670\n\
unkeyed|129|aaf1b0371f6d4ee49ee4fb5ddd9c49ef35c306bb260581493ab59a613200e40a\
04de0fc8708dea32243e01f01ae1cca5da880300efd197d0f5bf0e85868603fe\
21dfbfbbd6eaa5c97bdee4665686f80ae4dc05259ef36744c5ec66fbf7b4e2d0\
9e63d06b2c91d6281c9df81c98210c0a7dd056a1e496742a756aea28253cb30d\n\
unkeyed|1000|bca120dfd89cd95d82898473a5b01c9094e438824473566ae49d564d94c27a20\
601c56ca4cbd5eec58c1e81b018287ba4725f8cd75a5e590ac662a8f1603cc41\
78b20a89e836b73f724c0acff00e8a6ea68c33d1fd7bbd1abca2e5697f296420\
d3540c7c92cf8cf51682e8252384e3a5e649a9338c57a9f12b1bd9e725e1aa00\n\
keyed|0|f60b6ec68e47431ff37ebfaeb581e7782502fb86bcc88789a476b97859bd5420\
5cb42d6a2f6a240ba94bcad9179ec450e8b96c3ebb89243909f72e9ac8a07649\
e1d215496706c01e3ca07ca4bf25e774d1f2b5c44c6c01c0eadea797738494bd\
c3b463ca2a74a220bc54fbd679413489bdb15c665db55af58503c0a0240d9eb5\n\
keyed|129|01418e6d71fba9504e8561900c8afc0f4f3940ac33176c2d64d641087117c05c\
6115947fc927df34ef95c055d247306dbbbfd204ceb67312bdccd0fe64cc3979\
fff80be95e7ab3b08c4ad9c9d2b0ac691341d87b44e356ffe5b8b3af938e2991\
7b44a1bba743527e0fa75b481707173c9ee91bc6945de96d0da94f9f2c9fd809\n\
nodes|129|aaf1b0371f6d4ee49ee4fb5ddd9c49ef654ab7e1cf22723763861dca03c75487\
04de0fc8708dea32243e01f01ae1cca52576f706f6b26f92c0686d97dff72c53\
21dfbfbbd6eaa5c97bdee4665686f80ad81aab5ceabd555013da2d5e9d7264f8\
9e63d06b2c91d6281c9df81c98210c0a45fe6883c8b2a89667ef2661176cd9ed\n\
";

#[test]
fn eight_inputs_have_their_digests(rt: HostRuntime) {
    let key = [7; 32];
    let bytes = counting_bytes();
    for row in DIGESTS.lines() {
        let (what, n, wanted) = read_row(row);
        assert!(rt; n <= 4096, "{row}");
        let inputs = eight_inputs_of_kind(&bytes, n, what, &key);
        assert!(rt; have_digests(&inputs, wanted), "{n} bytes");
    }
}
