//! `b2 steps`.

use super::check_prints_only_text;

// The zero words after the first word of a line, and 128 bytes of zeros.
const ZERO_WORDS: &str = "7* 0000000000000000|\n";

const ZEROS: &str = "128*00|\n";

const STARS: &str = "128*2a|\n";

#[test]
fn unkeyed_transcripts_are_printed(rt: HostRuntime) {
    let start = "w 0000000001010040";
    check_prints_only_text(
        &rt,
        "steps b512",
        b"",
        &[start, ZERO_WORDS, "e 0 1 ", ZEROS],
    );
    check_prints_only_text(
        &rt,
        "steps b512",
        &[0x2a; 128],
        &[start, ZERO_WORDS, "e 128 1 ", STARS],
    );
    check_prints_only_text(
        &rt,
        "steps b512",
        &[0x2a; 129],
        &[start, ZERO_WORDS, "e 128 0 ", STARS, "e 129 1 2a|127*00|\n"],
    );
    check_prints_only_text(
        &rt,
        "steps b128",
        &[0; 256],
        &[
            "w 0000000001010010",
            ZERO_WORDS,
            "e 128 0 ",
            ZEROS,
            "e 256 1 ",
            ZEROS,
        ],
    );
}

#[test]
fn keyed_transcripts_are_printed(rt: HostRuntime) {
    check_prints_only_text(
        &rt,
        "steps s256 key=01",
        b"",
        &["w 01010120|7* 00000000|\ne 64 1 01|63*00|\n"],
    );
    check_prints_only_text(
        &rt,
        "steps s256 key=000102030405060708090a0b0c0d0e0f101112131415161718191a1b1c1d1e1f \
        persona=706572736f6e616c",
        b"",
        &[
            "w 01012020 00000000 00000000 00000000 00000000 00000000 73726570 6c616e6f\n",
            "e 64 1 000102030405060708090a0b0c0d0e0f101112131415161718191a1b1c1d1e1f|32*00|\n",
        ],
    );
    check_prints_only_text(
        &rt,
        "steps b512 salt=616263 persona=30313233343536373839616263646566 key=01",
        &[0x2a; 200],
        &[
            "w 0000000001010140 0000000000000000 0000000000000000 0000000000000000",
            " 0000000000636261 0000000000000000 3736353433323130 6665646362613938\n",
            "e 128 0 01|127*00|\ne 256 0 ",
            STARS,
            "e 328 1 |72*2a|56*00|\n",
        ],
    );
}
