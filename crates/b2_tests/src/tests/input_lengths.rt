//! Inputs that end near the ends of pieces of 4,096 bytes, and keys, salts and personas that are
//! absent, of one byte and of the maximum length. The digests come from
//! `tests/expected_values.py`, under `texts` and `options`.

use super::{append_output, is_digest_of_outputs};
use std::alloc::{AllocError, Global};
use std::process::Abort;

// The arguments of a command, and the digest of what it prints over inputs of 4,090 to 4,100 and
// of 8,186 to 8,196 bytes.
const TEXTS: &str = "\
sum b512|2bef40ee99a2ca25958fd1bc033c2b6bb347c5c39718d99af3eb7f126bead250\n\
script b512|a6850053548d86878befcb93be81dcb922d0aa7dbb5aada4c29cd1baa2204f61\n\
steps b512|0b0688b4061371b6c902614746c533fe7c8f05261ee38e1c19002cd1ac40f292\n\
sum s256|e53e45eac86680d23284080959c98d2fac18a343885426ebb1a1dd449e5acd8a\n\
script s256|07f3d0006650a83a2f03ef7254844f26d8002273382ea94fa412d5b47bb5cbd1\n\
steps s256|6ebfbba4c1c3b542a2422c996a4b5012e3537dc8b9ca03081a7eeebd0e0856e0\n\
tree b512 1|e9d10c0370052126c4d770a20cb0138244f18db1f1146468ea074d46cd714095\n\
tree b512 64|6ddb6c171b252ba67072faaff8f088a4ba04980c48999526b33a3e2fd1e99bf4\n\
tree b512 4096|4d497f7ac4b02de9b61e49f8de8316b01a22887bdc2ee09cd356187e86a86cc8\n\
";

// KIND, the digest of what `sum` and `script` print over `abc` under all choices of options, and
// that of what `steps` prints.
const OPTIONS: &str = "\
b128|ab5ab15289af0e07ed52d4172de7103e0a30b675e45dc9ae3f9c4a470db58255|\
445827a5906585b5139ba1f9e2a584d995f3f30e64765bf453d841f23f2c3ccb\n\
b256|c26ed164876948f5842478e05a8faa20460f4d8a666dab0c4e4b80a23e38569d|\
413d40293e377ac6c4375d82820dbe32ad32e0b51ac4d33a441051c823a6abd1\n\
b512|5d20ae8fcc3dd8c3812495a6ffd8dd2fc4761f5f5f6fd9132c5c00ce6d55f135|\
af93596877e957218e8c56fd463a55e9f691e086a2a348b3867485d53cbb9c57\n\
s128|a2e3dbb3356bc698ccd1863fef583d86944ee475c0ce4330d25e11a1985b921c|\
fa5cec4936125abbe8b4842ebbdcc43535001bc503188ceb7b14d6e4faaaf9db\n\
s256|639d476061f4031f056ad902bc1846b851c087c25e29757f5e43d57b1b163be2|\
2b2d4238a32af6b056762061e64eef4d9451828c9461068404e8d4400f2c7f36\n\
";

// Returns a script of `length` bytes, at least 10. It updates one slot with zeros, and prints
// their digest.
pub(super) fn script_of_length(alloc: Global, length: usize) -> Result<Vec<u8>, AllocError> {
    let mut script = Vec::from_slice(alloc, b"u 0 ")?;
    for _ in 4..length / 2 {
        script.extend_from_slice(b"00")?;
    }
    script.extend_from_slice(b"\nf 0")?;
    if length % 2 == 1 {
        script.push(b'\n')?;
    }
    Ok(script)
}

// Returns an input of `length` bytes for a command: a script, of at least 10 bytes, or letters a.
fn input_of_length(alloc: Global, words: &str, length: usize) -> Result<Vec<u8>, AllocError> {
    if words.starts_with("script") {
        script_of_length(alloc, length)
    } else {
        vec![in alloc; b'a'; length]
    }
}

// Runs a command over an input of `length` bytes, and appends what it prints.
fn append_output_over_length(
    rt: &(impl Abort + AllocGlobal),
    outputs: &mut Vec<u8>,
    words: &str,
    length: usize,
) {
    let input = input_of_length(rt.alloc(), words, length).expect(rt, words);
    assert!(rt; input.len() == length, "b2 {words}: {length} bytes");
    append_output(rt, outputs, &[words], input.as_slice());
}

#[test]
fn inputs_around_piece_ends_have_digests(rt: HostRuntime) {
    for row in TEXTS.lines() {
        let (words, wanted) = row.split_once('|').unwrap_or((row, ""));
        let mut outputs = Vec::new(rt.alloc());
        for i in 0..11 {
            append_output_over_length(&rt, &mut outputs, words, 4090 + i);
        }
        for i in 0..11 {
            append_output_over_length(&rt, &mut outputs, words, 8186 + i);
        }
        assert!(rt;
            is_digest_of_outputs(outputs.as_slice(), wanted),
            "b2 {words}"
        );
    }
}

// Returns the arguments NAME=HEX, each after a space, for a key, a salt and a persona of these
// lengths, up to 64 bytes each. Those of no bytes are absent. The bytes are 0, 1, 2 and so on.
fn options_of_lengths(alloc: Global, lengths: (usize, usize, usize)) -> Result<String, AllocError> {
    let digits = "000102030405060708090a0b0c0d0e0f101112131415161718191a1b1c1d1e1f\
                  202122232425262728292a2b2c2d2e2f303132333435363738393a3b3c3d3e3f";
    let (key, salt, persona) = lengths;
    let mut options = String::new(alloc);
    for (name, length) in [(" key=", key), (" salt=", salt), (" persona=", persona)] {
        if length > 0 {
            options.push_str(name)?;
            options.push_str(digits.get(..2 * length.min(64)).unwrap_or(""))?;
        }
    }
    Ok(options)
}

// Appends what `sum`, `script` and `steps` print over `abc` under a KIND and options of these
// lengths.
fn append_outputs_with_options(
    rt: &(impl Abort + AllocGlobal),
    sums: &mut Vec<u8>,
    transcripts: &mut Vec<u8>,
    kind: &str,
    lengths: (usize, usize, usize),
) {
    let options = options_of_lengths(rt.alloc(), lengths).expect(rt, kind);
    let options = options.as_str();
    append_output(rt, sums, &["sum ", kind, options], b"abc");
    append_output(rt, sums, &["script ", kind, options], b"u 0 616263\nf 0\n");
    append_output(rt, transcripts, &["steps ", kind, options], b"abc");
}

// Checks a KIND whose longest key has `key` bytes, and whose longest salt and persona have `text`
// bytes.
fn check_outputs_of_each_option_length(
    rt: &(impl Abort + AllocGlobal),
    kind: &str,
    digests: &str,
    key: usize,
    text: usize,
) {
    let (sum_digest, steps_digest) = digests.split_once('|').unwrap_or((digests, ""));
    let (mut sums, mut transcripts) = (Vec::new(rt.alloc()), Vec::new(rt.alloc()));
    for key in [0, 1, key] {
        for salt in [0, 1, text] {
            for persona in [0, 1, text] {
                append_outputs_with_options(
                    rt,
                    &mut sums,
                    &mut transcripts,
                    kind,
                    (key, salt, persona),
                );
            }
        }
    }
    assert!(rt;
        is_digest_of_outputs(sums.as_slice(), sum_digest),
        "b2 sum {kind}"
    );
    assert!(rt;
        is_digest_of_outputs(transcripts.as_slice(), steps_digest),
        "b2 steps {kind}"
    );
}

#[test]
fn each_choice_of_options_has_its_digests(rt: HostRuntime) {
    for row in OPTIONS.lines() {
        let (kind, digests) = row.split_once('|').unwrap_or((row, ""));
        if kind.starts_with("b") {
            check_outputs_of_each_option_length(&rt, kind, digests, 64, 16);
        } else {
            check_outputs_of_each_option_length(&rt, kind, digests, 32, 8);
        }
    }
}
