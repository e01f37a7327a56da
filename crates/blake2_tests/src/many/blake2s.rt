//! Eight messages of BLAKE2s in parallel.

use super::{counting_bytes, counting_message, eight_inputs_of_kind, input_with_key, read_row};
use blake2::many::blake2s::{accepts_eight, hash_eight};
use blake2::transcripts::Input;
use blake2_test_support::inputs::{has_hex_digits, split_leading_number, unkeyed};

// Whether the inputs are accepted, and have these digests.
fn have_digests(inputs: &[Input<'_>; 8], wanted: &str) -> bool {
    accepts_eight(inputs) && has_hex_digits(hash_eight::<16>(inputs).as_flattened(), wanted)
}

// What the inputs are, the length of their messages, and their digests.
const DIGESTS: &str = "\
unkeyed|0|64550d6ffe2c0a01a14aba1eade0200caed1c4d0bd01a637869f76c6b5bedada\
234c544d829c832e6508c83f20234d4ed685c35b649ad39ee94988a19462c14a\
37770399acb9ef0253d9b3f54e48a5814304171a12c4ca0bc9891ad47338744b\
40b738f11cf8c83d35fc0ae2df673e7464550d6ffe2c0a01a14aba1eade0200c\n\
unkeyed|65|399d3e92ccfcedcdde9bf4c2be14cf8c229e9f5435a61f32929ddd9d7072129e\
3fd3640b170a58e2bd9db8fb209090e0ca703caf4d4f54f59ab84758eb608326\
aa839c27faa00a2c8045b0e1f0326b4c4862fbad4107cccf2989c8ba7bfcdf21\
9c9c3e09cf8b731bdce9eaea964b3766b26858a5a9cb89983075b8e249f84814\n\
unkeyed|1000|f308bf57110a2e5f3c81a0ef229250353e1dc02f16adcd0e08314732d2d46b3a\
3225cdbaa15520138ef63f8b416e36e62433775afe4a4296f0f7b4dc4cdc6500\
bd7699fac8b8b3d198e87b78ef5bbac35ac76c9678d4cd5f9bcc94a833508607\
e7ecfd3fee5416f6d56706a48288d875bf7a110039e7a4af6b84997d52777779\n\
keyed|0|cf0bd61f2d86b3ecfaef2343569fe9c288e80947954aa3bd62576dc61180c86f\
34b44f81e499857a3f633f9e96e6b1185faeeaa536ccbebe1bbf110ba75916c0\
c48c9f4a470bc813d22b537cb90677a6a65824c884aef38d8543e5ce4db3eb39\
ef1fcf7af3cf5f0e0018dd55e7ebea4f1f0e4b24f5b87b303e3df68d797f475d\n\
keyed|65|4ec58b02e6227928dbcc0b0ead5d078dde598c0bb706f260ac75469a5369303b\
a6b088bf034893b6d23d2e2407ef7a95945714ad5399e237f444f0fe1dede445\
7c9cd956dd749d97a30b806717009788f1acddcb9979c9fe5567e1c1299f3cbd\
5407ec94961b1ad1ecaeba977b26867b11ea321787d09890b13fd1bdc694bcc6\n\
nodes|65|399d3e92ccfcedcdde9bf4c2be14cf8c7f1228d5f0355e0ad9e8b8b43218a2c6\
3fd3640b170a58e2bd9db8fb209090e0be6d2e0e95a447131e1cc827fa806f3a\
aa839c27faa00a2c8045b0e1f0326b4cfb4e2940a93081cedadf30ed75c6b589\
9c9c3e09cf8b731bdce9eaea964b3766cb262167067c7a0a5af60ba87f082e58\n\
";

#[test]
fn eight_inputs_have_their_digests(rt: HostRuntime) {
    let key = [7; 32];
    let bytes = counting_bytes();
    for row in DIGESTS.lines() {
        let (what, n, wanted) = read_row(row);
        assert!(rt; n <= 4096, "{row}");
        let inputs = eight_inputs_of_kind(&bytes, n, what, &key);
        assert!(rt; have_digests(&inputs, wanted), "{n} bytes");
    }
}

const ALIKE: &str = "\
0|cf0bd61f2d86b3ecfaef2343569fe9c2c24b82afe9833ad177063c406eb4c725\
cf0bd61f2d86b3ecfaef2343569fe9c22eb72224fc5b7df11cbf7ceed4bc2613\
cf0bd61f2d86b3ecfaef2343569fe9c252ede2abc2704aa47229e15ec3ec9b14\
cf0bd61f2d86b3ecfaef2343569fe9c2c9b820ed97fb46c1d0574e754da6f3d6\n\
40|ef624c4205e379bf201fdea8bf60716cfa3ebb625e58fb7c63a73338b9546f78\
18a7bdd6ff83c5440cf04d3b6e0b2a1cfe766db619d21a44808f0b8b95f72e3e\
16f7539ef2c14a6b27553771a2a3da21b3f84c181d894942f9e6fcb2ac8225b7\
db28b333275428a33c6e1872e4789ee08bea75e2397c3accbeeea83f0fc8aa64\n\
";

// A key counts for 64 bytes, so n bytes under one are next to n + 64 without.
#[test]
fn keyed_and_unkeyed_of_equal_count_in_8(rt: HostRuntime) {
    let key = [7; 32];
    let bytes = counting_bytes();
    for row in ALIKE.lines() {
        let (n, wanted) = split_leading_number(row).unwrap_or((usize::MAX, row));
        assert!(rt; n <= 3000, "{row}");
        let p0 = input_with_key(&key, counting_message(&bytes, 0, n));
        let p1 = unkeyed(counting_message(&bytes, 30, n + 64));
        let p2 = input_with_key(&key, counting_message(&bytes, 60, n));
        let p3 = unkeyed(counting_message(&bytes, 90, n + 64));
        let p4 = input_with_key(&key, counting_message(&bytes, 120, n));
        let p5 = unkeyed(counting_message(&bytes, 150, n + 64));
        let p6 = input_with_key(&key, counting_message(&bytes, 180, n));
        let p7 = unkeyed(counting_message(&bytes, 210, n + 64));
        let mut inputs = [p0, p1, p2, p3, p4, p5, p6, p7];
        assert!(rt; have_digests(&inputs, wanted), "{n} bytes");
        inputs[7] = unkeyed(counting_message(&bytes, 210, n + 65));
        assert!(rt; !accepts_eight(&inputs), "{n} bytes");
    }
}
