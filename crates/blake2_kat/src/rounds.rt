//! The rounds of the hash of `abc`, whose words RFC 7693 prints after each.

use crate::checks::check_digits;
use blake2::rows::{u32x4, u64x4};
use blake2_compress::compress::{blake2b, blake2s};
use blake2_compress::consts::{BLAKE2B_IV, BLAKE2S_IV, SIGMA};

// The first block of the hash of `abc`, in words.
const ABC: [u32; 16] = [0x636261, 0, 0, 0, 0, 0, 0, 0, 0, 0, 0, 0, 0, 0, 0, 0];

// The words after one and after two rounds of BLAKE2b, as RFC 7693, appendix A, prints them. It
// begins with the start words and IV, of which the counter 3 and the final flag are parts (3.2).
#[test]
fn two_rounds_of_blake2b_are_as_in_rfc_7693(rt: HostRuntime) {
    let m = ABC.map(|word| word as u64);
    let [first, second] = blake2b::to_rows(&BLAKE2B_IV);
    let mut v = [
        first ^ u64x4::new(0x01010040, 0, 0, 0),
        second,
        first,
        second ^ u64x4::new(3, 0, u64::MAX, 0),
    ];
    u64x4::round(&mut v, &m, &SIGMA[0]);
    let words = u64x4::words(&v).map(|word| word.to_be_bytes());
    let wanted = "86b7c1568029bb79c12cbcc809ff59f3c6a5214cc0eaca8e0c87cd524c14cc5d\
         44ee6039bd86a9f7a447c850aa694a7ede080f1bb1c0f84b595cb8a9a1aca66c\
         bec3ae837eac48876267fc79df9d6ad1fa87b01273fa6dbe521a715c63e08d8a\
         e02d0975b8d37a831c7b754f08b7d1938f885a76b6e578fe2318a24e2140fc64";
    check_digits(&rt, words.as_flattened(), wanted);
    u64x4::round(&mut v, &m, &SIGMA[1]);
    let words = u64x4::words(&v).map(|word| word.to_be_bytes());
    let wanted = "53281e83806010f23594b403f81b43938cd63c7462de0dff85f693f3da53f974\
         baabdbb2f386d9aeca5425aec65a10a8c6a22e2ff0f7aa48c6a56a51cb89c595\
         224e6a3369224f96500e125e58a92923e9e4ad0d0e1a0d4885df9dc143c59a74\
         92a3aaaa6d952b7fc5fdf71090fae8532a8a40f15a462dd0572d17effdd37358";
    check_digits(&rt, words.as_flattened(), wanted);
}

// The same for BLAKE2s, as appendix B prints them.
#[test]
fn two_rounds_of_blake2s_are_as_in_rfc_7693(rt: HostRuntime) {
    let [first, second] = blake2s::to_rows(&BLAKE2S_IV);
    let mut v = [
        first ^ u32x4::new(0x01010020, 0, 0, 0),
        second,
        first,
        second ^ u32x4::new(3, 0, u32::MAX, 0),
    ];
    u32x4::round(&mut v, &ABC, &SIGMA[0]);
    let words = u32x4::words(&v).map(|word| word.to_be_bytes());
    let wanted = "16a3242ed7b5e238ce8ce24b927aede1a7b430d993a4a14ea44e7c3141d4759b\
         95bf33d39a99c181608a3a6bb666383e7a8dd50fbe378ed7353d1ee63bb44c6b";
    check_digits(&rt, words.as_flattened(), wanted);
    u32x4::round(&mut v, &ABC, &SIGMA[1]);
    let words = u32x4::words(&v).map(|word| word.to_be_bytes());
    let wanted = "3ae30fe30982a96be88185b43e339b16f24338cd0e66d326e005ed0cd591a277\
         180b1f3afcf4391430db62d64847831c7f00c58efb847886c544e836524ab0e2";
    check_digits(&rt, words.as_flattened(), wanted);
}
