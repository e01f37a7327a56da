//! What types of both families name, copy, wipe and print.

ghost use Rattle.std.specs.Prelude.{◌≤◌};

use crate::checks::message;
use blake2_digest::{
    BlockSizeUser, FixedOutput, HashMarker, KeyInit, KeySizeUser, MacMarker, OutputSizeUser, Wipe,
    ZeroizeOnDrop,
};
use blake2_parallel::{Blake2bp, Blake2bpMac, Blake2sp, Blake2spMac};
use std::fmt;
use std::process::Abort;

// Checks block and output of a hasher.
fn check_sizes_of_hasher<H: BlockSizeUser + OutputSizeUser + HashMarker + ZeroizeOnDrop>(
    rt: &impl Abort,
    block: usize,
    output: usize,
) {
    assert!(rt;
        H::BLOCK_SIZE == block && H::OUTPUT_SIZE == output,
        "{block}, {output}"
    );
}

// Checks longest key and output of a MAC.
fn check_sizes_of_mac<M: KeySizeUser + OutputSizeUser + MacMarker + ZeroizeOnDrop>(
    rt: &impl Abort,
    key: usize,
    output: usize,
) {
    assert!(rt;
        M::KEY_SIZE == key && M::OUTPUT_SIZE == output,
        "{key}, {output}"
    );
}

#[test]
fn block_key_and_output_sizes_are_right(rt: HostRuntime) {
    check_sizes_of_hasher::<Blake2bp<0>>(&rt, 128, 0);
    check_sizes_of_hasher::<Blake2bp<64>>(&rt, 128, 64);
    check_sizes_of_hasher::<Blake2sp<0>>(&rt, 64, 0);
    check_sizes_of_hasher::<Blake2sp<32>>(&rt, 64, 32);
    check_sizes_of_mac::<Blake2bpMac<20>>(&rt, 64, 20);
    check_sizes_of_mac::<Blake2bpMac<64>>(&rt, 64, 64);
    check_sizes_of_mac::<Blake2spMac<20>>(&rt, 32, 20);
    check_sizes_of_mac::<Blake2spMac<32>>(&rt, 32, 32);
}

// Checks that a clone has the output of the original, that a wiped state has another, and that it
// counts nothing.
fn check_clone<S: FixedOutput<N> + Clone + Wipe + Drop, const N: usize>(rt: &impl Abort, state: S) {
    let mut state = state;
    assert!(rt; state.counted() <= 512);
    state.update(&message());
    let clone = state.clone().expect(rt, "a clone");
    let mut wiped = state.clone().expect(rt, "a clone");
    wiped.wipe();
    assert!(rt; wiped.counted() == 0);
    let (output, of_wiped) = (state.finalize_fixed(), wiped.finalize_fixed());
    assert!(rt; clone.finalize_fixed().as_slice() == output.as_slice());
    assert!(rt; of_wiped.as_slice() != output.as_slice());
}

#[test]
fn clones_have_the_same_output(rt: HostRuntime) {
    check_clone::<Blake2bp<64>, 64>(&rt, Blake2bp::new_with_salt_and_personal(b"", b""));
    check_clone::<Blake2sp<32>, 32>(&rt, Blake2sp::new_with_salt_and_personal(b"", b""));
    check_clone::<Blake2bpMac<64>, 64>(&rt, Blake2bpMac::new(&[0x2a; 64]));
    check_clone::<Blake2spMac<32>, 32>(&rt, Blake2spMac::new(&[0x2a; 32]));
}

// Checks that `Debug` writes this of a MAC: its name and size, and nothing of the key.
fn check_debug<M, const K: usize>(rt: &(impl Abort + AllocGlobal), wanted: &str)
where
    M: KeyInit<K> + fmt::Debug + Drop,
    requires supported { M.is_supported }
    requires key { K ≤ 64 }
{
    let text = format!(in rt.alloc(); "{:?}", M::new(&[0x2a; K])).expect(rt, wanted);
    assert!(rt; text.as_str() == wanted, "{text} in place of {wanted}");
}

#[test]
fn debug_of_macs_shows_no_key(rt: HostRuntime) {
    check_debug::<Blake2bpMac<1>, 64>(&rt, "Blake2bpMac1 { ... }");
    check_debug::<Blake2bpMac<64>, 64>(&rt, "Blake2bpMac64 { ... }");
    check_debug::<Blake2spMac<0>, 32>(&rt, "Blake2spMac0 { ... }");
    check_debug::<Blake2spMac<32>, 32>(&rt, "Blake2spMac32 { ... }");
}
