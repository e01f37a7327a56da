//! The sizes that types name, and the marks that they have.

use blake2::digest::{
    BlockSizeUser, BufferKindUser, HashMarker, KeySizeUser, Lazy, MacMarker, OutputSizeUser,
    TruncSide, VariableOutputCore, ZeroizeOnDrop,
};
use blake2::{
    Blake2b, Blake2b128, Blake2b256, Blake2b512, Blake2bMac, Blake2bMac512, Blake2bVarCore,
    Blake2s, Blake2s128, Blake2s256, Blake2sMac, Blake2sMac256, Blake2sVarCore,
};
use std::process::Abort;

// Checks block and output of a core, and that outputs are cut from the left end.
fn check_sizes_of_core<C, const B: usize, const M: usize>(rt: &impl Abort)
where
    C: BlockSizeUser
        + OutputSizeUser
        + VariableOutputCore<B, M>
        + BufferKindUser<BufferKind = Lazy>
        + HashMarker
        + ZeroizeOnDrop,
{
    assert!(rt; C::BLOCK_SIZE == B && C::OUTPUT_SIZE == M, "{B}, {M}");
    assert!(rt; C::TRUNC_SIDE == TruncSide::Left, "{B}, {M}");
}

// Checks block and output of a hasher.
fn check_sizes_of_hasher<H: BlockSizeUser + OutputSizeUser + HashMarker + ZeroizeOnDrop>(
    rt: &impl Abort,
    block: usize,
    output: usize,
) {
    assert!(rt;
        H::BLOCK_SIZE == block && H::OUTPUT_SIZE == output,
        "{block}, {output}"
    );
}

// Checks longest key and output of a MAC.
fn check_sizes_of_mac<M: KeySizeUser + OutputSizeUser + MacMarker + ZeroizeOnDrop>(
    rt: &impl Abort,
    key: usize,
    output: usize,
) {
    assert!(rt;
        M::KEY_SIZE == key && M::OUTPUT_SIZE == output,
        "{key}, {output}"
    );
}

#[test]
fn block_key_and_output_sizes_are_right(rt: HostRuntime) {
    check_sizes_of_core::<Blake2bVarCore, 128, 64>(&rt);
    check_sizes_of_core::<Blake2sVarCore, 64, 32>(&rt);
    check_sizes_of_hasher::<Blake2b<0>>(&rt, 128, 0);
    check_sizes_of_hasher::<Blake2b<63>>(&rt, 128, 63);
    check_sizes_of_hasher::<Blake2b128>(&rt, 128, 16);
    check_sizes_of_hasher::<Blake2b256>(&rt, 128, 32);
    check_sizes_of_hasher::<Blake2b512>(&rt, 128, 64);
    check_sizes_of_hasher::<Blake2s<0>>(&rt, 64, 0);
    check_sizes_of_hasher::<Blake2s<31>>(&rt, 64, 31);
    check_sizes_of_hasher::<Blake2s128>(&rt, 64, 16);
    check_sizes_of_hasher::<Blake2s256>(&rt, 64, 32);
    check_sizes_of_mac::<Blake2bMac<0>>(&rt, 64, 0);
    check_sizes_of_mac::<Blake2bMac<20>>(&rt, 64, 20);
    check_sizes_of_mac::<Blake2bMac512>(&rt, 64, 64);
    check_sizes_of_mac::<Blake2sMac<0>>(&rt, 32, 0);
    check_sizes_of_mac::<Blake2sMac<20>>(&rt, 32, 20);
    check_sizes_of_mac::<Blake2sMac256>(&rt, 32, 32);
}
