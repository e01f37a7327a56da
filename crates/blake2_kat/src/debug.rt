//! What `Debug` writes of cores and MACs: their names, the sizes of MACs, and nothing of what they
//! hold. And the names of the algorithms.

ghost use Rattle.std.specs.Prelude.{◌≤◌};

use crate::checks::check_debug;
use blake2::digest::{AlgorithmName, KeyInit};
use blake2::{
    Blake2bMac, Blake2bMac512, Blake2bVarCore, Blake2sMac, Blake2sMac256, Blake2sVarCore,
};
use std::fmt;
use std::process::Abort;

// Checks that `Debug` writes this of a MAC.
fn check_debug_of_mac<M, const K: usize>(rt: &(impl Abort + AllocGlobal), wanted: &str)
where
    M: KeyInit<K> + fmt::Debug + Drop,
    requires supported { M.is_supported }
    requires key { K ≤ 64 }
{
    check_debug(rt, &M::new(&[0x2a; K]), wanted);
}

#[test]
fn debug_of_blake2b_macs_shows_no_key(rt: HostRuntime) {
    check_debug_of_mac::<Blake2bMac<1>, 64>(&rt, "Blake2bMac1 { ... }");
    check_debug_of_mac::<Blake2bMac<9>, 64>(&rt, "Blake2bMac9 { ... }");
    check_debug_of_mac::<Blake2bMac<16>, 64>(&rt, "Blake2bMac16 { ... }");
    check_debug_of_mac::<Blake2bMac<20>, 64>(&rt, "Blake2bMac20 { ... }");
    check_debug_of_mac::<Blake2bMac<32>, 64>(&rt, "Blake2bMac32 { ... }");
    check_debug_of_mac::<Blake2bMac<48>, 64>(&rt, "Blake2bMac48 { ... }");
    check_debug_of_mac::<Blake2bMac<63>, 64>(&rt, "Blake2bMac63 { ... }");
    check_debug_of_mac::<Blake2bMac512, 64>(&rt, "Blake2bMac64 { ... }");
}

#[test]
fn debug_of_blake2s_macs_shows_no_key(rt: HostRuntime) {
    check_debug_of_mac::<Blake2sMac<0>, 32>(&rt, "Blake2sMac0 { ... }");
    check_debug_of_mac::<Blake2sMac<1>, 32>(&rt, "Blake2sMac1 { ... }");
    check_debug_of_mac::<Blake2sMac<8>, 32>(&rt, "Blake2sMac8 { ... }");
    check_debug_of_mac::<Blake2sMac<16>, 32>(&rt, "Blake2sMac16 { ... }");
    check_debug_of_mac::<Blake2sMac<20>, 32>(&rt, "Blake2sMac20 { ... }");
    check_debug_of_mac::<Blake2sMac<28>, 32>(&rt, "Blake2sMac28 { ... }");
    check_debug_of_mac::<Blake2sMac<31>, 32>(&rt, "Blake2sMac31 { ... }");
    check_debug_of_mac::<Blake2sMac256, 32>(&rt, "Blake2sMac32 { ... }");
}

#[test]
fn debug_of_cores_shows_no_state(rt: HostRuntime) {
    let core = Blake2bVarCore::new_with_params(b"", b"", 0, 64);
    check_debug(&rt, &core, "Blake2bVarCore { ... }");
    let core = Blake2sVarCore::new_with_params(b"", b"", 0, 32);
    check_debug(&rt, &core, "Blake2sVarCore { ... }");
}

// The names of the algorithms, by its `Debug`.
struct Names;

impl fmt::Debug for Names {
    fn fmt<W: fmt::Write>(&self, f: &mut fmt::Formatter<W>) -> fmt::Result {
        Blake2bVarCore::write_alg_name(f)?;
        f.write_str(" ")?;
        Blake2sVarCore::write_alg_name(f)
    }
}

#[test]
fn algorithm_names_are_written(rt: HostRuntime) {
    check_debug(&rt, &Names, "Blake2b Blake2s");
}
