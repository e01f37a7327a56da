//! What generic code may promise about the members that a type fills in. Each function over a
//! trait is called at a type by one that concludes the definition: if the type's member says
//! less, that caller has no proof.

ghost use Rattle.std.specs.Prelude.{◌≡◌, ◌+◌, ◌^◌, ◌<◌, ◌≤◌, false, true, [], length, replicate};
ghost use Rattle.std.specs.Prelude.{None, Some, IfOk};
ghost use Rattle.blake2.specs.Family.{blake2b, blake2s};
ghost use Rattle.blake2.specs.Hash.{AdmitsTree, parameters_of, sequential};
ghost use Rattle.blake2.specs.Views.{tree_of};
ghost use Rattle.blake2.specs.Cores.{core_made, core_wiped};
ghost use Rattle.blake2.specs.Hashers.{blake2b_meaning, blake2b_mac_meaning, blake2b_state};
ghost use Rattle.blake2.specs.Hashers.{blake2s_meaning, blake2s_mac_meaning, blake2s_state};
ghost use Rattle.blake2.specs.Hashers.{blake2b_mac_state, blake2s_mac_state};
ghost use Rattle.blake2.specs.States.{Fresh, IsWiped, digest_of, node_digest_of};

use crate::checks::check_digits;
use blake2::digest::{
    CustomizedInit, Digest, FixedOutput, InvalidLength, InvalidOutputSize, KeyInit, LazyBuffer,
    Mac, TreeNode, Update, VariableOutputCore, VariableOutputCoreCustomized, Wipe,
};
use blake2::{
    Blake2b512, Blake2bMac512, Blake2bVarCore, Blake2s256, Blake2sMac256, Blake2sVarCore, Tree,
};
use blake2_test_support::inputs::non_root_tree_node;

// ---- Wipe

fn wipe_by_trait<S: Wipe>(state: &mut S)
    ensures { S.is_wiped state.new }
{
    state.wipe();
}

fn wipe_buffer(buffer: &mut LazyBuffer<128>)
    ensures { buffer.new ≡ replicate (length buffer.new) 0 }
{
    wipe_by_trait(buffer);
}

fn wipe_blake2b_core(core: &mut Blake2bVarCore)
    ensures { core.new ≡ core_wiped }
{
    wipe_by_trait(core);
}

fn wipe_blake2s_core(core: &mut Blake2sVarCore)
    ensures { core.new ≡ core_wiped }
{
    wipe_by_trait(core);
}

fn wipe_blake2b(hasher: &mut Blake2b512)
    ensures { IsWiped (blake2b_state hasher.new) }
{
    wipe_by_trait(hasher);
}

fn wipe_blake2s(hasher: &mut Blake2s256)
    ensures { IsWiped (blake2s_state hasher.new) }
{
    wipe_by_trait(hasher);
}

fn wipe_blake2b_mac(mac: &mut Blake2bMac512)
    ensures { IsWiped (blake2b_mac_state mac.new) }
{
    wipe_by_trait(mac);
}

fn wipe_blake2s_mac(mac: &mut Blake2sMac256)
    ensures { IsWiped (blake2s_mac_state mac.new) }
{
    wipe_by_trait(mac);
}

// ---- cores

fn core_by_trait<C: VariableOutputCore<B, M>, const B: usize, const M: usize>(
    output_size: usize,
) -> Result<C, InvalidOutputSize>
    ensures { IfOk result (λ core. C.made output_size core) }
{
    C::new(output_size)
}

fn blake2b_core(output_size: usize) -> Result<Blake2bVarCore, InvalidOutputSize>
    ensures { IfOk result (λ core. core ≡ core_made blake2b (parameters_of output_size 0 [] [])) }
{
    core_by_trait::<Blake2bVarCore, 128, 64>(output_size)
}

fn blake2s_core(output_size: usize) -> Result<Blake2sVarCore, InvalidOutputSize>
    ensures { IfOk result (λ core. core ≡ core_made blake2s (parameters_of output_size 0 [] [])) }
{
    core_by_trait::<Blake2sVarCore, 64, 32>(output_size)
}

fn customized_core_by_trait<C: VariableOutputCoreCustomized>(
    persona: &[u8],
    output_size: usize,
) -> C
    requires { C.can_customize persona.now output_size }
    ensures { C.customized persona.now output_size result }
{
    C::new_customized(persona, output_size)
}

fn customized_blake2b_core(persona: &[u8], output_size: usize) -> Blake2bVarCore
    requires persona { length persona.now ≤ 16 }
    requires size { output_size ≤ 64 }
    ensures { result ≡ core_made blake2b (parameters_of output_size 0 [] persona.now) }
{
    customized_core_by_trait(persona, output_size)
}

fn customized_blake2s_core(persona: &[u8], output_size: usize) -> Blake2sVarCore
    requires persona { length persona.now ≤ 8 }
    requires size { output_size ≤ 32 }
    ensures { result ≡ core_made blake2s (parameters_of output_size 0 [] persona.now) }
{
    customized_core_by_trait(persona, output_size)
}

// ---- hashers

fn customized_by_trait<H: CustomizedInit>(persona: &[u8]) -> H
    requires { H.can_customize persona.now }
    ensures { Fresh H.meaning (H.customized persona.now) 0 result }
{
    H::new_customized(persona)
}

fn customized_blake2b(persona: &[u8]) -> Blake2b512
    requires { length persona.now ≤ 16 }
    ensures { Fresh (blake2b_meaning 64)
        (node_digest_of blake2b 64 [] persona.now None sequential) 0 result }
{
    customized_by_trait(persona)
}

fn customized_blake2s(persona: &[u8]) -> Blake2s256
    requires { length persona.now ≤ 8 }
    ensures { Fresh (blake2s_meaning 32)
        (node_digest_of blake2s 32 [] persona.now None sequential) 0 result }
{
    customized_by_trait(persona)
}

fn digest_by_trait<H: Digest<N> + Drop, const N: usize>(message: &[u8]) -> [u8; N]
    requires supported { H.is_supported }
    requires fits { length message.now < 2 ^ 64 }
    ensures { result ≡ H.digest_of false message.now }
{
    H::digest(message)
}

fn blake2b_digest(message: &[u8]) -> [u8; 64]
    requires { length message.now < 2 ^ 64 }
    ensures { result ≡ digest_of blake2b 64 [] [] None message.now }
{
    digest_by_trait::<Blake2b512, 64>(message)
}

fn blake2s_digest(message: &[u8]) -> [u8; 32]
    requires { length message.now < 2 ^ 64 }
    ensures { result ≡ digest_of blake2s 32 [] [] None message.now }
{
    digest_by_trait::<Blake2s256, 32>(message)
}

// The digest of a node that is the last of its level.
fn last_node_digest_by_trait<H: FixedOutput<N> + TreeNode + Drop, const N: usize>(
    mut node: H,
    bytes: &[u8],
) -> [u8; N]
    requires { H.meaning.count node + length bytes.now < 2 ^ 64 }
    ensures { result ≡ H.meaning.future node true bytes.now }
{
    node.set_last_node(true);
    node.update(bytes);
    node.finalize_fixed()
}

fn last_node_digest_of_blake2b(tree: &Tree, bytes: &[u8]) -> [u8; 64]
    requires tree { AdmitsTree blake2b (tree_of tree.now) }
    requires fits { length bytes.now < 2 ^ 64 }
    ensures { result ≡ node_digest_of blake2b 64 [] [] None (tree_of tree.now) true bytes.now }
{
    last_node_digest_by_trait(Blake2b512::new_with_tree(b"", b"", tree), bytes)
}

fn last_node_digest_of_blake2s(tree: &Tree, bytes: &[u8]) -> [u8; 32]
    requires tree { AdmitsTree blake2s (tree_of tree.now) }
    requires fits { length bytes.now < 2 ^ 64 }
    ensures { result ≡ node_digest_of blake2s 32 [] [] None (tree_of tree.now) true bytes.now }
{
    last_node_digest_by_trait(Blake2s256::new_with_tree(b"", b"", tree), bytes)
}

// ---- MACs

fn mac_by_trait<M: KeyInit<K>, const K: usize>(key: &[u8]) -> Result<M, InvalidLength>
    requires { M.is_supported }
    ensures { IfOk result (λ mac. Fresh M.meaning (M.keyed key.now) M.key_count mac) }
{
    M::new_from_slice(key)
}

fn blake2b_mac(key: &[u8]) -> Result<Blake2bMac512, InvalidLength>
    ensures { IfOk result (λ mac. Fresh (blake2b_mac_meaning 64)
        (node_digest_of blake2b 64 [] [] (Some key.now) sequential) 128 mac) }
{
    mac_by_trait::<Blake2bMac512, 64>(key)
}

fn blake2s_mac(key: &[u8]) -> Result<Blake2sMac256, InvalidLength>
    ensures { IfOk result (λ mac. Fresh (blake2s_mac_meaning 32)
        (node_digest_of blake2s 32 [] [] (Some key.now) sequential) 64 mac) }
{
    mac_by_trait::<Blake2sMac256, 32>(key)
}

// ---- the calls at work: digests are those of `hashlib`

#[test]
fn trait_wipes_buffers_and_cores(rt: HostRuntime) {
    let mut buffer = LazyBuffer::<128>::new(b"abc");
    wipe_buffer(&mut buffer);
    assert!(rt; buffer.get_pos() == 3);
    assert!(rt; buffer.padded() == [0; 128]);
    let mut core = customized_blake2b_core(b"persona", 64);
    wipe_blake2b_core(&mut core);
    assert!(rt; core.chain_words() == [0; 8]);
    assert!(rt; core.first_words() == [0; 8]);
    let mut core = customized_blake2s_core(b"persona", 32);
    wipe_blake2s_core(&mut core);
    assert!(rt; core.chain_words() == [0; 8]);
    assert!(rt; core.first_words() == [0; 8]);
}

#[test]
fn trait_wipes_hashers(rt: HostRuntime) {
    let mut hasher = Blake2b512::new().chain_update(b"abc");
    wipe_blake2b(&mut hasher);
    assert!(rt; hasher.counted() == 3);
    let mut hasher = Blake2s256::new().chain_update(b"abc");
    wipe_blake2s(&mut hasher);
    assert!(rt; hasher.counted() == 3);
}

#[test]
fn trait_wipes_macs(rt: HostRuntime) {
    let mut mac = blake2b_mac(b"key").expect(&rt, "a MAC of BLAKE2b");
    wipe_blake2b_mac(&mut mac);
    assert!(rt; mac.counted() == 128);
    let mut mac = blake2s_mac(b"key").expect(&rt, "a MAC of BLAKE2s");
    wipe_blake2s_mac(&mut mac);
    assert!(rt; mac.counted() == 64);
}

#[test]
fn blake2b_traits_make_the_same_cores(rt: HostRuntime) {
    let [first, ..] = blake2b_core(48).expect(&rt, "a core").first_words();
    assert!(rt; first == 0x6a09e667f3bcc908 ^ 0x01010030);
    assert!(rt; blake2b_core(65).is_err());
    let words = customized_blake2b_core(b"persona", 64).first_words();
    assert!(rt; words[0] == 0x6a09e667f3bcc908 ^ 0x01010040);
    assert!(rt; words[6] == 0x1f83d9abfb41bd6b ^ 0x616e6f73726570);
}

#[test]
fn blake2s_traits_make_the_same_cores(rt: HostRuntime) {
    let [first, ..] = blake2s_core(31).expect(&rt, "a core").first_words();
    assert!(rt; first == 0x6a09e667 ^ 0x0101001f);
    assert!(rt; blake2s_core(33).is_err());
    let words = customized_blake2s_core(b"persona", 32).first_words();
    assert!(rt; words[0] == 0x6a09e667 ^ 0x01010020);
    assert!(rt; words[6] == 0x1f83d9ab ^ 0x73726570);
    assert!(rt; words[7] == 0x5be0cd19 ^ 0x616e6f);
}

#[test]
fn blake2b_traits_return_known_digests(rt: HostRuntime) {
    let personal = customized_blake2b(b"persona").chain_update(b"abc");
    let wanted = "836239e2d9b59f053c4a710efb47c09fb819c7a5c8241aef8ea9a6cad7eaf99e\
         4bdfaf023f46bbe2333e56f552cb85cb7e85c9dac8d03cf58d7eb21063076c93";
    check_digits(&rt, &personal.finalize(), wanted);
    let wanted = "ba80a53f981c4d0d6a2797b69f12f6e94c212f14685ac4b74b12bb6fdbffa2d1\
         7d87c5392aab792dc252d5de4533cc9518d38aa8dbf1925ab92386edd4009923";
    check_digits(&rt, &blake2b_digest(b"abc"), wanted);
    let keyed = blake2b_mac(b"key")
        .expect(&rt, "a MAC")
        .chain_update(b"abc");
    let wanted = "5c6a9a4ae911c02fb7e71a991eb9aea371ae993d4842d206e6020d46f5e41358\
         c6d5c277c110ef86c959ed63e6ecaaaceaaff38019a43264ae06acf73b9550b1";
    check_digits(&rt, &keyed.finalize_fixed(), wanted);
    let tree = non_root_tree_node();
    assert!(rt; Blake2bVarCore::admits_tree(&tree));
    let wanted = "339840bfb4fcf86bd23f4e22e0fb7220814bce9a254d3b25b1df24479ec1a883\
         57e85c7881ba2ddc1349170d681cade2e6b10e4336349113a0d95f860cd4585b";
    check_digits(&rt, &last_node_digest_of_blake2b(&tree, b"abc"), wanted);
}

#[test]
fn blake2s_traits_return_known_digests(rt: HostRuntime) {
    let personal = customized_blake2s(b"persona").chain_update(b"abc");
    let wanted = "0936fa60dce8a8dd117dc74b29d5a4720e3901bf2317d21575defdbf4b87898a";
    check_digits(&rt, &personal.finalize(), wanted);
    let wanted = "508c5e8c327c14e2e1a72ba34eeb452f37458b209ed63a294d999b4c86675982";
    check_digits(&rt, &blake2s_digest(b"abc"), wanted);
    let keyed = blake2s_mac(b"key")
        .expect(&rt, "a MAC")
        .chain_update(b"abc");
    let wanted = "3f9723437b033bf0c1f4df43cafd0776068cb0a95912de13f3b2952a3aba764d";
    check_digits(&rt, &keyed.finalize_fixed(), wanted);
    let tree = non_root_tree_node();
    assert!(rt; Blake2sVarCore::admits_tree(&tree));
    let wanted = "310f6db4d75ec40e5d9bec0cc45d228b46dec4e075cf61a8da736206a24f3196";
    check_digits(&rt, &last_node_digest_of_blake2s(&tree, b"abc"), wanted);
}
