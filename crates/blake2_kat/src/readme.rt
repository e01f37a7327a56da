//! The examples of `crates/blake2/CALLING.md`, word for word (`tests/pages.py` compares them), and
//! what they return.

use crate::checks::check_digits;
use blake2::digest::{InvalidLength, Mac};
use blake2::{Blake2b512, Blake2bMac512, Digest};

/// Returns the digest of a greeting that comes in two pieces.
pub fn greeting() -> [u8; 64] {
    let mut hasher = Blake2b512::new();
    hasher.update(b"hello ");
    hasher.update(b"world");
    hasher.finalize()
}

/// Returns whether the tag is that of the record under this key.
pub fn is_authentic(key: &[u8], record: &[u8], tag: &[u8]) -> Result<bool, InvalidLength> {
    let mut mac = Blake2bMac512::new_with_salt_and_personal(Some(key), b"", b"records")?;
    mac.update(record);
    Ok(mac.verify_slice(tag).is_ok())
}

#[test]
fn examples_return_digests_of_hashlib(rt: HostRuntime) {
    let digest = "021ced8799296ceca557832ab941a50b4a11f83478cf141f51f933f653ab9fbc\
         c05a037cddbed06e309bf334942c4e58cdf1a46e237911ccd7fcf9787cbc7fd0";
    check_digits(&rt, &greeting(), digest);
    let digits = "5f2c9f63803edc45e8e6866955e0ba4eb97d43ba09f0d6ffa54cde893466edca\
         772de556b9942f92a38735105fa148c52c1ca3a746fd16c1b9f711221be1ba01";
    let mut tag = [0; 64];
    assert!(rt; hex::decode_to_slice(digits, &mut tag).is_ok());
    assert!(rt; is_authentic(b"key", b"a record", &tag) == Ok(true));
    assert!(rt; is_authentic(b"key", b"another record", &tag) == Ok(false));
    assert!(rt; is_authentic(b"", b"a record", &tag) == Err(InvalidLength));
    let (_, beginning) = tag.as_slice().split_last().expect(&rt, "no tag");
    assert!(rt; is_authentic(b"key", b"a record", beginning) == Ok(false));
}
