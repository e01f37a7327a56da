//! The block cores: the compression of RFC 7693, 3.2, with the count of its bytes.

pub mod blake2b;
pub mod blake2s;
