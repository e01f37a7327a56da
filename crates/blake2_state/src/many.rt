//! Several states that absorb at once, each an input of its own. The steps of one compression wait
//! for each other; those of several states don't.

pub mod blake2b;
pub mod blake2s;

/// One of several inputs, as `vulfsjor_message` of the header: a pointer and a length.
#[repr(C)]
pub struct Text<'a> {
    /// Its bytes.
    pub bytes: &'a [u8],
}
