//! A digest that files are to have.

ghost use Rattle.std.specs.Prelude.{◌≤◌, length};

/// A digest that files are to have.
#[derive(Drop)]
pub struct ExpectedDigest {
    /// Its bytes: 1 to 64.
    pub bytes: Vec<u8>,
    ghost fits: { length bytes.items ≤ 64 },
}
