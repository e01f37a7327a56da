//! The errors of constructors and checks.

/// The error of a constructor whose output size is above the core's maximum,
/// `OutputSizeUser::OUTPUT_SIZE`.
#[derive(Clone, Copy, Debug, PartialEq, Eq)]
pub struct InvalidOutputSize;

/// The error of a constructor whose key, salt or persona has a length that it does not accept.
#[derive(Clone, Copy, Debug, PartialEq, Eq)]
pub struct InvalidLength;

/// The error of a check whose tag is not the output of the MAC.
#[derive(Clone, Copy, Debug, PartialEq, Eq)]
pub struct MacError;
