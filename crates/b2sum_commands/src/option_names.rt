//! The options of the command line and their names.

ghost use Rattle.std.specs.Prelude.{◌≡◌, nat_eq};
ghost use Rattle.std.specs.List.{starts_with, find, count_by};
ghost use Rattle.std.specs.Str.{bytes_eq};
ghost use Rattle.b2sum_commands.specs.OptionNames.{long_name, has_value, letter_flag};
ghost use Rattle.b2sum_commands.specs.CommandLine.{all_flags};

/// The options of the command line.
#[derive(Clone, Copy, Debug, PartialEq, Eq)]
pub(crate) enum Flag {
    Algorithm,
    Length,
    KeyFile,
    KeyHexFile,
    DeriveKey,
    Personal,
    PersonalText,
    Salt,
    Tree,
    Threads,
    Progress,
    NoNames,
    Raw,
    ShowDigests,
    Recursive,
    Check,
    Expect,
    IgnoreMissing,
    Quiet,
    Status,
    Warn,
    Strict,
    Tag,
    Seal,
    Sealed,
    Zero,
    Binary,
    Text,
    Help,
    Version,
}

impl Flag {
    /// Returns the name of the long option.
    pub(crate) fn name(self) -> &'static [u8]
        ensures { result.now ≡ long_name self }
    {
        match self {
            Flag::Algorithm => b"algorithm",
            Flag::Length => b"length",
            Flag::KeyFile => b"key-file",
            Flag::KeyHexFile => b"key-hex-file",
            Flag::DeriveKey => b"derive-key",
            Flag::Personal => b"personal",
            Flag::PersonalText => b"personal-text",
            Flag::Salt => b"salt",
            Flag::Tree => b"tree",
            Flag::Threads => b"threads",
            Flag::Progress => b"progress",
            Flag::NoNames => b"no-names",
            Flag::Raw => b"raw",
            Flag::ShowDigests => b"show-digests",
            Flag::Recursive => b"recursive",
            Flag::Check => b"check",
            Flag::Expect => b"expect",
            Flag::IgnoreMissing => b"ignore-missing",
            Flag::Quiet => b"quiet",
            Flag::Status => b"status",
            Flag::Warn => b"warn",
            Flag::Strict => b"strict",
            Flag::Tag => b"tag",
            Flag::Seal => b"seal",
            Flag::Sealed => b"sealed",
            Flag::Zero => b"zero",
            Flag::Binary => b"binary",
            Flag::Text => b"text",
            Flag::Help => b"help",
            Flag::Version => b"version",
        }
    }

    /// Returns whether the option has a value.
    pub(crate) fn has_value(self) -> bool
        ensures { result ≡ has_value self }
    {
        matches!(
            self,
            Flag::Algorithm
                | Flag::Length
                | Flag::KeyFile
                | Flag::KeyHexFile
                | Flag::DeriveKey
                | Flag::Personal
                | Flag::PersonalText
                | Flag::Salt
                | Flag::Tree
                | Flag::Threads
                | Flag::Recursive
                | Flag::Expect
        )
    }

    /// Returns the option of this letter, or `None` if there is none.
    pub(crate) fn from_letter(letter: u8) -> Option<Flag>
        ensures { result ≡ letter_flag letter }
    {
        match letter {
            b'a' => Some(Flag::Algorithm),
            b'l' => Some(Flag::Length),
            b'c' => Some(Flag::Check),
            b'w' => Some(Flag::Warn),
            b'z' => Some(Flag::Zero),
            b'b' => Some(Flag::Binary),
            b't' => Some(Flag::Text),
            _ => None,
        }
    }
}

/// The long options, in the order in which messages list them.
pub(crate) static FLAGS: [Flag; 30] = [
    Flag::Length,
    Flag::Check,
    Flag::IgnoreMissing,
    Flag::Quiet,
    Flag::Status,
    Flag::Warn,
    Flag::Strict,
    Flag::Tag,
    Flag::Zero,
    Flag::Binary,
    Flag::Text,
    Flag::Algorithm,
    Flag::KeyFile,
    Flag::KeyHexFile,
    Flag::DeriveKey,
    Flag::Personal,
    Flag::PersonalText,
    Flag::Salt,
    Flag::Tree,
    Flag::Threads,
    Flag::Progress,
    Flag::NoNames,
    Flag::Raw,
    Flag::ShowDigests,
    Flag::Recursive,
    Flag::Expect,
    Flag::Seal,
    Flag::Sealed,
    Flag::Help,
    Flag::Version,
];

/// Returns the option of this long name.
pub(crate) fn exact_flag(name: &[u8]) -> Option<Flag>
    ensures { result ≡ find (λ f. bytes_eq (long_name f) name.now) all_flags }
{
    FLAGS.iter().copied().find(|flag| flag.name() == name)
}

/// Returns the first option whose long name begins with these bytes.
pub(crate) fn first_beginning(name: &[u8]) -> Option<Flag>
    ensures { result ≡ find (λ f. starts_with nat_eq (long_name f) name.now) all_flags }
{
    FLAGS
        .iter()
        .copied()
        .find(|flag| flag.name().starts_with(name))
}

/// Returns the number of options whose long names begin with these bytes.
pub(crate) fn beginning_flags(name: &[u8]) -> usize
    ensures { result ≡ count_by (λ f. starts_with nat_eq (long_name f) name.now) all_flags }
{
    FLAGS
        .iter()
        .filter(|flag| flag.name().starts_with(name))
        .count()
}
