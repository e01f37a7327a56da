//! Laws: a check reads what was printed, and which command lines mean the same.

ghost use Rattle.std.specs.Prelude.{◌≡◌, ◌≤◌, map, true, false, IfOk, IsErrOf};
ghost use Rattle.b2sum_commands.specs.declared.options.Shape.TheVariants.{Named};
ghost use Rattle.b2sum_commands.specs.World.{world_of};
ghost use Rattle.b2sum_commands.specs.ReadBack.{ManifestIsPrinted};
ghost use Rattle.b2sum_commands.specs.CommandLineLaws.{
  WordsAfterDoubleHyphenAreFiles,
  JoinedLettersEqualSeparateWords,
};
ghost use Rattle.b2sum_commands.specs.CommandLineLaws.{
  LetterValueMayFollowAsWord,
  NameValueMayFollowAsWord,
};

use crate::devices::{Disk, Fault, Output};
use crate::hashes::Hashes;
use crate::options::Options;
use crate::session::{Host, Session};
use crate::sums::print_sums;
use blake2_streams::Sink;

/// Prints a manifest of the files of these names, as `print_sums` does, and returns whether all
/// were read. The options must be those of lines with names, which end with newlines. The digests
/// have at most 64 bytes. The errors are those of `print_sums`.
///
/// A check reads what was printed as exactly the entries of the files that were read, in order,
/// each with its name and its digest. If the bytes of the files are the same as before, it finds
/// that none has changed. This is for digests of the length that the options have, which must be
/// one of the algorithm, and with a tag for roots of trees; for names that files can have, of at
/// least one byte, none of which is zero (newlines, carriage returns and backslashes are escaped);
/// and for a check that has what the digests need and demands no other length.
pub fn print_manifest<H: Hashes, D: Disk, K: Output, E: Sink>(
    host: &Host<H, D>,
    options: &Options,
    session: &mut Session<D::File, K, E>,
    names: &[Vec<u8>],
) -> Result<bool, Fault>
    requires most { options.now.bytes ≤ 64 }
    requires named { options.now.shape ≡ Named }
    requires lines { options.now.ends_zero ≡ false }
    ensures manifest { IfOk result (ManifestIsPrinted
        (world_of host.now.program.name.items D.File.named D.File.failed D.File.failure
        (D.files host.now.disk) H.hashing) options.now
        (map (λ name. name.items) names.now) session.old session.new) }
    ensures write { IsErrOf result Fault.WriteFailed → session.new.output_failed ≡ true }
{
    print_sums(host, options, session, names)
}

/// Does nothing. Its contract says that letters may stand in one word or in several: `-ab` is
/// `-a -b`, if `a` is the letter of an option without a value.
pub fn joined_letters_equal_separate_words()
    ensures { JoinedLettersEqualSeparateWords }
{}

/// Does nothing. Its contract says that the value of a letter may follow it, or be the next word:
/// `-aVALUE` is `-a VALUE`.
pub fn letter_value_may_follow_as_word()
    ensures { LetterValueMayFollowAsWord }
{}

/// Does nothing. Its contract says that the value of a long option may follow `=`, or be the next
/// word: `--name=VALUE` is `--name VALUE`, also if the name is cut short.
pub fn name_value_may_follow_as_word()
    ensures { NameValueMayFollowAsWord }
{}

/// Does nothing. Its contract says that after `--` each word is a file, whatever it begins with.
pub fn words_after_double_hyphen_are_files()
    ensures { WordsAfterDoubleHyphenAreFiles }
{}
