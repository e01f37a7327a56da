//! The check of manifests.

ghost use Rattle.std.specs.Prelude.{◌≡◌, ◌≢◌, ◌⊎◌, ℕ, ◌<◌, ◌≤◌, ◌&&◌, ◌||◌, List, length};
ghost use Rattle.std.specs.Prelude.{Option, Some, None, not, true, false, IfOk, IfSome, OnOk};
ghost use Rattle.std.specs.Prelude.{[], ◌∷◌, ◌==◌, codes, Ok, is_none, if◌then◌else◌, IsErr};
ghost use Rattle.std.specs.Prelude.{IsErrOf, OnErr, map, ◌++◌, take};
ghost use Rattle.std.specs.Prelude.{IsOkUnless};
ghost use Rattle.std.specs.Io.KnownBytes.{Appends, Consumes};
ghost use Rattle.hex.specs.Hex.{encode_lower};
ghost use Rattle.std.specs.Option.{option_map};
ghost use Rattle.std.specs.Result.{result_ok};
ghost use Rattle.b2sum_lines.specs.EntryViews.{entry_value};
ghost use Rattle.b2sum_commands.specs.Messages.{LineNeeds, VerifiesNone, message, message_if};
ghost use Rattle.b2sum_commands.specs.World.{
  world_of,
  NamesAreDoneInTurn,
  KeepsOutputAndPlace,
  OnlyTells,
  AcceptsNothingOrPart,
};
ghost use Rattle.b2sum_commands.specs.World.{OpenFileHasFailed, SinkAcceptsOrFails, TellsText};
ghost use Rattle.b2sum_commands.specs.LineReads.{
  LineIsCutOff,
  SourceIsAfterLine,
  source_left,
  source_name_or_dash,
};
ghost use Rattle.b2sum_commands.specs.LineReads.{IsOpenManifest};
ghost use Rattle.b2sum_commands.specs.Manifests.{
  line_content_unless_comment,
  item,
  spacing_after_entry,
  VerdictIsRight,
};
ghost use Rattle.b2sum_commands.specs.Manifests.{
  LineIsChecked,
  NeedsNoOtherOptions,
  TellsWhyUnread,
  next_place,
};
ghost use Rattle.b2sum_commands.specs.Manifests.{StopsInLine, StopsInVerdict};
ghost use Rattle.b2sum_commands.specs.Reports.{
  CountsMatchVerdicts,
  CountsAddVerdict,
  has_no_entry,
  count_warnings,
};
ghost use Rattle.b2sum_commands.specs.Reports.{manifest_holds_by_counts, report_text};
ghost use Rattle.b2sum_commands.specs.Reports.{TellsManifestEnd};
ghost use Rattle.b2sum_commands.specs.Manifests.{
  outcome,
  name_with_outcome,
  verdict_lines,
  prints_nothing,
};
ghost use Rattle.b2sum_commands.specs.Manifests.{
  digests_are_shown,
  digest_lines,
  full_outcome,
  VerdictLinesAreAccepted,
};
ghost use Rattle.b2sum_commands.specs.Manifests.{bad_line_message, warns_of_bad_lines};
ghost use Rattle.b2sum_commands.specs.ManifestChecks.{
  item_value,
  IfItemIsEntry,
  ManifestIsChecked,
  ManifestIsCheckedFromHere,
};
ghost use Rattle.b2sum_commands.specs.ManifestChecks.{
  LinesAreReadAndChecked,
  CountsAtEnd,
  ManifestCheckIsStopped,
  TellsOpenFailure,
};
ghost use Rattle.b2sum_commands.specs.ReadAhead.{AreDigestsOfFiles};
ghost use Rattle.b2sum_commands.specs.SealedLists.{FileIsCheckedByOptions};
ghost use Rattle.b2sum_commands.specs.declared.line_reader.LineEnd.TheVariants.{Failure};
ghost use Rattle.b2sum_commands.specs.declared.check.Verdict.TheVariants.{Equal, Different};
ghost use Rattle.b2sum_commands.specs.declared.check.Verdict.TheVariants.{Skipped, Malformed};
ghost use Rattle.b2sum_commands.specs.declared.check.Verdict.TheVariants.{Unread, Comment};
ghost use Rattle.b2sum_commands.specs.declared.check.Verdict as verdict;
ghost use Rattle.b2sum_commands.specs.declared.sums.Read.TheVariants.{Whole, Missing, Failed};

use crate::ahead::Ahead;
use crate::devices::{Disk, Fault, OpenFile, Output, put};
use crate::expected::check_expected;
use crate::hashes::{Function, Hashes};
use crate::line_needs::{Lacks, meets};
use crate::line_reader::{LineEnd, LineReader};
use crate::listed_ahead::{Unchecked, go_on_in_list};
use crate::messages::{
    warn_of_count, warn_of_file, warn_of_foreign, warn_of_line, warn_of_line_needs, warn_of_needs,
    warn_of_no_entry, warn_of_none, warn_of_read,
};
use crate::options::{Options, Report};
use crate::other_hashes::is_line_of_other_hash;
use crate::sealed_checks::check_sealed;
use crate::session::{Host, Program, Session};
use crate::sums::{Read, digest_file, is_standard_input};
use b2sum_lines::{Entry, Spacing, Style, push_escaped, read_line};
use blake2_digest::constant_time_eq;
use blake2_streams::Sink;
use std::alloc::{AllocError, Global};

/// What the check of a line came to.
#[derive(Clone, Copy, Debug, PartialEq, Eq)]
pub enum Verdict {
    /// The file has the digest.
    Equal,
    /// The file has another digest.
    Different,
    /// The file cannot be read.
    Unread,
    /// The file does not exist, which is to be ignored.
    Skipped,
    /// The line is not that of an entry.
    Malformed,
    /// The line is that of an entry that needs other options.
    Unmet(Lacks),
    /// The line is a comment, or has nothing.
    Comment,
}

/// How many lines of a manifest came to what, and what some need. Each count stops at 2^64 - 1.
#[derive(Clone, Copy, Debug, PartialEq, Eq)]
pub struct Counts {
    /// Lines of files that have the digest.
    pub equal: u64,
    /// Lines of files that have another digest.
    pub different: u64,
    /// Lines of files that cannot be read.
    pub unread: u64,
    /// Lines of files that do not exist, which is ignored.
    pub skipped: u64,
    /// Lines that are not those of an entry.
    pub malformed: u64,
    /// Lines that need other options.
    pub unmet: u64,
    /// What these lines need.
    pub lacks: Lacks,
}

impl Counts {
    pub(crate) fn none() -> Counts
        ensures { CountsMatchVerdicts [] result }
    {
        Counts {
            equal: 0,
            different: 0,
            unread: 0,
            skipped: 0,
            malformed: 0,
            unmet: 0,
            lacks: Lacks::none(),
        }
    }

    // Adds a line with this verdict.
    pub(crate) fn add(&mut self, verdict: Verdict)
        ensures { CountsAddVerdict verdict self.old self.new }
    {
        match verdict {
            Verdict::Equal => self.equal = self.equal.saturating_add(1),
            Verdict::Different => self.different = self.different.saturating_add(1),
            Verdict::Unread => self.unread = self.unread.saturating_add(1),
            Verdict::Skipped => self.skipped = self.skipped.saturating_add(1),
            Verdict::Malformed => self.malformed = self.malformed.saturating_add(1),
            Verdict::Unmet(lacks) => {
                self.unmet = self.unmet.saturating_add(1);
                self.lacks.add(lacks);
            }
            Verdict::Comment => {}
        }
    }

    // Returns whether no line is that of an entry.
    fn has_no_entry(&self) -> bool
        ensures { result ≡ has_no_entry self.now }
    {
        self.equal == 0
            && self.different == 0
            && self.unread == 0
            && self.skipped == 0
            && self.unmet == 0
    }

    // Returns whether a file has its digest, and no line fails the check.
    fn holds(&self, is_strict: bool) -> bool
        ensures { result ≡ manifest_holds_by_counts is_strict self.now }
    {
        self.equal > 0
            && self.different == 0
            && self.unread == 0
            && self.unmet == 0
            && (!is_strict || self.malformed == 0)
    }
}

/// Checks each file, from the first to the last: compares it with a digest, if the options have
/// one, or checks it as a manifest, or as a sealed list. Returns whether all have the digest, or
/// hold.
pub fn check_manifests<H: Hashes, D: Disk, K: Output, E: Sink>(
    host: &Host<H, D>,
    options: &Options,
    session: &mut Session<D::File, K, E>,
    names: &[Vec<u8>],
) -> Result<bool, Fault>
    ensures checked { NamesAreDoneInTurn (FileIsCheckedByOptions
        (world_of host.now.program.name.items D.File.named D.File.failed D.File.failure
        (D.files host.now.disk) H.hashing) options.now)
        (map (λ name. name.items) names.now) session.old session.new (result_ok result) }
    ensures write { IsErrOf result Fault.WriteFailed → session.new.output_failed ≡ true }
{
    let mut all_hold = true;
    for name in names {
        let holds = check_list(host, options, session, name.as_slice())?;
        all_hold &= holds;
    }
    Ok(all_hold)
}

// Checks the file of this name as the options say. Returns whether it has the digest, or holds.
fn check_list<H: Hashes, D: Disk, K: Output, E: Sink>(
    host: &Host<H, D>,
    options: &Options,
    session: &mut Session<D::File, K, E>,
    name: &[u8],
) -> Result<bool, Fault>
    ensures checked { FileIsCheckedByOptions
        (world_of host.now.program.name.items D.File.named D.File.failed D.File.failure
        (D.files host.now.disk) H.hashing)
        options.now name.now session.old session.new (result_ok result) }
    ensures write { IsErrOf result Fault.WriteFailed → session.new.output_failed ≡ true }
{
    if let Some(digest) = &options.expected {
        return check_expected(host, options, session, digest, name);
    }
    if options.is_sealed {
        check_sealed(host, options, session, name)
    } else {
        check_manifest(host, options, session, name)
    }
}

/// Checks the manifest of this name, or standard input for `-`, line by line as it is read. Returns
/// whether it has an entry that is equal, none that differs, cannot be read or needs other options,
/// and, if the check is strict, no line that is not that of an entry. After an error the lines
/// before it are printed, and of the next nothing or a part.
pub fn check_manifest<H: Hashes, D: Disk, K: Output, E: Sink>(
    host: &Host<H, D>,
    options: &Options,
    session: &mut Session<D::File, K, E>,
    name: &[u8],
) -> Result<bool, Fault>
    ensures checked { ManifestIsChecked
        (world_of host.now.program.name.items D.File.named D.File.failed D.File.failure
        (D.files host.now.disk) H.hashing)
        options.now name.now session.old session.new (result_ok result) }
    ensures write { IsErrOf result Fault.WriteFailed → session.new.output_failed ≡ true }
{
    session.begin_manifest(host.program.alloc, options, name)?;
    let Some(manifest) = open_manifest(host, session, name)? else {
        return Ok(false);
    };
    check_open(host, options, session, manifest, name)
}

// Checks a manifest that is open, of this name, at the place that the session has.
fn check_open<H: Hashes, D: Disk, K: Output, E: Sink>(
    host: &Host<H, D>,
    options: &Options,
    session: &mut Session<D::File, K, E>,
    mut manifest: Manifest<D::File>,
    name: &[u8],
) -> Result<bool, Fault>
    requires { IsOpenManifest D.File.named D.File.left ((D.files host.now.disk).holds name.now)
        session.old.left name.now manifest.file manifest.lines }
    ensures checked { ManifestIsCheckedFromHere
        (world_of host.now.program.name.items D.File.named D.File.failed D.File.failure
        (D.files host.now.disk) H.hashing)
        options.now name.now session.old session.new (result_ok result) }
    ensures write { IsErrOf result Fault.WriteFailed → session.new.output_failed ≡ true }
{
    let found = check_lines(host, options, session, &mut manifest)?;
    end_manifest(&host.program, options, &mut session.messages, name, found)
}

// A manifest that is open.
#[derive(Drop)]
struct Manifest<F> {
    // The file, or `None` for standard input.
    file: Option<F>,
    lines: LineReader,
}

impl<F: OpenFile> Manifest<F> {
    // Returns whether it is standard input.
    fn is_input(&self) -> bool
        ensures { result ≡ is_none self.now.file }
    {
        self.file.is_none()
    }

    // Reads the next line, as `LineReader::read_line` does, from the file or from standard input.
    fn read_line(&mut self, input: &mut F, line: &mut Vec<u8>) -> Result<LineEnd, AllocError>
        requires { F.named input.old ≡ 45 ∷ [] }
        ensures passes { IfOk result (λ end. (more : List ℕ) × (rest : Option (List ℕ))
            × Consumes (source_left F.left self.old.file (F.left input.old)) rest more
            × LineIsCutOff end self.old.lines more line.new.items self.new.lines
            × SourceIsAfterLine end rest (source_left F.left self.new.file (F.left input.new))
            (OpenFileHasFailed F.named F.failed (source_name_or_dash F.named self.old.file))) }
        ensures same { is_none self.new.file ≡ is_none self.old.file }
        ensures name { source_name_or_dash F.named self.new.file
            ≡ source_name_or_dash F.named self.old.file }
        ensures input { F.named input.new ≡ 45 ∷ [] }
        ensures other { is_none self.old.file ≡ false → input.new ≡ input.old }
    {
        match &mut self.file {
            Some(file) => self.lines.read_line(file, line),
            None => self.lines.read_line(input, line),
        }
    }
}

// Opens the manifest of this name. The result is `None` if it cannot be opened, after a message.
fn open_manifest<H: Hashes, D: Disk, K: Output, E: Sink>(
    host: &Host<H, D>,
    session: &mut Session<D::File, K, E>,
    name: &[u8],
) -> Result<Option<Manifest<D::File>>, Fault>
    ensures opened { IfOk result (λ found. IfSome found (λ m.
        (session.new ≡ session.old) × IsOpenManifest D.File.named D.File.left
        ((D.files host.now.disk).holds name.now) session.new.left name.now m.file m.lines)) }
    ensures cut { IfOk result (λ found. found ≡ None → OnlyTells session.old session.new
        × TellsOpenFailure
        (world_of host.now.program.name.items D.File.named D.File.failed D.File.failure
        (D.files host.now.disk) H.hashing)
        name.now session.old session.new) }
    ensures held { session.new.held ≡ session.old.held }
    ensures memory { IsOkUnless result Fault.NoMemory }
{
    let lines = LineReader::new(host.program.alloc)?;
    if is_standard_input(name) {
        return Ok(Some(Manifest { file: None, lines }));
    }
    match host.disk.open(host.program.alloc, name) {
        Ok(file) => Ok(Some(Manifest {
            file: Some(file),
            lines,
        })),
        Err(error) => {
            warn_of_file(host, error, &mut session.messages, name)?;
            Ok(None)
        }
    }
}

// Checks each line of a manifest when it is read, and prints what became of the entries. The result
// is `None` if a read failed, after the lines before that.
fn check_lines<H: Hashes, D: Disk, K: Output, E: Sink>(
    host: &Host<H, D>,
    options: &Options,
    session: &mut Session<D::File, K, E>,
    manifest: &mut Manifest<D::File>,
) -> Result<Option<Counts>, Fault>
    requires { manifest.old.lines ≡ [] }
    ensures lines { IfOk result (λ found. (rest : Option (List ℕ)) × (vs : List verdict.Verdict)
        × LinesAreReadAndChecked
        (world_of host.now.program.name.items D.File.named D.File.failed D.File.failure
        (D.files host.now.disk) H.hashing) options.now
        (is_none manifest.old.file)
        (source_left D.File.left manifest.old.file session.old.left) rest
        session.old session.new vs
        × CountsAtEnd found vs rest (source_left D.File.left manifest.new.file session.new.left)
        (OpenFileHasFailed D.File.named D.File.failed
        (source_name_or_dash D.File.named manifest.old.file))) }
    ensures stopped { IsErr result → ManifestCheckIsStopped
        (world_of host.now.program.name.items D.File.named D.File.failed D.File.failure
        (D.files host.now.disk) H.hashing) options.now
        (source_name_or_dash D.File.named manifest.old.file) (is_none manifest.old.file)
        (source_left D.File.left manifest.old.file session.old.left) session.old session.new }
    ensures file { is_none manifest.new.file ≡ is_none manifest.old.file }
    ensures write { IsErrOf result Fault.WriteFailed → session.new.output_failed ≡ true }
{
    let mut counts = Counts::none();
    let mut line = Vec::new(host.program.alloc);
    let mut ahead = Ahead::new(host.program.alloc);
    'number: for _ in 0..u64::MAX {
        let end = manifest.read_line(&mut session.input, &mut line)?;
        if end != LineEnd::Newline && line.is_empty() {
            return Ok(counted(end, counts));
        }
        let text = line.as_slice();
        go_on_after(host, options, session, manifest, text, &mut ahead);
        let is_input = manifest.is_input();
        let verdict = check_line(host, options, session, &ahead, is_input, text)?;
        counts.add(verdict);
        if end != LineEnd::Newline {
            return Ok(counted(end, counts));
        }
    }
    Err(Fault::NoMemory)
}

// Goes on to this line of a manifest: reads files that are listed from there on, if it is their
// turn.
fn go_on_after<H: Hashes, D: Disk, K: Output, E: Sink>(
    host: &Host<H, D>,
    options: &Options,
    session: &Session<D::File, K, E>,
    manifest: &Manifest<D::File>,
    line: &[u8],
    ahead: &mut Ahead,
)
    requires { AreDigestsOfFiles (D.files host.now.disk) H.hashing options.now
        ahead.old.found.items }
    ensures { AreDigestsOfFiles (D.files host.now.disk) H.hashing options.now
        ahead.new.found.items }
{
    let lines = Unchecked {
        line,
        rest: manifest.lines.unread(),
        spacing: session.spacing(),
        is_input: manifest.is_input(),
    };
    go_on_in_list(host, options, &lines, ahead);
}

// Returns the counts of a manifest that is at its end, and `None` if a read failed.
fn counted(end: LineEnd, counts: Counts) -> Option<Counts>
    ensures last { end ≢ Failure → result ≡ Some counts }
    ensures failure { end ≡ Failure → result ≡ None }
{
    if end == LineEnd::Failure {
        None
    } else {
        Some(counts)
    }
}

// Checks the next line of a manifest. `is_input` says that the manifest is standard input.
pub(crate) fn check_line<H: Hashes, D: Disk, K: Output, E: Sink>(
    host: &Host<H, D>,
    options: &Options,
    session: &mut Session<D::File, K, E>,
    ahead: &Ahead,
    is_input: bool,
    line: &[u8],
) -> Result<Verdict, Fault>
    requires { AreDigestsOfFiles (D.files host.now.disk) H.hashing options.now
        ahead.now.found.items }
    ensures checked { IfOk result (LineIsChecked
        (world_of host.now.program.name.items D.File.named D.File.failed D.File.failure
        (D.files host.now.disk) H.hashing)
        options.now is_input line.now session.old session.new) }
    ensures begun { IsErr result → StopsInLine
        (world_of host.now.program.name.items D.File.named D.File.failed D.File.failure
        (D.files host.now.disk) H.hashing)
        options.now is_input line.now session.old session.new }
    ensures write { IsErrOf result Fault.WriteFailed → session.new.output_failed ≡ true }
{
    let spacing = session.spacing();
    let item = read_item(host.program.alloc, options, spacing, is_input, line)?;
    pass_line(session, &item);
    match item {
        Item::Comment => Ok(Verdict::Comment),
        Item::Malformed => {
            warn_if_wanted(&host.program, options, session, line)?;
            Ok(Verdict::Malformed)
        }
        Item::Unmet(lacks) => {
            warn_of_unmet(&host.program, options, session, lacks)?;
            Ok(Verdict::Unmet(lacks))
        }
        Item::Listed(entry) => check_entry(host, options, session, ahead, &entry),
    }
}

// Moves the place past a line, which is this.
fn pass_line<F: OpenFile, K: Output, E: Sink>(session: &mut Session<F, K, E>, item: &Item)
    ensures { session.new ≡ record session.old {
      place = next_place session.old.place (item_value item.now);
    } }
{
    if let Item::Listed(entry) = item {
        session.place.spacing = spacing_after_entry(session.place.spacing, entry.style);
    }
    session.place.number = session.place.number.saturating_add(1);
}

// Prints the message of a line that is not that of an entry, if the options want it.
fn warn_if_wanted<F: OpenFile, K: Output, E: Sink>(
    program: &Program,
    options: &Options,
    session: &mut Session<F, K, E>,
    line: &[u8],
) -> Result<(), AllocError>
    ensures told { OnOk result (TellsText session.old session.new
        (message_if (warns_of_bad_lines options.now.report) program.now.name.items
        (bad_line_message options.now session.old.place.name session.old.place.number line.now))) }
    ensures only { OnlyTells session.old session.new }
{
    if options.report != Report::Warnings {
        return Ok(());
    }
    let (place, messages) = (&session.place, &mut session.messages);
    let name = place.name.as_slice();
    warn_of_improper(program, options, messages, name, place.number, line)?;
    Ok(())
}

// Prints the message of a line that is not that of an entry, the one of this number.
fn warn_of_improper<E: Sink>(
    program: &Program,
    options: &Options,
    messages: &mut E,
    name: &[u8],
    number: u64,
    line: &[u8],
) -> Result<(), AllocError>
    ensures { OnOk result (SinkAcceptsOrFails (E.failed messages.old) (E.failed messages.new)
        (E.held messages.old) (E.held messages.new) (message program.now.name.items
        (bad_line_message options.now name.now number line.now))) }
{
    if is_line_of_other_hash(line) {
        warn_of_foreign(program, messages, name, number)
    } else {
        warn_of_line(program, messages, name, number, options.algorithm)
    }
}

// Prints the message of a line that needs other options, if the options want it.
fn warn_of_unmet<F: OpenFile, K: Output, E: Sink>(
    program: &Program,
    options: &Options,
    session: &mut Session<F, K, E>,
    lacks: Lacks,
) -> Result<(), AllocError>
    ensures told { OnOk result (TellsText session.old session.new
        (message_if (warns_of_bad_lines options.now.report) program.now.name.items
        (LineNeeds session.old.place.name session.old.place.number lacks))) }
    ensures only { OnlyTells session.old session.new }
{
    if options.report != Report::Warnings {
        return Ok(());
    }
    let (place, messages) = (&session.place, &mut session.messages);
    let name = place.name.as_slice();
    warn_of_line_needs(program, messages, name, place.number, lacks)?;
    Ok(())
}

/// What a line of a manifest is.
#[derive(Drop)]
pub(crate) enum Item {
    /// A comment, or nothing.
    Comment,
    /// The line of an entry.
    Listed(Entry),
    /// The line of an entry that needs other options, and what it needs.
    Unmet(Lacks),
    /// Another line.
    Malformed,
}

/// Returns what a line is. An entry is one that the options can check. None is for standard input,
/// if that has the manifest, or had the key.
pub(crate) fn read_item(
    alloc: Global,
    options: &Options,
    spacing: Spacing,
    is_input: bool,
    line: &[u8],
) -> Result<Item, Fault>
    ensures is { IfOk result
        (λ i. item_value i ≡ item options.now is_input spacing line.now) }
    ensures fits { IfOk result (λ i. IfItemIsEntry i (λ e. length e.digest.items ≤ 64)) }
    ensures memory { IsOkUnless result Fault.NoMemory }
{
    let Some(line) = line_content_unless_comment(line) else {
        return Ok(Item::Comment);
    };
    match read_line(alloc, options.algorithm, spacing, line)? {
        None => Ok(Item::Malformed),
        Some(entry) => {
            if (is_input || options.input_is_key) && is_standard_input(entry.name.as_slice()) {
                return Ok(Item::Malformed);
            }
            if meets(options, &entry) {
                return Ok(Item::Listed(entry));
            }
            Ok(Item::Unmet(Lacks::of(options, &entry)))
        }
    }
}

/// Returns the line without a carriage return at its end, or `None` for a comment and for an empty
/// line.
pub(crate) fn line_content_unless_comment(line: &[u8]) -> Option<&[u8]>
    ensures { option_map (λ l. l.now) result ≡ line_content_unless_comment line.now }
{
    if line.is_empty() || line[0] == b'#' {
        return None;
    }
    let last = line.len() - 1;
    let line = if line[last] == b'\r' {
        &line[..last]
    } else {
        line
    };
    if line.is_empty() { None } else { Some(line) }
}

/// Returns the spacing of a manifest after an entry of this style.
pub(crate) fn spacing_after_entry(spacing: Spacing, style: Style) -> Spacing
    ensures { result ≡ spacing_after_entry spacing style }
{
    match style {
        Style::Tagged(_) => spacing,
        Style::Text | Style::Binary => Spacing::Two,
        Style::Bare => Spacing::One,
    }
}

/// Compares the file of an entry, and prints its lines.
pub(crate) fn check_entry<H: Hashes, D: Disk, K: Output, E: Sink>(
    host: &Host<H, D>,
    options: &Options,
    session: &mut Session<D::File, K, E>,
    ahead: &Ahead,
    entry: &Entry,
) -> Result<Verdict, Fault>
    requires bytes { length entry.now.digest.items ≤ 64 }
    requires ahead { AreDigestsOfFiles (D.files host.now.disk) H.hashing options.now
        ahead.now.found.items }
    ensures verdict { IfOk result (VerdictLinesAreAccepted Appends
        (world_of host.now.program.name.items D.File.named D.File.failed D.File.failure
        (D.files host.now.disk) H.hashing) options.now
        (Ok (entry_value entry.now)) session.old session.new) }
    ensures told { IfOk result (λ v. v ≡ Unread → TellsWhyUnread
        (world_of host.now.program.name.items D.File.named D.File.failed D.File.failure
        (D.files host.now.disk) H.hashing) options.now
        (Ok (entry_value entry.now)) session.old session.new) }
    ensures silent { IfOk result (λ v. v ≢ Unread → session.new.told ≡ session.old.told) }
    ensures begun { IsErr result → StopsInVerdict
        (world_of host.now.program.name.items D.File.named D.File.failed D.File.failure
        (D.files host.now.disk) H.hashing) options.now
        (Ok (entry_value entry.now)) session.old session.new }
    ensures place { session.new.place ≡ session.old.place }
    ensures write { IsErrOf result Fault.WriteFailed → session.new.output_failed ≡ true }
{
    let mut digest = [0u8; 64];
    let verdict = judge_entry(host, options, session, ahead, entry, &mut digest)?;
    let all = &digest[..];
    let found = &all[..entry.digest.len()];
    let alloc = host.program.alloc;
    print_verdict(alloc, options, &mut session.output, entry, verdict, found)?;
    Ok(verdict)
}

// Compares the file of an entry. Returns the verdict, with the file's digest at the front of `out`
// if it was read, and prints nothing but the message of a file that cannot be read.
fn judge_entry<H: Hashes, D: Disk, K: Output, E: Sink>(
    host: &Host<H, D>,
    options: &Options,
    session: &mut Session<D::File, K, E>,
    ahead: &Ahead,
    entry: &Entry,
    out: &mut [u8; 64],
) -> Result<Verdict, Fault>
    requires bytes { length entry.now.digest.items ≤ 64 }
    requires ahead { AreDigestsOfFiles (D.files host.now.disk) H.hashing options.now
        ahead.now.found.items }
    ensures verdict { IfOk result (λ v. VerdictIsRight
        (world_of host.now.program.name.items D.File.named D.File.failed D.File.failure
        (D.files host.now.disk) H.hashing) options.now session.old.left
        (Ok (entry_value entry.now)) v (take (length entry.now.digest.items) out.new)
        session.new.left) }
    ensures told { IfOk result (λ v. v ≡ Unread → TellsWhyUnread
        (world_of host.now.program.name.items D.File.named D.File.failed D.File.failure
        (D.files host.now.disk) H.hashing) options.now
        (Ok (entry_value entry.now)) session.old session.new) }
    ensures silent { IfOk result (λ v. v ≢ Unread → session.new.told ≡ session.old.told) }
    ensures output { KeepsOutputAndPlace session.old session.new }
    ensures memory { IsOkUnless result Fault.NoMemory }
{
    let size = entry.digest.len();
    let name = entry.name.as_slice();
    let function = Function {
        algorithm: entry.algorithm,
        bytes: size,
    };
    let read = digest_file(host, options, session, ahead, name, function, out)?;
    let all = &out[..];
    Ok(verdict_of(read, &all[..size], entry.digest.as_slice()))
}

// Returns the verdict on a file with this digest, whose entry has another or the same. The time of
// the comparison does not depend on where they differ.
fn verdict_of(read: Read, digest: &[u8], listed: &[u8]) -> Verdict
    ensures whole { (result ≡ Equal) ⊎ (result ≡ Different) → read ≡ Whole }
    ensures equal { result ≡ Equal → digest.now ≡ listed.now }
    ensures different { result ≡ Different → digest.now ≢ listed.now }
    ensures skipped { result ≡ Skipped → read ≡ Missing }
    ensures unread { result ≡ Unread → read ≡ Failed }
    ensures formed { result ≢ Malformed }
    ensures met { NeedsNoOtherOptions result }
    ensures entry { result ≢ Comment }
{
    match read {
        Read::Missing => Verdict::Skipped,
        Read::Failed => Verdict::Unread,
        Read::Whole if constant_time_eq(digest, listed) => Verdict::Equal,
        Read::Whole => Verdict::Different,
    }
}

// Prints the lines of an entry with this verdict, whose file has the digest `found`.
fn print_verdict<K: Sink>(
    alloc: Global,
    options: &Options,
    output: &mut K,
    entry: &Entry,
    verdict: Verdict,
    found: &[u8],
) -> Result<(), Fault>
    ensures whole { OnOk result (Appends (K.held output.old) (K.held output.new)
        (verdict_lines options.now (Ok (entry_value entry.now)) verdict found.now)) }
    ensures part { OnErr result (AcceptsNothingOrPart (K.held output.old) (K.held output.new)
        (verdict_lines options.now (Ok (entry_value entry.now)) verdict found.now)) }
    ensures write { IsErrOf result Fault.WriteFailed → K.failed output.new ≡ true }
{
    let outcome = full_outcome(alloc, options, verdict, entry.digest.as_slice(), found)?;
    print_outcome(alloc, output, entry.name.as_slice(), outcome.as_slice())
}

// Returns what is printed after the name of an entry with this digest and verdict, whose file has
// the digest `found`: nothing if no line is printed.
fn full_outcome(
    alloc: Global,
    options: &Options,
    verdict: Verdict,
    listed: &[u8],
    found: &[u8],
) -> Result<Vec<u8>, Fault>
    ensures text { IfOk result (λ text. text.items
        ≡ full_outcome options.now verdict listed.now found.now) }
    ensures memory { IsOkUnless result Fault.NoMemory }
{
    let mut text = Vec::new(alloc);
    text.extend_from_slice(outcome_of(options.report, verdict))?;
    if digests_are_shown(options, verdict) {
        push_digest(alloc, &mut text, b"  expected: ", listed)?;
        push_digest(alloc, &mut text, b"  found:    ", found)?;
    }
    Ok(text)
}

// Returns whether the digests of an entry with this verdict are printed.
fn digests_are_shown(options: &Options, verdict: Verdict) -> bool
    ensures { result ≡ digests_are_shown options.now verdict }
{
    options.shows_digests
        && matches!(verdict, Verdict::Different)
        && !prints_nothing(options.report)
}

// Appends the line of a digest, with this before it.
fn push_digest(
    alloc: Global,
    text: &mut Vec<u8>,
    title: &[u8],
    digest: &[u8],
) -> Result<(), AllocError>
    ensures { OnOk result
        (text.new.items ≡ text.old.items ++ title.now ++ encode_lower digest.now ++ (10 ∷ [])) }
{
    text.extend_from_slice(title)?;
    text.extend_from_slice(hex::encode(alloc, digest)?.as_bytes())?;
    text.push(b'\n').map_err(|_| AllocError)
}

// Returns what is printed after the name of an entry with this verdict in its line: nothing if that
// is not printed.
fn outcome_of(report: Report, verdict: Verdict) -> &'static [u8]
    ensures { result.now ≡ outcome report verdict }
{
    match (report, verdict) {
        (Report::Each | Report::Warnings, Verdict::Equal) => b": OK\n",
        (Report::Nothing, _) => b"",
        (_, Verdict::Different) => b": FAILED\n",
        (_, Verdict::Unread) => b": FAILED open or read\n",
        _ => b"",
    }
}

// Prints a name, escaped if it has a newline, and the outcome. No outcome prints nothing.
fn print_outcome<K: Sink>(
    alloc: Global,
    output: &mut K,
    name: &[u8],
    outcome: &[u8],
) -> Result<(), Fault>
    ensures whole { OnOk result (Appends (K.held output.old) (K.held output.new)
        (name_with_outcome name.now outcome.now)) }
    ensures part { OnErr result (AcceptsNothingOrPart (K.held output.old) (K.held output.new)
        (name_with_outcome name.now outcome.now)) }
    ensures write { IsErrOf result Fault.WriteFailed → K.failed output.new ≡ true }
{
    let mut line = Vec::new(alloc);
    if outcome.is_empty() {
        return Ok(());
    }
    if name.contains(&b'\n') {
        line.extend_from_slice(b"\\")?;
        push_escaped(&mut line, name)?;
    } else {
        line.extend_from_slice(name)?;
    }
    line.extend_from_slice(outcome)?;
    put(output, line.as_slice())?;
    Ok(())
}

// Prints the last messages of a manifest of this name, and returns whether it holds: that a read
// failed, or what its lines need, and how many came to what.
pub(crate) fn end_manifest<E: Sink>(
    program: &Program,
    options: &Options,
    messages: &mut E,
    name: &[u8],
    found: Option<Counts>,
) -> Result<bool, Fault>
    ensures told { IfOk result
        (λ holds. TellsManifestEnd program.now.name.items options.now name.now found
        holds (SinkAcceptsOrFails (E.failed messages.old) (E.failed messages.new)
        (E.held messages.old)
        (E.held messages.new))) }
    ensures memory { IsOkUnless result Fault.NoMemory }
{
    let Some(counts) = found else {
        warn_of_read(program, messages, name)?;
        return Ok(false);
    };
    report(program, options, messages, name, &counts)?;
    Ok(counts.holds(options.is_strict))
}

// Prints the messages of a manifest that was read: what its lines need, and how many came to what.
fn report<E: Sink>(
    program: &Program,
    options: &Options,
    messages: &mut E,
    name: &[u8],
    counts: &Counts,
) -> Result<(), Fault>
    ensures told { OnOk result (SinkAcceptsOrFails (E.failed messages.old) (E.failed messages.new)
        (E.held messages.old) (E.held messages.new)
        (report_text program.now.name.items name.now options.now counts.now)) }
    ensures memory { IsOkUnless result Fault.NoMemory }
{
    if counts.has_no_entry() {
        warn_of_no_entry(program, messages, name)?;
        return Ok(());
    }
    if prints_nothing(options.report) {
        return Ok(());
    }
    warn_of_needs(program, messages, name, counts.unmet, counts.lacks)?;
    warn_of_counts(program, counts, messages)?;
    warn_if_none(program, options, messages, name, counts)?;
    Ok(())
}

// Prints the message that no file was verified, if files that do not exist are ignored.
fn warn_if_none<E: Sink>(
    program: &Program,
    options: &Options,
    messages: &mut E,
    name: &[u8],
    counts: &Counts,
) -> Result<(), AllocError>
    ensures { OnOk result (SinkAcceptsOrFails (E.failed messages.old) (E.failed messages.new)
        (E.held messages.old) (E.held messages.new)
        (message_if (options.now.ignores_missing && (counts.now.equal == 0))
        program.now.name.items (VerifiesNone name.now))) }
{
    if !options.ignores_missing || counts.equal != 0 {
        return Ok(());
    }
    warn_of_none(program, messages, name)?;
    Ok(())
}

/// Returns whether messages are not wanted.
pub(crate) fn prints_nothing(report: Report) -> bool
    ensures { result ≡ prints_nothing report }
{
    matches!(report, Report::Nothing)
}

// Prints a warning for each count of lines that failed.
fn warn_of_counts<E: Sink>(
    program: &Program,
    counts: &Counts,
    messages: &mut E,
) -> Result<(), AllocError>
    ensures { OnOk result (SinkAcceptsOrFails (E.failed messages.old) (E.failed messages.new)
        (E.held messages.old) (E.held messages.new)
        (count_warnings program.now.name.items counts.now)) }
{
    warn_of_count(
        program,
        messages,
        counts.malformed,
        b" line is improperly formatted",
        b" lines are improperly formatted",
    )?;
    warn_of_count(
        program,
        messages,
        counts.unmet,
        b" line needs other options",
        b" lines need other options",
    )?;
    warn_of_count(
        program,
        messages,
        counts.unread,
        b" listed file could not be read",
        b" listed files could not be read",
    )?;
    warn_of_count(
        program,
        messages,
        counts.different,
        b" computed checksum did NOT match",
        b" computed checksums did NOT match",
    )?;
    Ok(())
}
