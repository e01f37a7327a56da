//! Files that are read before their turn, so that eight of them can be hashed at once.

ghost use Rattle.std.specs.Prelude.{◌≡◌, ◌+◌, ◌-◌, ◌<◌, ◌≤◌, ℕ, List, [], length, take, drop, map};
ghost use Rattle.std.specs.Prelude.{IfOk, IfSome, None, true, false, ◌≢◌, slice_index_or};
ghost use Rattle.std.specs.List.{All, Any};
ghost use Rattle.blake2_streams.specs.Streams.{ReturnsAllBytes};
ghost use Rattle.b2sum_commands.specs.declared.ahead.Part.{Part};
ghost use Rattle.b2sum_commands.specs.ReadAhead.{
  AreDigestsOfFiles,
  HashesInLanes,
  PartHasFileText,
  IsDigestOfFile,
  IsDigestFor,
};
ghost use Rattle.b2sum_commands.specs.ReadAhead.{FileHasText, bytes_of_part};

use crate::devices::{Disk, OpenFile};
use crate::hashes::{Function, Hashes};
use crate::options::Options;
use crate::session::Host;
use crate::sums::is_standard_input;
use b2sum_lines::Algorithm;
use blake2_digest::tell_bytes;
use std::alloc::{AllocError, Global};

// The most files of a group.
const MOST_FILES: usize = 64;

// A group of a multiple of LANES files that have so many bytes is large enough.
const ENOUGH_BYTES: usize = 1 << 21;

// The memory of a group, in bytes: at first, and at most.
const FIRST_ROOM_BYTES: usize = 1 << 16;

const MOST_ROOM_BYTES: usize = 1 << 22;

// So many files are hashed at once.
const LANES: usize = 8;

// To read a file of fewer bytes ahead takes longer than hashing several at once saves. After a
// group of such files, or of none, so many at most are read in their turn.
const WORTH_BYTES: usize = 1 << 11;

const MOST_PAUSE: usize = 1 << 10;

/// The digest of a file that was read before its turn.
#[derive(Drop)]
pub(crate) struct Found {
    name: Vec<u8>,
    function: Function,
    digest: [u8; 64],
}

/// A part of the memory of a group, bytes `start` to before `end`: all of what a file has.
#[derive(Drop)]
pub(crate) struct Part {
    name: Vec<u8>,
    start: usize,
    end: usize,
}

// What is read of a group.
#[derive(Drop)]
struct Group {
    parts: Vec<Part>,
    // The file after it can't be read ahead.
    is_cut: bool,
    // The memory has no room for that file.
    lacks_room: bool,
}

/// The digests of the files of a group, which is read when the turn of its first comes.
#[derive(Drop)]
pub(crate) struct Ahead {
    found: Vec<Found>,
    // The places in the list of names after the file whose turn it is, after the group, and where
    // the next group may begin.
    turn: usize,
    end: usize,
    resume: usize,
    // The most files of the next group, and the bytes of the memory for it.
    width: usize,
    room_bytes: usize,
    // How many files after the last group are read in their turn.
    pause: usize,
    room: Vec<u8>,
}

impl Ahead {
    /// Returns no digests, at the first of a list of names.
    pub(crate) fn new(alloc: Global) -> Ahead
        ensures { result.found.items ≡ [] }
    {
        Ahead {
            found: Vec::new(alloc),
            turn: 0,
            end: 0,
            resume: 0,
            width: 1,
            room_bytes: FIRST_ROOM_BYTES,
            pause: 0,
            room: Vec::new(alloc),
        }
    }
}

/// Returns the most files of the next group.
pub(crate) fn width(ahead: &Ahead) -> usize {
    ahead.width
}

/// Returns the digest of the file of this name, by this function at its front, if the file was read
/// ahead.
pub(crate) fn digest_ahead<H: Hashes, D: Disk>(
    host: &Host<H, D>,
    options: &Options,
    ahead: &Ahead,
    name: &[u8],
    function: Function,
) -> Option<[u8; 64]>
    requires { AreDigestsOfFiles (D.files host.now.disk) H.hashing options.now
        ahead.now.found.items }
    ensures right { IfSome result
        (IsDigestOfFile (D.files host.now.disk) H.hashing options.now function name.now) }
    ensures none { result ≡ None → HashesInLanes function.algorithm → ahead.now.turn ≤ ahead.now.end
        → All (λ x. ¬ IsDigestFor function name.now x) ahead.now.found.items }
{
    if ahead.turn > ahead.end {
        return None;
    }
    for found in ahead.found.as_slice() {
        if is_of(found, function, name) {
            return Some(found.digest);
        }
    }
    None
}

// Returns whether a digest is that of the file of this name, by this function.
fn is_of(found: &Found, function: Function, name: &[u8]) -> bool
    ensures right { result ≡ true → IsDigestFor function name.now found.now }
    ensures wrong { result ≡ false → HashesInLanes function.algorithm
        → ¬ IsDigestFor function name.now found.now }
{
    if !are_same(found.function, function) {
        return false;
    }
    found.name.as_slice() == name
}

/// Returns whether both are the same function, by which several texts are hashed in lanes.
pub(crate) fn are_same(a: Function, b: Function) -> bool
    ensures same { result ≡ true → a ≡ b }
    ensures other { result ≡ false → HashesInLanes b.algorithm → a ≢ b }
{
    a.bytes == b.bytes
        && matches!(
            (a.algorithm, b.algorithm),
            (Algorithm::Blake2b, Algorithm::Blake2b) | (Algorithm::Blake2s, Algorithm::Blake2s)
        )
}

/// Goes on to the next of these names. If it is in no group yet, the next group begins with it: its
/// files are read, as far as each can be read ahead, and hashed. A group has more and more files,
/// so that the first digests come early.
pub(crate) fn go_on<H: Hashes, D: Disk>(
    host: &Host<H, D>,
    options: &Options,
    names: &[Vec<u8>],
    ahead: &mut Ahead,
)
    requires { AreDigestsOfFiles (D.files host.now.disk) H.hashing options.now
        ahead.old.found.items }
    ensures { AreDigestsOfFiles (D.files host.now.disk) H.hashing options.now
        ahead.new.found.items }
{
    let turn = ahead.turn;
    if !begins_group(options, ahead) {
        return;
    }
    let function = Function {
        algorithm: options.algorithm,
        bytes: options.bytes,
    };
    if let Some(rest) = names.get(turn..) {
        // Without memory nothing is read ahead.
        let _ = read_group(host, options, function, rest, ahead);
    }
}

/// Goes on to the next file. Returns whether a group begins with it: none does under a key, whose
/// states are wiped one by one, and none while progress is shown.
pub(crate) fn begins_group(options: &Options, ahead: &mut Ahead) -> bool
    ensures { ahead.new.found.items ≡ ahead.old.found.items }
{
    let turn = ahead.turn;
    ahead.turn = turn.saturating_add(1);
    turn >= ahead.resume && options.key.is_empty() && !options.shows_progress
}

/// Reads and hashes the files of the first of these names by this function, unless there are too
/// few for all lanes. The first digest is that of the file whose turn it is. If one has no room,
/// there is more memory for the next group.
pub(crate) fn read_group<H: Hashes, D: Disk>(
    host: &Host<H, D>,
    options: &Options,
    function: Function,
    names: &[Vec<u8>],
    ahead: &mut Ahead,
) -> Result<(), AllocError>
    requires { AreDigestsOfFiles (D.files host.now.disk) H.hashing options.now
        ahead.old.found.items }
    ensures { AreDigestsOfFiles (D.files host.now.disk) H.hashing options.now
        ahead.new.found.items }
{
    let most = ahead.width;
    ahead.width = (2 * most.min(MOST_FILES)).min(MOST_FILES);
    ahead.end = 0;
    ahead.resume = ahead.turn;
    ahead.found.clear();
    if most.min(names.len()) < LANES || !has_lanes(function) {
        return Ok(());
    }
    if ahead.room.len() < ahead.room_bytes {
        ahead.room = Vec::new(host.program.alloc);
        ahead.room = vec![in host.program.alloc; 0u8; ahead.room_bytes.min(MOST_ROOM_BYTES)]?;
    }
    let room = ahead.room.as_mut_slice();
    let group = hash_files(host, options, function, names, most, room, &mut ahead.found)?;
    note_group(&group, ahead);
    Ok(())
}

// Notes when the next group begins, and how much memory it has.
fn note_group(group: &Group, ahead: &mut Ahead)
    ensures { ahead.new.found.items ≡ ahead.old.found.items }
{
    let count = group.parts.len();
    let bytes = bytes_of(group.parts.as_slice());
    let was_worthless = if count == 0 {
        !group.lacks_room
    } else {
        bytes / WORTH_BYTES < count
    };
    ahead.pause = pause_after(ahead.pause, was_worthless);
    ahead.room_bytes = room_after(ahead.room_bytes, group.lacks_room);
    ahead.end = ahead.turn.saturating_add(count).saturating_sub(1);
    // The file after the group is not tried again.
    let cut = usize::from(group.is_cut);
    ahead.resume = ahead.end.saturating_add(cut).saturating_add(ahead.pause);
}

// Returns how many bytes the parts have.
fn bytes_of(parts: &[Part]) -> usize {
    let mut bytes = 0usize;
    for part in parts {
        bytes = bytes.saturating_add(part.end.saturating_sub(part.start));
    }
    bytes
}

// Returns the bytes of the memory for the group after one that had so many, which were too few for
// it or not.
fn room_after(bytes: usize, lacks_room: bool) -> usize {
    let twice = 2 * bytes.min(MOST_ROOM_BYTES);
    if lacks_room {
        twice.min(MOST_ROOM_BYTES)
    } else {
        bytes
    }
}

// Returns how many files are read in their turn after a group, after so many after the group
// before, and whether the group was not worth it.
fn pause_after(pause: usize, was_worthless: bool) -> usize {
    let twice = 2 * pause.min(MOST_PAUSE) + MOST_FILES;
    if was_worthless {
        twice.min(MOST_PAUSE)
    } else {
        0
    }
}

// Returns whether several texts are hashed in lanes by this function.
fn has_lanes(function: Function) -> bool {
    matches!(function.algorithm, Algorithm::Blake2b | Algorithm::Blake2s)
}

// Reads and hashes the files of the first of these names, at most `most`. Returns what it has read.
fn hash_files<H: Hashes, D: Disk>(
    host: &Host<H, D>,
    options: &Options,
    function: Function,
    names: &[Vec<u8>],
    most: usize,
    room: &mut [u8],
    found: &mut Vec<Found>,
) -> Result<Group, AllocError>
    requires { AreDigestsOfFiles (D.files host.now.disk) H.hashing options.now found.old.items }
    ensures found { AreDigestsOfFiles (D.files host.now.disk) H.hashing options.now
        found.new.items }
    ensures all { IfOk result (λ group. H.hashes_several options.now function
        (map (bytes_of_part room.new) group.parts.items)
        → All (λ p. Any (IsDigestFor function p.name.items) found.new.items) group.parts.items) }
{
    let mut group = read_parts(host, names, most, room)?;
    // The longest come first. The order is no part of the digests.
    let _ = group
        .parts
        .sort_by_key(|part| part.start.wrapping_sub(part.end));
    let parts = group.parts.as_slice();
    hash_parts(host, options, function, parts, room, found)?;
    Ok(group)
}

// Reads the files of names, one after the other, until one can't be read ahead, or they are enough,
// or `most`.
fn read_parts<H, D: Disk>(
    host: &Host<H, D>,
    names: &[Vec<u8>],
    most: usize,
    room: &mut [u8],
) -> Result<Group, AllocError>
    ensures { IfOk result (λ group. All (PartHasFileText (D.files host.now.disk) room.new
        (length room.new)) group.parts.items) }
{
    let mut parts = Vec::new(host.program.alloc);
    let mut is_cut = false;
    let mut lacks_room = false;
    let mut at = 0;
    for name in names {
        if parts.len() >= most || is_enough(parts.len(), at) {
            break;
        }
        let start = at;
        let Some(end) = read_part(host, name.as_slice(), start, room, &mut lacks_room) else {
            is_cut = true;
            break;
        };
        let part = Part {
            name: Vec::from_slice(host.program.alloc, name.as_slice())?,
            start,
            end,
        };
        parts.push(part).map_err(|_| AllocError)?;
        at = end;
    }
    Ok(Group {
        parts,
        is_cut,
        lacks_room,
    })
}

// Returns whether a group of so many files, with so many bytes, is large enough.
fn is_enough(files: usize, bytes: usize) -> bool {
    files % LANES == 0 && bytes >= ENOUGH_BYTES
}

// Reads all of the file of this name, if it can be read ahead, into the memory from byte `at` on.
// Returns the place after it. What is before it stays. `lacks_room` becomes whether there is no
// room for it.
fn read_part<H, D: Disk>(
    host: &Host<H, D>,
    name: &[u8],
    at: usize,
    room: &mut [u8],
    lacks_room: &mut bool,
) -> Option<usize>
    requires { at ≤ length room.old }
    ensures room { length room.new ≡ length room.old }
    ensures before { take at room.new ≡ take at room.old }
    ensures text { IfSome result (λ end. (at ≤ end) × (end ≤ length room.new)
        × FileHasText (D.files host.now.disk) name.now (take (end - at) (drop at room.new))) }
{
    if is_standard_input(name) {
        return None;
    }
    let mut file = host.disk.open_ahead(host.program.alloc, name)?;
    let count = read_to_end(&mut file, &mut room[at..])?;
    *lacks_room = count == room.len() - at;
    if *lacks_room {
        return None;
    }
    Some(at + count)
}

// Reads all that the source returns to the front of `out`, and returns how many bytes, or all of
// the room if there is none for one byte more. The result is `None` if a read fails.
fn read_to_end<S: OpenFile>(source: &mut S, out: &mut [u8]) -> Option<usize>
    ensures room { length out.new ≡ length out.old }
    ensures most { IfSome result (λ count. count ≤ length out.new) }
    ensures whole { IfSome result (λ count. count < length out.new
        → ReturnsAllBytes (S.left source.old) (S.left source.new) (take count out.new)) }
{
    let mut count = 0;
    'reading: while count < out.len() {
        let Ok(more) = source.read(&mut out[count..]) else {
            return None;
        };
        if more == 0 {
            tell_bytes(&out[..count]);
            return Some(count);
        }
        count += more;
    }
    Some(count)
}

// Hashes parts of the memory in lanes, and adds their digests.
fn hash_parts<H: Hashes, D: Disk>(
    host: &Host<H, D>,
    options: &Options,
    function: Function,
    parts: &[Part],
    room: &[u8],
    found: &mut Vec<Found>,
) -> Result<(), AllocError>
    requires parts { All (PartHasFileText (D.files host.now.disk) room.now (length room.now))
        parts.now }
    requires found { AreDigestsOfFiles (D.files host.now.disk) H.hashing options.now
        found.old.items }
    ensures found { AreDigestsOfFiles (D.files host.now.disk) H.hashing options.now
        found.new.items }
    ensures all { IfOk result (λ _. H.hashes_several options.now function
        (map (bytes_of_part room.now) parts.now)
        → All (λ p. Any (IsDigestFor function p.name.items) found.new.items) parts.now) }
{
    let alloc = host.program.alloc;
    let texts = texts_of(alloc, parts, room)?;
    let mut digests = vec![in alloc; [0u8; 64]; parts.len()]?;
    let are_hashed = host.hashes.digest_several(
        options,
        function,
        texts.as_slice(),
        digests.as_mut_slice(),
    );
    if !are_hashed {
        return Ok(());
    }
    add_digests(host, options, function, parts, digests.as_slice(), found)
}

// Adds these digests of the files of parts.
fn add_digests<H: Hashes, D: Disk>(
    host: &Host<H, D>,
    options: &Options,
    function: Function,
    parts: &[Part],
    digests: &[[u8; 64]],
    found: &mut Vec<Found>,
) -> Result<(), AllocError>
    requires number { length digests.now ≡ length parts.now }
    requires digests { (j : ℕ) (p : Part) → j < length parts.now
        → IsDigestOfFile (D.files host.now.disk) H.hashing options.now function
        (slice_index_or parts.now j p).name.items (slice_index_or digests.now j []) }
    requires found { AreDigestsOfFiles (D.files host.now.disk) H.hashing options.now
        found.old.items }
    ensures found { AreDigestsOfFiles (D.files host.now.disk) H.hashing options.now
        found.new.items }
    ensures all { IfOk result
        (λ _. All (λ p. Any (IsDigestFor function p.name.items) found.new.items)
        parts.now) }
{
    for j in 0..parts.len() {
        let digest = Found {
            name: Vec::from_slice(host.program.alloc, parts[j].name.as_slice())?,
            function,
            digest: digests[j],
        };
        found.push(digest).map_err(|_| AllocError)?;
    }
    Ok(())
}

// Returns the bytes of each part.
fn texts_of<'a>(alloc: Global, parts: &[Part], room: &'a [u8]) -> Result<Vec<&'a [u8]>, AllocError>
    requires { All (λ p. (p.start ≤ p.end) × (p.end ≤ length room.now)) parts.now }
    ensures { IfOk result
        (λ texts. map (λ t. t.now) texts.items ≡ map (bytes_of_part room.now) parts.now) }
{
    let mut texts = Vec::new(alloc);
    for part in parts {
        texts.push(text_of(part, room)).map_err(|_| AllocError)?;
    }
    Ok(texts)
}

// Returns the bytes of a part.
fn text_of<'a>(part: &Part, room: &'a [u8]) -> &'a [u8]
    requires { (part.now.start ≤ part.now.end) × (part.now.end ≤ length room.now) }
    ensures { result.now ≡ bytes_of_part room.now part.now }
{
    &room[part.start..part.end]
}
