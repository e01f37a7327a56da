//! The files of the system, by names of any bytes.

ghost use Rattle.std.specs.Prelude.{◌≡◌, ◌⊎◌, ◌||◌, ◌∷◌, [], ℕ, ℤ, List, Option, None, Some};
ghost use Rattle.std.specs.Prelude.{true, false, is_some, is_err, IfErr, IfOk, IfSome, IsErr};
ghost use Rattle.std.specs.Prelude.{encode_utf8, string_bytes};
ghost use Rattle.std.specs.List.{flat_map};
ghost use Rattle.std.specs.Io.{ReadsAtMost};
ghost use Rattle.std.specs.IoError.{error_kind};
ghost use Rattle.std.specs.declared.io.ErrorKind.TheVariants.{OutOfMemory};
ghost use Rattle.std.specs.Io.KnownBytes.{ReadConsumes};
ghost use Rattle.std.specs.declared.io.Error.{Error};
ghost use Rattle.blake2_streams.specs.Devices.{ReadReturns};
ghost use Rattle.b2sum.specs.FilePaths.{character_of, path_of};
ghost use Rattle.b2sum.specs.FileReads.{reader_may_fail_with, number_of, bytes_left_of_reader};

use b2sum_commands::{Disk, OpenFile, Output};
use blake2::streams::{DeviceError, Sink};
use std::alloc::{AllocError, Global};
use std::fs::{File, Files};
use std::io::{self, Read, Stdin, Write};
use std::os::fd::AsRawFd;

/// What the system reads: a file, or standard input.
pub trait Source {
    // The bytes that reads will return from here on, if that is known.
    ghost left: { Self → Option (List ℕ) };

    // A read may return this error.
    ghost fails: { Self → Error → Type 0 };

    // The number by which the system knows it, if that is known.
    ghost number: { Self → Option ℤ };

    /// Reads the next bytes into the front of the buffer, and returns how many, as `io::Read` does.
    fn take(&mut self, buf: &mut [u8]) -> io::Result<usize>
        ensures bound { ReadsAtMost result buf.new }
        ensures bytes { ReadConsumes (left self.old) (left self.new) result buf.new }
        ensures error { IfErr result (fails self.old) };

    /// Returns the number by which the system knows it.
    fn number(&self) -> i32
        ensures { IfSome (number self.now) (λ number. result ≡ number) };
}

// What std reads. Its contracts do not say which errors a read returns.
impl<T: Read + AsRawFd> Source for T {
    ghost use Rattle.std.specs.Prelude.{⊤};

    ghost left = { T.remaining };

    ghost fails = { λ _ _. ⊤ };

    ghost number = { T.raw_fd };

    fn take(&mut self, buf: &mut [u8]) -> io::Result<usize> {
        self.read(buf)
    }

    fn number(&self) -> i32 {
        self.as_raw_fd()
    }
}

/// What opens files by their paths.
pub trait Paths {
    // The bytes of the file of a path, if that is known.
    ghost holds: { Self → List ℕ → Option (List ℕ) };

    // The list of what is in the folder of a path, if that is known.
    ghost lists: { Self → List ℕ → Option (List ℕ) };

    // It may be that the file or the folder of a path cannot be opened, with this error.
    ghost refuses: { Self → List ℕ → Error → Type 0 };

    /// An open file.
    type File: Source + Drop;

    /// Opens the file of this path for reading. The error says why it cannot be opened.
    fn open_path(&self, path: &str) -> io::Result<Self::File>
        ensures refused { IfErr result (refuses self.now path.now) }
        ensures bytes { IfOk result (λ file. IfSome (holds self.now path.now)
            (λ _. Self.File.left file ≡ holds self.now path.now)) };

    /// Opens the file of this path for reading before its turn. The result is `None` if the file
    /// can wait for that, or cannot be opened.
    fn open_path_ahead(&self, alloc: Global, path: &str) -> Option<Self::File>
        ensures { IfSome result (λ file. IfSome (holds self.now path.now)
            (λ _. Self.File.left file ≡ holds self.now path.now)) };

    /// Opens the list of what is in the folder of this path, for reading. The error says why it
    /// cannot be opened.
    fn open_list(&self, alloc: Global, path: &str) -> io::Result<Self::File>
        ensures refused { IfErr result (λ error. refuses self.now path.now error
            ⊎ (error_kind error ≡ OutOfMemory)) }
        ensures bytes { IfOk result (λ file. IfSome (lists self.now path.now)
            (λ _. Self.File.left file ≡ lists self.now path.now)) };
}

// What a path begins with that `open` of `c/b2sum.c` opens only if the file is a small regular one.
// No text of a name begins so, and no file is opened where there is no such `open`.
const AHEAD: &str = "\u{10FF00}";

// What a path begins with that it takes for that of a folder, whose list is read.
const LIST: &str = "\u{10FF01}";

// The files of std. Its contracts do not say what the system answers.
impl<R: Files> Paths for R
where
    R::File: AsRawFd,
{
    ghost use Rattle.std.specs.Prelude.{⊤, None};

    ghost holds = { λ _ _. None };

    ghost lists = { λ _ _. None };

    ghost refuses = { λ _ _ _. ⊤ };

    type File = R::File;

    fn open_path(&self, path: &str) -> io::Result<R::File> {
        File::open(self, path)
    }

    fn open_path_ahead(&self, alloc: Global, path: &str) -> Option<R::File> {
        let marked = marked(alloc, AHEAD, path).ok()?;
        File::open(self, marked.as_str()).ok()
    }

    fn open_list(&self, alloc: Global, path: &str) -> io::Result<R::File> {
        let marked = marked(alloc, LIST, path)?;
        File::open(self, marked.as_str())
    }
}

// Returns the path after a mark.
fn marked(alloc: Global, mark: &str, path: &str) -> Result<String, AllocError> {
    let mut text = String::new(alloc);
    text.push_str(mark)?;
    text.push_str(path)?;
    Ok(text)
}

/// The files of a runtime.
#[derive(Clone, Copy)]
pub struct System<R> {
    /// The runtime.
    pub files: R,
}

/// A file that is open for reading, or standard input.
#[derive(Drop)]
pub enum Reader<F, I> {
    /// A file.
    File(F),
    /// Standard input.
    Input(I),
}

/// An open file by its name, and the error of the read that failed, if one has.
#[derive(Drop)]
pub struct Opened<F, I> {
    reader: Reader<F, I>,
    name: Vec<u8>,
    error: Option<io::Error>,
}

impl<F: Source, I: Source + Drop> Opened<F, I> {
    /// Returns standard input, which has not failed, by the name `-`. The error is that of the
    /// allocator, for the name.
    pub fn input(alloc: Global, input: I) -> Result<Opened<F, I>, AllocError>
        ensures unfailed { IfOk result
            (λ file. ⟦<Opened<F, I> as OpenFile>⟧.failed file ≡ false) }
        ensures named { IfOk result
            (λ file. ⟦<Opened<F, I> as OpenFile>⟧.named file ≡ 45 ∷ []) }
        ensures reader { IfOk result (λ file. bytes_left_of_reader F.left I.left file.reader
            ≡ I.left input) }
    {
        let name = Vec::from_slice(alloc, b"-")?;
        Ok(fresh(Reader::Input(input), name))
    }
}

// Returns an open file by its name, which has not failed.
fn fresh<F, I>(reader: Reader<F, I>, name: Vec<u8>) -> Opened<F, I>
    ensures reader { result.reader ≡ reader }
    ensures name { result.name ≡ name }
    ensures error { result.error ≡ None }
{
    Opened {
        reader,
        name,
        error: None,
    }
}

impl<F: Source, I: Source> OpenFile for Opened<F, I> {
    ghost use Rattle.std.specs.Prelude.{is_some};
    ghost use Rattle.b2sum.specs.FileReads.{number_of, bytes_left_of_reader};

    ghost left = { λ s. bytes_left_of_reader F.left I.left s.reader };

    ghost failed = { λ s. is_some s.error };

    ghost failure = { λ s. s.error };

    ghost descriptor = { λ s. number_of F.number I.number s.reader };

    ghost named = { λ s. s.name.items };

    fn read(&mut self, buf: &mut [u8]) -> Result<usize, DeviceError>
        ensures bound { ReadsAtMost result buf.new }
        ensures fails { is_some self.new.error ≡ (is_some self.old.error || is_err result) }
        ensures name { self.new.name.items ≡ self.old.name.items }

        // It returns the next bytes of the file or of standard input, and none only at the end.
        ensures bytes { ReadReturns (bytes_left_of_reader F.left I.left self.old.reader)
            (bytes_left_of_reader F.left I.left self.new.reader) result buf.new }

        // It keeps the error that the system returned.
        ensures error { IsErr result → IfSome self.new.error
            (reader_may_fail_with F.fails I.fails self.old.reader) }
    {
        let result = match &mut self.reader {
            Reader::File(file) => file.take(buf),
            Reader::Input(input) => input.take(buf),
        };
        match result {
            Ok(count) => Ok(count),
            Err(error) => {
                self.error = Some(error);
                Err(DeviceError)
            }
        }
    }

    fn failed(&self) -> bool {
        self.error.is_some()
    }

    fn last_error(&self) -> io::Error {
        error_or_other(self.error)
    }

    fn number(&self) -> i32 {
        match &self.reader {
            Reader::File(file) => file.number(),
            Reader::Input(input) => input.number(),
        }
    }
}

// Returns the error, if there is one.
fn error_or_other(error: Option<io::Error>) -> io::Error
    ensures { IfSome error (λ e. result ≡ e) }
{
    match error {
        Some(error) => error,
        None => io::Error::from(io::ErrorKind::Other),
    }
}

// Keeps the memory of the process from others. It is a separate function in the text, so that
// `c/b2sum.c` can do it: nothing here can.
#[inline(never)]
fn hide_memory() {}

// Shows the progress of reads. `c/b2sum.c` does it too.
#[inline(never)]
fn show_progress() {}

impl<R: Paths> Disk for System<R> {
    ghost use Rattle.std.specs.Prelude.{⊤, ◌≡◌, ◌⊎◌, true};
    ghost use Rattle.std.specs.IoError.{error_kind};
    ghost use Rattle.std.specs.declared.io.ErrorKind.TheVariants.{OutOfMemory};
    ghost use Rattle.b2sum.specs.FilePaths.{path_of};

    // Opening a file takes memory for its path and its name.
    ghost files = { λ s. record {
      holds = λ name. R.holds s.files (path_of name);
      lists = λ name. R.lists s.files (path_of name);
      refuses = λ name error.
          R.refuses s.files (path_of name) error ⊎ (error_kind error ≡ OutOfMemory);
      describes = λ _ _. ⊤;
    } };

    ghost hides = { λ _. true };

    type File = Opened<R::File, Stdin>;

    fn hide_memory(&self) -> bool {
        hide_memory();
        true
    }

    fn show_progress(&self) {
        show_progress();
    }

    fn open(&self, alloc: Global, name: &[u8]) -> io::Result<Opened<R::File, Stdin>> {
        let path = text_of(alloc, name)?;
        let name = Vec::from_slice(alloc, name)?;
        let file = self.files.open_path(path.as_str())?;
        Ok(fresh(Reader::File(file), name))
    }

    fn open_ahead(&self, alloc: Global, name: &[u8]) -> Option<Opened<R::File, Stdin>> {
        let path = text_of(alloc, name).ok()?;
        let name = Vec::from_slice(alloc, name).ok()?;
        let file = self.files.open_path_ahead(alloc, path.as_str())?;
        Some(fresh(Reader::File(file), name))
    }

    fn open_folder(&self, alloc: Global, name: &[u8]) -> io::Result<Opened<R::File, Stdin>> {
        let path = text_of(alloc, name)?;
        let name = Vec::from_slice(alloc, name)?;
        let list = self.files.open_list(alloc, path.as_str())?;
        Ok(fresh(Reader::File(list), name))
    }

    fn reason_of(&self, alloc: Global, error: io::Error) -> Result<String, AllocError> {
        reason_of(alloc, error)
    }
}

// Returns the text of an error, without the number that std prints after it.
fn reason_of(alloc: Global, error: io::Error) -> Result<String, AllocError> {
    let text = format!(in alloc; "{error}").map_err(|_| AllocError)?;
    let Some((reason, _)) = text.split_once(" (os error ") else {
        return Ok(text);
    };
    let mut short = String::new(alloc);
    short.push_str(reason)?;
    Ok(short)
}

// Returns the text that a name is opened by. `open` of `c/b2sum.c` reads it: a name that is UTF-8
// stands as it is, and in another each byte from 0x80 on is the character U+10FF00 more. A name
// with the first byte of such characters is one of the others too.
fn text_of(alloc: Global, name: &[u8]) -> Result<String, AllocError>
    ensures { IfOk result (λ text. string_bytes text ≡ path_of name.now) }
{
    if name.contains(&0xF4) {
        return escaped(alloc, name);
    }
    let Ok(plain) = std::str::from_utf8(name) else {
        return escaped(alloc, name);
    };
    let mut text = String::new(alloc);
    text.push_str(plain)?;
    Ok(text)
}

// Returns the characters of the bytes of a name.
fn escaped(alloc: Global, name: &[u8]) -> Result<String, AllocError>
    ensures { IfOk result
        (λ text. string_bytes text ≡ flat_map (λ b. encode_utf8 (character_of b)) name.now) }
{
    let mut text = String::new(alloc);
    for byte in name {
        text.push(character_of(*byte))?;
    }
    Ok(text)
}

// Returns the character of a byte: the byte itself if it is ASCII.
fn character_of(byte: u8) -> char
    ensures { result ≡ character_of byte }
{
    if byte < 0x80 {
        return byte as char;
    }
    match char::from_u32(0x10_FF00 + u32::from(byte)) {
        Some(character) => character,
        None => char::REPLACEMENT_CHARACTER,
    }
}

/// A writer, and the error of the write that failed, if one has.
#[derive(Drop)]
pub struct Writer<W> {
    inner: W,
    error: Option<io::Error>,
}

impl<W: Write> Writer<W> {
    /// Returns a sink into the writer, which has not failed.
    pub fn new(inner: W) -> Writer<W>
        ensures { ⟦<Writer<W> as Sink>⟧.failed result ≡ false }
    {
        Writer { inner, error: None }
    }
}

impl<W: Write> Sink for Writer<W> {
    ghost use Rattle.std.specs.Prelude.{is_some};

    ghost held = { λ s. W.contents s.inner };

    ghost failed = { λ s. is_some s.error };

    fn write(&mut self, buf: &[u8]) -> Result<usize, DeviceError> {
        match self.inner.write(buf) {
            Ok(0) => {
                if !buf.is_empty() {
                    self.error = Some(io::Error::from(io::ErrorKind::WriteZero));
                }
                Ok(0)
            }
            Ok(count) => Ok(count),
            Err(error) => {
                self.error = Some(error);
                Err(DeviceError)
            }
        }
    }

    fn failed(&self) -> bool {
        self.error.is_some()
    }
}

impl<W: Write> Output for Writer<W> {
    ghost failure = { λ s. s.error };

    fn last_error(&self) -> io::Error {
        error_or_other(self.error)
    }
}
