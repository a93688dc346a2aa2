//! A capture that is read once, or one that is kept and read again.
//!
//! Both are read through one type, so that the program has one reader of rows: a second one would cost each record of the first.
ghost use Rattle.std.specs.Prelude.{◌≡◌, IfOk, IfSome, Some};
ghost use Rattle.std.specs.Io.{ReadsAtMost};
ghost use Rattle.program9.specs.Again.{still_to_come};

use std::alloc::{AllocError, Global};
use std::io::{self, Read};

/// As much is kept of a capture that is read once, which is 128 MiB: about nine million records.
const MOST_KEPT: usize = 0x800_0000;

/// So much of a capture is read at a time.
const PIECE: usize = 0x4000;

/// A capture, as it is read.
#[derive(Drop)]
pub enum Again<'t, R: Read + Drop> {
    /// As it comes.
    Opened(R),
    /// Of one that was read to its end, what is still to be read this time.
    Kept(&'t [u8]),
    /// As it comes, and then a text, which begins on a line of its own.
    Followed(Followed<'t, R>),
    /// Of one that was read to its end, the header and some of its lines.
    Cut(Cut<'t>),
    /// As it comes, and what was read is kept.
    Keeping(&'t mut Keeping<R>),
}

/// What is read as it comes, and then a text.
#[derive(Drop)]
pub struct Followed<'t, R: Read + Drop> {
    reader: R,
    text: &'t [u8],
    /// Whether what was read ends in the middle of a line.
    is_inside_line: bool,
}

impl<R: Read + Drop> Read for Again<'_, R> {
    ghost remaining = { still_to_come R.remaining };

    fn read(&mut self, place: &mut [u8]) -> io::Result<usize> {
        match self {
            Again::Opened(reader) => reader.read(place),
            Again::Kept(text) => text.read(place),
            Again::Followed(both) => both.read(place),
            Again::Cut(lines) => lines.read(place),
            Again::Keeping(both) => both.read(place),
        }
    }
}

impl<'t, R: Read + Drop> Followed<'t, R> {
    /// What the reader gives, and then this text, without a byte order mark before it.
    pub fn new(reader: R, text: &'t [u8]) -> Followed<'t, R> {
        Followed {
            reader,
            text: text.strip_prefix(b"\xEF\xBB\xBF").unwrap_or(text),
            is_inside_line: false,
        }
    }

    /// Reads on.
    fn read(&mut self, place: &mut [u8]) -> io::Result<usize>
        ensures { ReadsAtMost result place.new }
    {
        let taken = self.reader.read(place)?;
        if let Some(last) = place.get(..taken).and_then(|taken| taken.last()) {
            self.is_inside_line = *last != b'\n';
            return Ok(taken);
        }
        if self.is_inside_line && !self.text.is_empty() && !place.is_empty() {
            self.is_inside_line = false;
            return b"\n".as_slice().read(place);
        }
        self.text.read(place)
    }
}

/// A header, and then lines that stand somewhere behind it.
#[derive(Drop)]
pub struct Cut<'t> {
    /// What is still to be read of the header.
    header: &'t [u8],
    /// The same of the lines.
    lines: &'t [u8],
}

impl<'t> Cut<'t> {
    /// This header, and then these lines.
    pub fn new(header: &'t [u8], lines: &'t [u8]) -> Cut<'t> {
        Cut { header, lines }
    }

    /// Reads on.
    fn read(&mut self, place: &mut [u8]) -> io::Result<usize>
        ensures { ReadsAtMost result place.new }
    {
        if self.header.is_empty() {
            self.lines.read(place)
        } else {
            self.header.read(place)
        }
    }
}

/// A reader, and what it gave so far.
#[derive(Drop)]
pub struct Keeping<R: Read + Drop> {
    reader: R,
    /// None where it is more than [`MOST_KEPT`], or where memory for it was refused.
    text: Option<Vec<u8>>,
}

impl<R: Read + Drop> Keeping<R> {
    /// A reader that gave nothing yet.
    pub fn new(alloc: Global, reader: R) -> Keeping<R>
        ensures { result.reader ≡ reader }
    {
        Keeping {
            reader,
            text: Some(Vec::new(alloc)),
        }
    }

    /// What it gave so far; an error where that is not kept.
    pub fn text(&self) -> Result<&[u8], AllocError> {
        match &self.text {
            Some(text) => Ok(text.as_slice()),
            None => Err(AllocError),
        }
    }

    /// Reads on to the end, so that the text is whole. It is not kept where it is too long, where the reader fails, or where memory is
    /// refused.
    pub fn read_rest(&mut self) {
        let Some(text) = &mut self.text else {
            return;
        };
        let left = MOST_KEPT.saturating_sub(text.len()) as u64;
        let rest = self.reader.by_ref().take(left + 1).read_to_end(text);
        if rest.is_err() || text.len() > MOST_KEPT {
            self.text = None;
        }
    }
}

impl<R: Read + Drop> Read for Keeping<R> {
    ghost remaining = { λ k. R.remaining k.reader };

    fn read(&mut self, place: &mut [u8]) -> io::Result<usize> {
        let taken = self.reader.read(place)?;
        keep(&mut self.text, &place[..taken]);
        Ok(taken)
    }
}

/// Keeps these bytes too, or gives all memory back where they are too many, or where memory for them is refused.
fn keep(text: &mut Option<Vec<u8>>, bytes: &[u8]) {
    let has_room = match text {
        Some(kept) => {
            bytes.len() <= MOST_KEPT.saturating_sub(kept.len())
                && kept.extend_from_slice(bytes).is_ok()
        }
        None => true,
    };
    if !has_room {
        *text = None;
    }
}

/// A text, to be read from its beginning where another capture of the program is read.
pub fn text_again<R: Read + Drop>(text: &[u8]) -> Again<'_, R>
    ensures { still_to_come R.remaining result ≡ Some text.now }
{
    Again::Kept(text)
}

/// Reads a text to its end, a capture to be read again and again among them. The error is that of the reader, or that memory is refused.
///
/// It reads by a loop of its own, since the library's `read_to_end` first clears all room that it reads into, a byte at a time.
pub fn read_whole<R: Read + Drop>(alloc: Global, reader: R) -> io::Result<Vec<u8>>
    ensures { IfOk result (λ text. IfSome (R.remaining reader) (λ known. text.items ≡ known)) }
{
    let mut reader = reader;
    let mut text = Vec::new(alloc);
    let mut piece = [0; PIECE];
    for _ in 0..u64::MAX {
        match reader.read(&mut piece) {
            Ok(0) => return Ok(text),
            Ok(taken) => text.extend_from_slice(&piece[..taken])?,
            Err(error) if error.kind() == io::ErrorKind::Interrupted => {}
            Err(error) => return Err(error),
        }
    }
    Err(io::Error::from(io::ErrorKind::OutOfMemory))
}
