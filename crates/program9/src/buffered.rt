//! A writer behind a buffer that tries no failed write again, and writes nothing when it is dropped.
ghost use Rattle.std.specs.Prelude.{Some, None, ◌≡◌, ◌≢◌, ◌+◌, ◌-◌, ◌<◌, ◌≤◌, ℕ, Ok, true, slice_index, take, vec_capacity, [], drop, IfErr, IfOk, OnErr, OnOk, vec_len};
ghost use Rattle.std.specs.IoError.{error_kind};
ghost use Rattle.program9.specs.Output.{held_contents};

use crate::held::Held;
use report9::write_some;
use std::alloc::Global;
use std::io::{self, Write};

/// How many bytes a buffer holds.
const CAPACITY: usize = 8192;

/// Holds bytes back until there are 8,192 of them, or until [`flush`](Write::flush). A line-buffered one hands on each line as soon
/// as it is complete, by itself, and flushes it. The bytes that are held count as contents. A write that fails, is interrupted or
/// takes no byte is an error, and is not tried again: each later write and flush is that error. What it leaves unwritten is still
/// held. A buffer that is dropped writes nothing, so it is to be flushed.
#[derive(Drop)]
pub struct Buffered<W: Write + Drop> {
    to: W,
    held: Held,
}

impl<W: Write + Drop> Buffered<W> {
    ghost use Rattle.std.specs.Io.KnownBytes.{Appends, Keeps, WriteAppends};
    ghost use Rattle.std.specs.Io.{WritesAtMost};
    ghost use Rattle.program9.specs.Output.{contents_behind};
    ghost use Rattle.program9.specs.WholeLines.{HoldsBack};

    /// A buffer that holds nothing, before this writer. The writer comes back where memory is refused.
    pub fn new(alloc: Global, to: W, line_buffered: bool) -> Result<Buffered<W>, W>
        ensures empty { IfOk result (λ b. b.held.bytes.items ≡ []) }
        ensures behind { IfOk result (λ b. b.to ≡ to) }
        ensures line_buffered { IfOk result (λ b. b.held.line_buffered ≡ line_buffered) }
        ensures refused { IfErr result (λ w. w ≡ to) }
    {
        match Held::new(alloc, CAPACITY, line_buffered) {
            Ok(held) => Ok(Buffered { to, held }),
            Err(_) => Err(to),
        }
    }

    /// The writer, without the bytes that are still held.
    pub fn into_writer(self) -> W
        ensures { W.contents result ≡ contents_behind W.contents self }
    {
        let Buffered { to, .. } = self;
        to
    }

    /// The kind of the error with which a write or a flush failed, where one did.
    pub(crate) fn failed(&self) -> Option<io::ErrorKind>
        ensures { result ≡ self.now.held.failed }
    {
        self.held.failed
    }

    /// Hands on what is held. After an error, what was not taken is still held.
    fn hand_on(&mut self) -> io::Result<()>
        ensures kept { Keeps (held_contents W.contents self.old) (held_contents W.contents self.new) }
        ensures empty { OnOk result (self.new.held.bytes.items ≡ []) }
        ensures noted { IfErr result (λ e. self.new.held.failed ≡ Some (error_kind e)) }
        ensures line_buffered { self.new.held.line_buffered ≡ self.old.held.line_buffered }
    {
        let (sent, result) = write_some(&mut self.to, self.held.bytes.as_slice());
        remove_front(&mut self.held.bytes, sent);
        if let Err(e) = &result {
            self.held.failed = Some(e.kind());
        }
        result
    }

    /// Hands on what is held, and flushes.
    fn pass_on(&mut self) -> io::Result<()>
        ensures kept { Keeps (held_contents W.contents self.old) (held_contents W.contents self.new) }
        ensures empty { OnOk result (self.new.held.bytes.items ≡ []) }
        ensures noted { IfErr result (λ e. self.new.held.failed ≡ Some (error_kind e)) }
        ensures line_buffered { self.new.held.line_buffered ≡ self.old.held.line_buffered }
    {
        self.hand_on()?;
        let flushed = self.to.flush();
        if let Err(e) = &flushed {
            self.held.failed = Some(e.kind());
        }
        flushed
    }

    /// Holds the end of a line, and hands the line on. Where that fails, it is the error of the next write or flush.
    fn end_line(&mut self, end: &[u8]) -> io::Result<()>
        ensures held { OnOk result (Appends (held_contents W.contents self.old) (held_contents W.contents self.new) end.now) }
        ensures refused { OnErr result (Keeps (held_contents W.contents self.old) (held_contents W.contents self.new)) }
        ensures line_buffered { self.new.held.line_buffered ≡ self.old.held.line_buffered }
    {
        // Until the line is handed on, it counts as one that could not be.
        self.held.failed = Some(io::ErrorKind::Other);
        self.held.bytes.extend_from_slice(end)?;
        if self.pass_on().is_ok() {
            self.held.failed = None;
        }
        Ok(())
    }

    /// Holds as many of these bytes as there is room for, and answers how many. A line-buffered writer holds no more than up to the
    /// end of a line, which it hands on. Nothing else is handed on while there is room.
    fn hold(&mut self, bytes: &[u8]) -> io::Result<usize>
        ensures bound { WritesAtMost result bytes.now }
        ensures bytes { WriteAppends (held_contents W.contents self.old) (held_contents W.contents self.new) result bytes.now }
        ensures held_back { (n : ℕ) → result ≡ Ok n → vec_len self.old.held.bytes < vec_capacity self.old.held.bytes
            → HoldsBack self.old.held.line_buffered (take n bytes.now) → self.new.to ≡ self.old.to }
        ensures none_failed { OnOk result (self.old.held.failed ≡ None) }
        ensures not_again { self.old.held.failed ≢ None → self.new ≡ self.old }
        ensures one_line { (n k : ℕ) → result ≡ Ok n → self.old.held.line_buffered ≡ true → k + 1 < n → slice_index bytes.now k ≢ 0x0A }
    {
        self.held.earlier_error()?;
        if self.held.bytes.len() >= self.held.bytes.capacity() {
            self.hand_on()?;
        }
        let room = self.held.bytes.capacity() - self.held.bytes.len();
        let taken = &bytes[..room.min(bytes.len())];
        match self.held.line_end(taken) {
            Some(at) => {
                self.end_line(&taken[..at + 1])?;
                Ok(at + 1)
            }
            None => {
                self.held.bytes.extend_from_slice(taken)?;
                Ok(taken.len())
            }
        }
    }

    /// Hands on what is held, and flushes, unless a write failed before.
    fn finish(&mut self) -> io::Result<()>
        ensures kept { Keeps (held_contents W.contents self.old) (held_contents W.contents self.new) }
        ensures empty { OnOk result (self.new.held.bytes.items ≡ []) }
        ensures none_failed { OnOk result (self.old.held.failed ≡ None) }
        ensures noted { IfErr result (λ e. self.new.held.failed ≡ Some (error_kind e)) }
        ensures not_again { self.old.held.failed ≢ None → self.new ≡ self.old }
    {
        self.held.earlier_error()?;
        self.pass_on()
    }
}

impl<W: Write + Drop> Write for Buffered<W> {
    ghost use Rattle.std.specs.Io.KnownBytes.{Keeps};
    ghost use Rattle.program9.specs.Output.{held_contents};

    ghost contents = { held_contents W.contents };

    fn write(&mut self, bytes: &[u8]) -> io::Result<usize> {
        self.hold(bytes)
    }

    fn flush(&mut self) -> io::Result<()>
        ensures bytes { Keeps (held_contents W.contents self.old) (held_contents W.contents self.new) }
        ensures empty { OnOk result (self.new.held.bytes.items ≡ []) }
    {
        self.finish()
    }
}

/// Takes the first n bytes out.
fn remove_front(held: &mut Vec<u8>, n: usize)
    requires { n ≤ vec_len held.old }
    ensures items { held.new.items ≡ drop n held.old.items }
{
    let len = held.len();
    held.as_mut_slice().copy_within(n..len, 0);
    held.truncate(len - n);
}
