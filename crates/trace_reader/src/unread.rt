// The bytes of a stream that are not read yet.

ghost use Rattle.std.specs.Prelude.{◌≡◌, ◌≤◌, ◌<◌, ◌+◌, ◌++◌, [], None, true, length, take, drop, OnOk, OnErr, IfSome, IfNone, IsTrue};
ghost use Rattle.trace_reader.specs.Form.{split_once};
ghost use Rattle.trace_reader.specs.inner.Plain.{begins_with_digit};
ghost use Rattle.trace_reader.specs.inner.Reader.{IsFirstLine, Passes, StopsAtLine, is_skipped};
ghost use Rattle.trace_reader.specs.Reading.{first_line};
ghost use Rattle.tsl_value.specs.declared.limits.TheConstants.{MOST_TRACE_BYTES};

use crate::form::place_of;
use crate::line::is_skipped;
use std::alloc::Global;
use std::marker::Model;
use tsl_value::bytes::Bytes;
use tsl_value::memory::NoMemory;

/// Bytes that are appended at the end and taken from the front.
#[derive(Drop)]
pub(crate) struct Unread {
    bytes: Vec<u8>,
    // Those before this place were taken.
    start: usize,
    // No line ends between `start` and this place.
    searched: usize,
}

impl Model for Unread {
    ghost use Rattle.std.specs.Prelude.{◌≡◌, ◌≤◌, ◌-◌, List, ℕ, None, drop, take, length};
    ghost use Rattle.trace_reader.specs.Form.{split_once};

    ghost Value = { List ℕ };

    ghost view = { λ u. drop u.start u.bytes.items };

    ghost invariant = { λ u. (u.start ≤ u.searched)
        × (u.searched ≤ length u.bytes.items)
        × (split_once 10 (take (u.searched - u.start) (drop u.start u.bytes.items)) ≡ None) };
}

impl Unread {
    pub(crate) fn new(alloc: Global) -> Unread
        ensures { result ≡ [] }
    {
        Unread {
            bytes: Vec::new(alloc),
            start: 0,
            searched: 0,
        }
    }

    /// Bytes of which no line was read.
    pub(crate) fn from_bytes(bytes: Bytes) -> Unread
        ensures { result ≡ bytes }
    {
        Unread {
            bytes: bytes.into_vec(),
            start: 0,
            searched: 0,
        }
    }

    /// Appends a piece. Bytes that were taken make room for it.
    pub(crate) fn append(&mut self, piece: &[u8]) -> Result<(), NoMemory>
        ensures ok { OnOk result (self.new ≡ self.old ++ piece.now) }
        ensures err { OnErr result (self.new ≡ self.old) }
    {
        self.close_up();
        self.bytes.extend_from_slice(piece)?;
        Ok(())
    }

    /// Gives up the room of the bytes that were taken.
    fn close_up(&mut self)
        ensures { self.new ≡ self.old }
    {
        if self.start > 0 {
            let len = self.len();
            self.bytes.copy_within(self.start.., 0);
            self.bytes.truncate(len);
            self.searched -= self.start;
            self.start = 0;
        }
    }

    /// The length of the first line without its end, if one stands. After the last line's end one
    /// stands where the stream has ended.
    #[inline(never)]
    pub(crate) fn line_len(&mut self, ended: bool) -> Option<usize>
        ensures same { self.new ≡ self.old }
        ensures line { IfSome result (λ n. first_line self.old ended ≡ Some (take n self.old, drop (n + 1) self.old)) }
        ensures within { IfSome result (λ n. n ≤ length self.old) }
        ensures some { IfSome result (λ n. 0 < length self.old) }
        ensures none { IfNone result (first_line self.old ended ≡ None) }
    {
        match self.end_of_line() {
            Some(len) => Some(len),
            None if ended && self.start < self.bytes.len() => Some(self.bytes.len() - self.start),
            None => None,
        }
    }

    /// The place of the first line's end.
    fn end_of_line(&mut self) -> Option<usize>
        ensures same { self.new ≡ self.old }
        ensures line { IfSome result (λ n. (n < length self.old)
            × (split_once 10 self.old ≡ Some (take n self.old, drop (n + 1) self.old))) }
        ensures none { IfNone result (split_once 10 self.old ≡ None) }
    {
        match place_of(&self.bytes[self.searched..], b'\n') {
            Some(more) => {
                self.searched += more;
                Some(self.searched - self.start)
            }
            None => {
                self.searched = self.bytes.len();
                None
            }
        }
    }

    /// Takes the lines at the front that are empty or comments, and gives their number.
    #[inline(always)]
    pub(crate) fn pass_skipped(&mut self, ended: bool) -> u64
        requires { length self.old ≤ MOST_TRACE_BYTES }
        ensures passes { Passes ended self.old result self.new }
        ensures stops { StopsAtLine self.new ended }
        ensures fewer { result + length self.new ≤ length self.old }
    {
        let mut lines = 0;
        while let Some(len) = self.skipped_len(ended) {
            self.skip_line(len);
            lines += 1;
        }
        lines
    }

    /// The length of the first line, where it is empty or a comment. What begins with a digit is neither.
    #[inline(always)]
    fn skipped_len(&mut self, ended: bool) -> Option<usize>
        ensures same { self.new ≡ self.old }
        ensures line { IfSome result (λ n. IsFirstLine self.old ended n) }
        ensures skipped { IfSome result (λ n. is_skipped (take n self.old) ≡ true) }
        ensures within { IfSome result (λ n. n ≤ length self.old) }
        ensures some { IfSome result (λ n. 0 < length self.old) }
        ensures none { IfNone result (StopsAtLine self.old ended) }
    {
        if self.begins_with_digit() {
            return None;
        }
        let len = self.line_len(ended)?;
        if is_skipped(&self.as_slice()[..len]) {
            Some(len)
        } else {
            None
        }
    }

    fn begins_with_digit(&self) -> bool
        ensures { result ≡ begins_with_digit self.now }
    {
        match self.as_slice() {
            [first, ..] => first.is_ascii_digit(),
            [] => false,
        }
    }

    /// The number of bytes.
    pub(crate) fn len(&self) -> usize
        ensures { result ≡ length self.now }
    {
        self.bytes.len() - self.start
    }

    /// The bytes.
    pub(crate) fn as_slice(&self) -> &[u8]
        ensures { result.now ≡ self.now }
    {
        &self.bytes[self.start..]
    }

    /// Takes a line of this length from the front, and its end where it has one.
    pub(crate) fn skip_line(&mut self, len: usize)
        requires { len ≤ length self.old }
        ensures { self.new ≡ drop (len + 1) self.old }
    {
        let end = self.start + len;
        self.start = if end < self.bytes.len() { end + 1 } else { end };
        self.searched = self.start;
    }
}
