//! A text under way, of at most 64 bytes.

ghost use Rattle.std.specs.Prelude.{◌≡◌, ◌≤◌, [], ◌∷◌, length, decimal};
ghost use Rattle.lines.specs.Calls.{over};
ghost use Rattle.lines.specs.Texts.{Adds, text};
ghost use Rattle.lines.specs.Words.{number_word, spaced};

use arrayvec::ArrayVec;
use itoa::Buffer;
use std::io::Write;

// The most bytes that a line needs.
pub(crate) const ROOM: usize = 64;

// A text under way: what does not fit is left out.
#[derive(Drop)]
pub(crate) struct Text {
    bytes: ArrayVec<u8, ROOM>,
}

impl Text {
    // A text without a byte.
    pub(crate) fn new() -> Self
        ensures { text result ≡ [] }
    {
        Text {
            bytes: ArrayVec::new(),
        }
    }

    // Writes the bytes of a word.
    pub(crate) fn word(&mut self, word: &[u8])
        ensures { Adds self.old word.now self.new }
    {
        let _taken = self.bytes.write(word);
    }

    // Writes a number in decimal.
    // Not by `write!`, whose clauses name the bytes where it answers `Ok`, but never say that it does.
    pub(crate) fn number(&mut self, n: usize)
        ensures { Adds self.old (decimal n) self.new }
    {
        let mut digits = Buffer::new();
        self.word(digits.format(n).as_bytes());
    }

    // Writes a space and a number.
    pub(crate) fn next(&mut self, n: usize)
        ensures { Adds self.old (spaced (decimal n ∷ [])) self.new }
    {
        self.word(b" ");
        self.number(n);
    }

    // Writes a space, and a number or a dash for a blank.
    pub(crate) fn next_or_blank(&mut self, n: Option<usize>)
        ensures { Adds self.old (spaced (number_word n ∷ [])) self.new }
    {
        match n {
            Some(n) => self.next(n),
            None => self.word(b" -"),
        }
    }

    // Puts the text at the beginning of the buffer, and tells its length.
    pub(crate) fn put(&self, buffer: &mut [u8]) -> usize
        requires { 64 ≤ length buffer.old }
        ensures answer { result ≡ length (text self.now) }
        ensures after { buffer.new ≡ over (text self.now) buffer.old }
    {
        let n = self.bytes.len();
        buffer[..n].copy_from_slice(&self.bytes);
        n
    }
}
