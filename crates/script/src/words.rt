// The words of a line of text.
ghost use Rattle.std.specs.Prelude.{◌≡◌, ℕ, suc, ◌≤◌, length, position};
ghost use Rattle.script.specs.Words.{is_blank, is_other, leading, word};

fn is_blank(byte: u8) -> bool
    ensures { result ≡ is_blank byte }
{
    matches!(byte, b' ' | b'\t' | b'\r')
}

// Whether a byte ends a row of blanks, or of bytes that are none.
fn is_other(blank: bool, byte: u8) -> bool
    ensures { result ≡ is_other blank byte }
{
    is_blank(byte) != blank
}

// Where the row of blanks at the front ends, or the row of bytes that are none.
fn first_other(blank: bool, text: &[u8]) -> Option<usize>
    ensures { result ≡ position (is_other blank) text.now }
{
    text.iter().position(|byte| is_other(blank, *byte))
}

// How many bytes at the front are blanks, or how many are none.
fn leading(blank: bool, text: &[u8]) -> usize
    ensures value { result ≡ leading blank text.now }
    ensures within { result ≤ length text.now }
{
    first_other(blank, text).unwrap_or(text.len())
}

// The words of a line, taken off one after the other. No `split`: it makes an empty piece of each blank, and costs twice as much.
#[derive(Drop)]
pub(crate) struct Words<'a> {
    rest: &'a [u8],
}

impl<'a> Words<'a> {
    pub(crate) fn of(line: &'a [u8]) -> Words<'a>
        ensures { result.rest.now ≡ line.now }
    {
        Words { rest: line }
    }

    // The next word; empty where there is none, as a word that is no number: an Option would be taken off at each use.
    pub(crate) fn take(&mut self) -> &'a [u8]
        ensures first { result.now ≡ word self.old.rest.now 0 }
        ensures later { (n : ℕ) → word self.new.rest.now n ≡ word self.old.rest.now (suc n) }
    {
        let text = &self.rest[leading(true, self.rest)..];
        let (word, rest) = text.split_at(leading(false, text));
        self.rest = rest;
        word
    }
}

// Word n of a line, counted from 0; empty where there is none.
pub(crate) fn word(line: &[u8], n: usize) -> &[u8]
    ensures { result.now ≡ word line.now n }
{
    let mut words = Words::of(line);
    for _ in 0..n {
        let _passed = words.take();
    }
    words.take()
}
