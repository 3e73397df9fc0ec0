// The lines of a text, one after the other.
ghost use Rattle.std.specs.Prelude.{◌≡◌, length, position};
ghost use Rattle.std.specs.Iterator.{at_most};
ghost use Rattle.std.specs.List.{before_first, after_first};
ghost use Rattle.script.specs.Texts.{GivesLine, is_feed};

#[derive(Drop)]
pub struct Lines<'a> {
    rest: &'a [u8],
    number: u32,
}

impl<'a> Lines<'a> {
    pub fn new(text: &'a [u8]) -> Lines<'a>
        ensures rest { result.rest.now ≡ text.now }
        ensures number { result.number ≡ 0 }
    {
        Lines {
            rest: text,
            number: 0,
        }
    }

    // The number of the line that was last given, counted from 1; it stays at 4,294,967,295.
    pub fn number(&self) -> u32
        ensures { result ≡ self.now.number }
    {
        let Lines { number, .. } = self;
        *number
    }
}

// Where the first line feed stands, if there is one.
fn feed(text: &[u8]) -> Option<usize>
    ensures { result ≡ position is_feed text.now }
{
    text.iter().position(|byte| *byte == b'\n')
}

// The bytes before the first line feed, and those after it.
fn cut(text: &[u8]) -> (&[u8], &[u8])
    ensures before { result.0.now ≡ before_first is_feed text.now }
    ensures after { result.1.now ≡ after_first is_feed text.now }
{
    match feed(text) {
        Some(end) => (&text[..end], &text[end + 1..]),
        None => (text, &[]),
    }
}

// Each line with its number, counted from 1; it stays at 4,294,967,295.
impl<'a> Iterator for Lines<'a> {
    type Item = (u32, &'a [u8]);

    ghost next_gives = { GivesLine };

    ghost remaining = { λ s. at_most (length s.rest.now) };

    fn next(&mut self) -> Option<(u32, &'a [u8])> {
        if self.rest.is_empty() {
            return None;
        }
        let (line, rest) = cut(self.rest);
        self.rest = rest;
        self.number = self.number.saturating_add(1);
        Some((self.number, line))
    }
}
