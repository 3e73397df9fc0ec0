ghost use Rattle.std.specs.Prelude.{◌≡◌, [], ◌∷◌, ◌++◌, take};
ghost use Rattle.text.specs.Hex.{hex};
ghost use Rattle.text.specs.Written.{room, tagged, written};

use super::Text;
use arrayvec::ArrayVec;
use itoa::{Buffer, Integer};

// A push adds at the end of the text; what does not fit is cut off. There is no `fmt::Write`: `write!` promises nothing of
// the text after an error, and a push cannot fail.
impl Text {
    pub fn new() -> Text
        ensures { written result ≡ [] }
    {
        Text {
            bytes: ArrayVec::new(),
        }
    }

    #[tactic(auto, unfolding(crate::specs::Written::written))]
    pub fn as_bytes(&self) -> &[u8]
        ensures { result.now ≡ written self.now }
    {
        self.bytes.as_slice()
    }

    #[tactic(auto, using(crate::proofs::Cuts::uncut, crate::proofs::Cuts::full), unfolding(crate::specs::Written::written))]
    pub fn push(&mut self, byte: u8)
        ensures { written self.new ≡ take room (written self.old ++ byte ∷ []) }
    {
        let _cut = self.bytes.try_push(byte);
    }

    pub fn push_all(&mut self, bytes: &[u8])
        ensures { written self.new ≡ take room (written self.old ++ bytes.now) }
    {
        for byte in bytes {
            self.push(*byte);
        }
    }

    // The decimal digits of `n`, without leading zeros.
    pub fn push_number<N: Integer>(&mut self, n: N)
        ensures { written self.new ≡ take room (written self.old ++ N.text n) }
    {
        let mut buffer = Buffer::new();
        let digits = buffer.format(n).as_bytes();
        self.push_all(digits);
    }

    // A word and a number.
    pub fn push_labelled<N: Integer>(&mut self, word: &[u8], n: N)
        ensures { written self.new ≡ take room (written self.old ++ tagged word.now (N.text n)) }
    {
        self.push_all(word);
        self.push_number(n);
    }

    // The last `count` hexadecimal digits of `n`, in lower case.
    pub fn push_hex(&mut self, n: u32, count: u32)
        ensures { written self.new ≡ take room (written self.old ++ hex count n) }
    {
        if count > 0 {
            self.push_hex(n / 16, count - 1);
            self.push(char::from_digit(n % 16, 16).unwrap() as u8);
        }
    }
}
