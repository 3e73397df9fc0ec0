// The numbers after the first word of a line.
ghost use Rattle.std.specs.Prelude.{◌≡◌, ◌<◌};
ghost use Rattle.script.specs.Commands.{numbers};

use crate::number::number;
use crate::words::{Words, word};

// N numbers, and no more.
pub(crate) fn numbers<const N: usize>(line: &[u8]) -> Option<[u32; N]>
    requires { N < 5 }
    ensures { result ≡ numbers N line.now }
{
    let mut words = Words::of(line);
    let _name = words.take();
    let mut all = [0; N];
    for n in all.iter_mut() {
        *n = number(words.take())?;
    }
    word(line, N + 1).is_empty().then_some(all)
}
