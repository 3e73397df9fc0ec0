// The numbers of a line of text.
ghost use Rattle.std.specs.Prelude.{◌≡◌};
ghost use Rattle.script.specs.Numbers.{extended, number};

// A value with one digit more, if the byte is a digit and the value stays within 32 bits.
fn extended(value: u32, byte: u8) -> Option<u32>
    ensures { result ≡ extended value byte }
{
    let digit = (byte as char).to_digit(10)?;
    value.checked_mul(10)?.checked_add(digit)
}

// The number that a word is, if it is one.
pub(crate) fn number(word: &[u8]) -> Option<u32>
    ensures { result ≡ number word.now }
{
    if word.is_empty() {
        return None;
    }
    let mut value = 0;
    for byte in word {
        value = extended(value, *byte)?;
    }
    Some(value)
}
