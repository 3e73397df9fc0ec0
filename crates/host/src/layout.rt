// Times as result bytes.
ghost use Rattle.std.specs.Prelude.{◌≡◌, ◌+◌, ◌*◌, ◌≤◌, ◌++◌, length, take, drop};
ghost use Rattle.plan.specs.Answers.{granted};
ghost use Rattle.plan.specs.Bytes.{bytes};
ghost use Rattle.host.specs.Entry.{pairs, code, laid};

use arrayvec::ArrayVec;
use plan::fault::Refusal;

// Writes the four bytes of a number.
fn put(out: &mut [u8], at: usize, n: u32)
    requires { at + 4 ≤ length out.old }
    ensures { out.new ≡ take at out.old ++ (bytes n ++ drop (at + 4) out.old) }
{
    out[at..at + 4].copy_from_slice(&n.to_le_bytes());
}

// By places: of what is written through `chunks_exact_mut` a proof learns how many bytes there are, and not which.
fn put_pairs(times: &[u32], out: &mut [u8])
    requires few { length times.now ≤ 20 }
    requires room { 8 * length times.now ≤ length out.old }
    ensures { out.new ≡ pairs 1 times.now ++ drop (8 * length times.now) out.old }
{
    for (i, time) in times.iter().enumerate() {
        put(out, 8 * i, i as u32 + 1);
        put(out, 8 * i + 4, *time);
    }
}

// Writes the line numbers and times, and answers 0; or 9 × 1,000 where the bytes are too few, and writes nothing.
pub(crate) fn lay(times: &ArrayVec<u32, 20>, out: &mut [u8]) -> u32
    ensures answered { result ≡ code (granted times.now.items) (length out.old) }
    ensures after { out.new ≡ laid (granted times.now.items) out.old }
{
    if out.len() < 8 * times.len() {
        return Refusal::Memory.number() * 1000;
    }
    put_pairs(times, out);
    0
}
