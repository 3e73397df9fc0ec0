ghost use Rattle.std.specs.Prelude.{◌≡◌, [], ◌++◌, length, if◌then◌else◌, nat_le};
ghost use Rattle.plan.specs.Records.{encoded};
ghost use Rattle.script.specs.Kept.{kept};

use super::Records;
use arrayvec::ArrayVec;
use plan::encode::encode;
use plan::line::Line;

impl Records {
    pub fn new() -> Records
        ensures { kept result ≡ [] }
    {
        Records {
            bytes: ArrayVec::new(),
        }
    }

    // Adds the record of a line; with 22 records kept it changes nothing.
    pub fn add(&mut self, line: &Line)
        ensures { kept self.new ≡ (if nat_le (length (kept self.old)) 420 then kept self.old ++ encoded line.now else kept self.old) }
    {
        let _ = self.bytes.try_extend_from_slice(&encode(line));
    }

    pub fn as_bytes(&self) -> &[u8]
        ensures { result.now ≡ kept self.now }
    {
        self.bytes.as_slice()
    }
}
