// Drawn plans, as bytes.
use crate::kind::Kind;
use crate::random::Random;

// The most bytes of a plan: 20 a record, for up to 22 records, and up to 19 more.
const MOST: usize = 460;

// The bytes of a plan.
// Damage writes behind the plan's end, and a later damage may lengthen the plan over that: so a length, and no ArrayVec.
#[derive(Clone, Copy)]
pub(crate) struct Drawn {
    bytes: [u8; MOST],
    length: usize,
}

// Of which sort a plan is drawn.
#[derive(Clone, Copy)]
pub(crate) struct Sort {
    // the kind of its servers
    pub(crate) kind: Kind,
    pub(crate) lines: u32,
    // how many of its lines are servers at most
    pub(crate) servers: u32,
    pub(crate) longest: u32,
}

impl Drawn {
    pub(crate) fn empty() -> Drawn {
        Drawn {
            bytes: [0; MOST],
            length: 0,
        }
    }

    pub(crate) fn as_slice(&self) -> &[u8] {
        &self.bytes[..self.length.min(MOST)]
    }

    pub(crate) fn len(&self) -> usize {
        self.length
    }

    pub(crate) fn set_len(&mut self, length: usize) {
        self.length = length.min(MOST);
    }

    pub(crate) fn put_byte(&mut self, at: usize, value: u8) {
        if let Some(byte) = self.bytes.get_mut(at) {
            *byte = value;
        }
    }

    // Writes a number from byte k of a record on, least byte first.
    pub(crate) fn put(&mut self, record: usize, k: usize, value: u32) {
        let at = record.saturating_mul(20).saturating_add(k);
        if at <= MOST - 4 {
            self.bytes[at..at + 4].copy_from_slice(&value.to_le_bytes());
        }
    }

    // The number from byte k of a record on; none behind the memory's end.
    pub(crate) fn number(&self, record: usize, k: usize) -> Option<u32> {
        let at = record.saturating_mul(20).saturating_add(k);
        let bytes = self.bytes.get(at..)?.first_chunk::<4>()?;
        Some(u32::from_le_bytes(*bytes))
    }

    // A plan has room for 22 records; past that nothing is written.
    pub(crate) fn add(&mut self, letter: u8, numbers: [u32; 4]) {
        let record = self.length / 20;
        if record >= 22 {
            return;
        }
        let [work, period, deadline, first] = numbers;
        self.put_byte(record * 20, letter);
        self.put(record, 4, work);
        self.put(record, 8, period);
        self.put(record, 12, deadline);
        self.put(record, 16, first);
        self.length = record * 20 + 20;
    }
}

// Adds a task or a server whose work is about a share of its period.
fn add_line(random: &mut Random, plan: &mut Drawn, sort: &Sort, server: bool) {
    let period = random.within(1, sort.longest);
    let most = if random.one_in(8) {
        period
    } else {
        period / sort.lines.max(1)
    };
    let work = random.within(1, most.max(1));
    if server {
        return plan.add(sort.kind.letter(), [work, period, 0, 0]);
    }
    let deadline = if random.one_in(3) {
        random.within(work, period)
    } else {
        period
    };
    let first = random.below(period);
    plan.add(b'T', [work, period, deadline, first]);
}

// A plan in which every field is within its bounds.
pub(crate) fn valid(random: &mut Random, sort: &Sort) -> Drawn {
    let mut plan = Drawn::empty();
    let mut servers = 0;
    for _ in 0..sort.lines {
        let server = servers < sort.servers && random.one_in(2);
        if server {
            servers += 1;
        }
        add_line(random, &mut plan, sort, server);
    }
    plan
}
