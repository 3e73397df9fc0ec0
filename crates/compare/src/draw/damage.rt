// Damage to the bytes of a plan.
use crate::draw::drawn::Drawn;
use crate::kind::Kind;
use crate::random::Random;

// A number at or next to one of its bounds.
fn near(random: &mut Random, low: u32, high: u32) -> u32 {
    match random.below(6) {
        0 => 0,
        1 => low.saturating_sub(1),
        2 => low,
        3 => high,
        4 => high.saturating_add(1),
        _ => u32::MAX,
    }
}

// Puts a number at or next to a bound into a field.
fn field(random: &mut Random, plan: &mut Drawn, record: usize) {
    let work = plan.number(record, 4).unwrap_or(0);
    let period = plan.number(record, 8).unwrap_or(0);
    match random.below(4) {
        0 => plan.put(record, 4, near(random, 1, period)),
        1 => plan.put(record, 8, near(random, 1, 1_000_000)),
        2 => plan.put(record, 12, near(random, work, period)),
        _ => plan.put(record, 16, near(random, 1, period.saturating_sub(1))),
    }
}

// Makes a record a server.
fn server(plan: &mut Drawn, record: usize, kind: Kind) {
    plan.put_byte(record.saturating_mul(20), kind.letter());
    plan.put(record, 12, 0);
    plan.put(record, 16, 0);
}

// Servers of a kind in five or more of the records, where there are so many.
fn servers(random: &mut Random, plan: &mut Drawn, kind: Kind) {
    for record in 0..(plan.len() / 20).min(22) {
        if !random.one_in(3) {
            server(plan, record, kind);
        }
    }
}

// More lines than a plan has, up to 22.
fn more_lines(random: &mut Random, plan: &mut Drawn) {
    for _ in 0..22u32 {
        let period = random.within(1, 60);
        plan.add(b'T', [1, period, period, 0]);
    }
    if random.one_in(2) {
        plan.set_len(420);
    }
}

// One more or one fewer, up to 19, than the bytes of whole records.
fn length(random: &mut Random, plan: &mut Drawn) {
    let change = random.within(1, 19) as usize;
    if random.one_in(2) {
        plan.set_len(plan.len().saturating_sub(change));
    } else {
        plan.set_len(plan.len().saturating_add(change));
    }
}

// Damages a plan in one place.
pub(crate) fn damage(random: &mut Random, plan: &mut Drawn, most: u32) {
    let record = random.below(most) as usize;
    let at = record.saturating_mul(20);
    let any = (random.below(256) & 255) as u8;
    let kind = Kind::drawn(random);
    match random.below(12) {
        0 => plan.put_byte(at, any),
        1 => plan.put_byte(at.saturating_add(random.within(1, 3) as usize), any),
        2 => length(random, plan),
        3 => more_lines(random, plan),
        4 => servers(random, plan, Kind::Sporadic),
        5 => servers(random, plan, kind),
        6 => server(plan, record, kind),
        7 => plan.put_byte(at.saturating_add(random.below(20) as usize), any),
        _ => field(random, plan, record),
    }
}
