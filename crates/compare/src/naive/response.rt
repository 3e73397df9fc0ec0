// The response time of a line, found by counting up.
use crate::kind::Kind;
use crate::naive::lines::PlainLine;

// What a line takes from those below it in w ticks.
fn share(line: &PlainLine, w: u64) -> u64 {
    let (work, period) = (line.work(), line.period());
    if w == 0 || period == 0 {
        return 0;
    }
    let window = if line.kind() == Some(Kind::Deferrable) {
        w.saturating_add(period).saturating_sub(work)
    } else {
        w
    };
    window.div_ceil(period).saturating_mul(work)
}

// The own work of a line, and what all lines above take.
fn demand(line: &PlainLine, above: &[PlainLine], w: u64) -> u64 {
    above.iter().fold(
        line.work(),
        |sum, above| sum.saturating_add(share(above, w)),
    )
}

// The response time of the line at a place from 0; none where it does not pass.
pub(crate) fn response(plan: &[PlainLine], place: usize) -> Option<u64> {
    let line = plan.get(place)?;
    let above = plan.get(..place)?;
    (1..line.limit().saturating_add(1)).find(|w| demand(line, above, *w) <= *w)
}

// The number of the first line that does not pass.
pub(crate) fn failing(plan: &[PlainLine]) -> Option<u32> {
    let mut lines = (1u32..).zip(0..plan.len());
    let (number, _) = lines.find(|(_, place)| response(plan, *place).is_none())?;
    Some(number)
}
