// The kinds of servers. An enum beside the library's, of which the second implementation takes nothing.
use crate::random::Random;

#[derive(Clone, Copy, PartialEq, Eq, Debug)]
pub(crate) enum Kind {
    Polling,
    Deferrable,
    Sporadic,
}

impl Kind {
    // The letter in the records of its servers.
    pub(crate) fn letter(self) -> u8 {
        match self {
            Kind::Polling => b'P',
            Kind::Deferrable => b'D',
            Kind::Sporadic => b'S',
        }
    }

    pub(crate) fn drawn(random: &mut Random) -> Kind {
        match random.below(3) {
            0 => Kind::Polling,
            1 => Kind::Deferrable,
            _ => Kind::Sporadic,
        }
    }
}
