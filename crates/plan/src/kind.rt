// The kinds of server, by their letters.
ghost use Rattle.std.specs.Prelude.{◌≡◌};
ghost use Rattle.plan.specs.Kinds.{Names, kind_letter};

#[derive(Clone, Copy, Debug, PartialEq, Eq)]
pub enum ServerKind {
    Polling,
    Deferrable,
    Sporadic,
}

// A letter that names no kind of server.
#[derive(Clone, Copy, Debug, PartialEq, Eq)]
pub struct UnknownLetter(pub u8);

impl ServerKind {
    // The letter that names the kind in a record.
    pub fn letter(self) -> u8
        ensures { result ≡ kind_letter self }
    {
        match self {
            ServerKind::Polling => b'P',
            ServerKind::Deferrable => b'D',
            ServerKind::Sporadic => b'S',
        }
    }
}

// The kind that a letter names.
impl TryFrom<u8> for ServerKind {
    type Error = UnknownLetter;

    ghost try_from_gives = { Names };

    fn try_from(letter: u8) -> Result<ServerKind, UnknownLetter> {
        match letter {
            b'P' => Ok(ServerKind::Polling),
            b'D' => Ok(ServerKind::Deferrable),
            b'S' => Ok(ServerKind::Sporadic),
            _ => Err(UnknownLetter(letter)),
        }
    }
}
