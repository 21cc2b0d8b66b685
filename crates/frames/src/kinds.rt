// Kinds of frames and their first bytes.
use repertoire::Refusal;

// What a frame is about; its first byte says so, by these numbers.
#[derive(Clone, Copy, PartialEq, Eq)]
pub enum Kind {
    Header = 1,
    Link = 2,
    Guide = 3,
    Limits = 4,
    End = 5,
}

impl Kind {
    ghost use Rattle.std.specs.Prelude.{◌≡◌};
    ghost use Rattle.frames.specs.Frames.{body_length};

    // How many digits stand between the first byte and the line feed.
    pub(crate) fn body_length(self) -> usize
        ensures { result ≡ body_length self }
    {
        match self {
            Kind::Header => 12,
            Kind::Link => 28,
            Kind::Guide | Kind::Limits => 20,
            Kind::End => 0,
        }
    }
}

// The kind of which a byte is the first.
impl TryFrom<u8> for Kind {
    ghost use Rattle.std.specs.Prelude.{◌≡◌};
    ghost use Rattle.std.specs.Option.{ok_or};
    ghost use Rattle.repertoire.specs.declared.refusals.Refusal.TheVariants.{UnknownFrame};
    ghost use Rattle.frames.specs.Frames.{coded};

    type Error = Refusal;

    ghost try_from_gives = { λ byte result. result ≡ ok_or (coded byte) UnknownFrame };

    fn try_from(byte: u8) -> Result<Kind, Refusal> {
        match byte {
            1 => Ok(Kind::Header),
            2 => Ok(Kind::Link),
            3 => Ok(Kind::Guide),
            4 => Ok(Kind::Limits),
            5 => Ok(Kind::End),
            _ => Err(Refusal::UnknownFrame),
        }
    }
}

// The first byte of a frame of a kind.
impl From<Kind> for u8 {
    ghost use Rattle.std.specs.Prelude.{◌≡◌};
    ghost use Rattle.frames.specs.Frames.{code};

    ghost from_gives = { λ kind byte. byte ≡ code kind };

    fn from(kind: Kind) -> u8 {
        kind as u8
    }
}
