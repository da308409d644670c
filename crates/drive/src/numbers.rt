// The calls by their numbers in a script, and what each is lent.
ghost use Rattle.std.specs.Prelude.{◌≡◌};
ghost use Rattle.drive.specs.Script.{source_at};
ghost use Rattle.drive.specs.Numbers.{op_number, source_number, Decodes};

// The calls: those that write the state have numbers from 0 on, the queries from 16 on.
#[derive(Clone, Copy, Debug, PartialEq, Eq)]
pub enum Op {
    Start = 0,
    Feed,
    Load,
    Mark,
    Back,
    Split = 16,
    LongestEnding,
    Mask,
    RadiusAt,
    NextShorter,
    Record,
    Lift,
}

// No call has the number.
#[derive(Clone, Copy, Debug, PartialEq, Eq)]
pub struct NoCall;

impl TryFrom<u8> for Op {
    type Error = NoCall;

    ghost try_from_gives = { Decodes };

    fn try_from(number: u8) -> Result<Self, NoCall> {
        match number {
            0 => Ok(Op::Start),
            1 => Ok(Op::Feed),
            2 => Ok(Op::Load),
            3 => Ok(Op::Mark),
            4 => Ok(Op::Back),
            16 => Ok(Op::Split),
            17 => Ok(Op::LongestEnding),
            18 => Ok(Op::Mask),
            19 => Ok(Op::RadiusAt),
            20 => Ok(Op::NextShorter),
            21 => Ok(Op::Record),
            22 => Ok(Op::Lift),
            _ => Err(NoCall),
        }
    }
}

// What a call is lent: nothing; a list to fill, of m entries or of m bytes; or m bytes to read.
#[derive(Clone, Copy, Debug, PartialEq, Eq)]
pub enum Source {
    Nothing,
    Lists,
    Bytes,
    Input,
}

impl Op {
    // What the call is lent.
    #[tactic(auto, unfolding(crate::specs::Script::source_at))]
    pub fn source(self) -> Source
        ensures { source_number result ≡ source_at (op_number self) }
    {
        match self {
            Op::Feed | Op::Split => Source::Lists,
            Op::Load => Source::Input,
            Op::Record => Source::Bytes,
            _ => Source::Nothing,
        }
    }
}
