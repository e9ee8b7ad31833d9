// The refusals of document 01's list, "Refusal numbers", and of document 02, L1: what every function that refuses answers with.
ghost use Rattle.std.specs.Prelude.{◌≡◌};
ghost use Rattle.settings.specs.Refusals.{number_of, number_in};

// Why something is refused, in the order of the refusal numbers.
#[derive(Clone, Copy, PartialEq, Eq)]
pub enum Refusal {
    // 1: the bytes end before a count or an entry does.
    Ends,
    // 2: the block section is wrong.
    Block,
    // 3: the effects section is wrong, or an effect is absent.
    Effects,
    // 4: a row count, a hold or a row word is wrong.
    Rows,
    // 5: one effect stands in both force words.
    BothForces,
    // 6: several effects are forced without option bit 2.
    SeveralForced,
    // 7: bytes are left over.
    LeftOver,
    // 8: the state breaks the rules.
    State,
    // 9: scans done and hold together pass the last scan that is counted.
    LastScan,
    // 10: the room is below what is due.
    Room,
    // 11: a sum of a report would pass 64 bits.
    Sums,
}

// A refusal, and the place of the bytes that are refused.
#[derive(Clone, Copy, PartialEq, Eq)]
pub struct Refused {
    pub refusal: Refusal,
    pub place: usize,
}

impl From<Refusal> for u8 {
    ghost from_gives = { λ refusal number. number ≡ number_of refusal };

    // The refusal number.
    fn from(refusal: Refusal) -> u8 {
        match refusal {
            Refusal::Ends => 1,
            Refusal::Block => 2,
            Refusal::Effects => 3,
            Refusal::Rows => 4,
            Refusal::BothForces => 5,
            Refusal::SeveralForced => 6,
            Refusal::LeftOver => 7,
            Refusal::State => 8,
            Refusal::LastScan => 9,
            Refusal::Room => 10,
            Refusal::Sums => 11,
        }
    }
}

// A caller that has no use for the place leaves it out.
impl From<Refused> for Refusal {
    ghost from_gives = { λ refused refusal. refusal ≡ refused.refusal };

    fn from(refused: Refused) -> Refusal {
        refused.refusal
    }
}

// The refusal number of an answer; 0 where nothing is refused.
pub fn number_in<T: Copy>(answer: Result<T, Refusal>) -> u8
    ensures { result ≡ number_in answer }
{
    match answer {
        Ok(_) => 0,
        Err(refusal) => u8::from(refusal),
    }
}
