// The state of one effect, and its code; and what is seen of the causes. What the effect sees, and the nine rules of one scan, are
// definitions (specs/) and no code: the code that runs works on words of effects (`planes`). Document 01, "The rules of one scan";
// document 02, L3 (Bad causes). It rests on `bits`.
// A rule that changes in specs/ changes what every crate above promises, and its formula in `planes` has to change with it. The proofs
// above stay, because what they need of the rules is tested by computing.
#![tactic(auto)]

ghost use Rattle.std.specs.Prelude.{◌≡◌, ◌≤◌};
ghost use Rattle.rules.specs.Rules.{code, most_code};

// The state of one effect. Two states are equal if their codes are (`same`).
#[derive(Clone, Copy, PartialEq, Eq)]
pub enum EffectState {
    Tripped,
    WaitReset,
    Ready,
    WaitStart,
    Normal,
    Delayed,
}

// What is kept of one effect: its state, its timer in milliseconds and its first-out word.
#[derive(Clone, Copy)]
pub struct Slot {
    pub state: EffectState,
    pub timer: u32,
    pub first_out: u16,
}

// What is seen of the causes in a scan: those that are tripped, and those that are Bad; no masked cause is. Of both words an effect sees
// the causes that it is associated with.
#[derive(Clone, Copy)]
pub struct Seen {
    pub tripped: u16,
    pub bad: u16,
}

// The code of a state.
impl From<EffectState> for u8 {
    ghost from_gives = { λ p r. r ≡ code p };

    fn from(p: EffectState) -> u8 {
        match p {
            EffectState::Tripped => 0,
            EffectState::WaitReset => 1,
            EffectState::Ready => 2,
            EffectState::WaitStart => 3,
            EffectState::Normal => 4,
            EffectState::Delayed => 5,
        }
    }
}

impl EffectState {
    // The state whose code this is. No `TryFrom`: each caller has proved that it is a code, and would have to handle an error that cannot
    // occur.
    pub fn of_code(n: u8) -> EffectState
        requires { n ≤ most_code }
        ensures { code result ≡ n }
    {
        match n {
            0 => EffectState::Tripped,
            1 => EffectState::WaitReset,
            2 => EffectState::Ready,
            3 => EffectState::WaitStart,
            4 => EffectState::Normal,
            5 => EffectState::Delayed,
            _ => unreachable!(),
        }
    }
}
