// The reason of an effect's state after a scan, in the operator's terms. Document 02, L4. It rests on `settings` for what a row gives, on
// `effects` for the records, and on `rules` and `bits`. Which reason fits is specs/Fits, and exactly one does (proofs/Exactly). How the reason is
// found may change without moving a promise.
#![tactic(auto)]

ghost use Rattle.std.specs.Prelude.{◌≡◌, ◌<◌, ◌≤◌};
ghost use Rattle.rules.specs.Limits.{most_effects};
ghost use Rattle.reasons.specs.Given.{sight_of, signs_in};
ghost use Rattle.reasons.specs.Reasons.{reason_by, unforced_by, delay_by, quiet_by, reason_in};

use effects::Event;
use rules::{EffectState, Seen};
use settings::Words;

// What an effect waits for.
#[derive(Clone, Copy)]
pub enum Missing {
    ResetPermit,
    Reset,
    StartPermit,
}

// The reason of an effect's state after a scan: Bad and Active with the causes as a word, DelayRunning with the milliseconds left.
#[derive(Clone, Copy)]
pub enum Reason {
    ForcedTripped,
    ForcedNormal,
    Bad(u16),
    Active(u16),
    DelayRunning(u32),
    DelayEnded,
    Waiting(Missing),
    Cleared,
    AtRest,
}

// What a reason reads of a row for all effects: the effects in the force words, if forces count, and what is seen of the causes.
#[derive(Clone, Copy)]
pub struct Sight {
    pub trip: u16,
    pub normal: u16,
    pub seen: Seen,
}

// What a reason reads of it for one effect: the forces that count, and the effect's Bad and active causes.
#[derive(Clone, Copy)]
pub struct Signs {
    pub trip: bool,
    pub normal: bool,
    pub bad: u16,
    pub active: u16,
}

// ---- what a reason reads of a row

// What a reason reads of the ten words, with these options.
pub fn sight_of(options: u8, w: Words) -> Sight
    ensures { result ≡ sight_of options w }
{
    let counts = settings::forces_count(options, w);
    Sight {
        trip: if counts { w.force_trip } else { 0 },
        normal: if counts { w.force_normal } else { 0 },
        seen: settings::seen_of(options, w),
    }
}

// What it reads for effect i, from 0, with this association word.
pub fn signs_of(sight: Sight, association: u32, i: usize) -> Signs
    requires { i < 16 }
    ensures { result ≡ signs_in sight association i }
{
    Signs {
        trip: bits::bit(sight.trip, i),
        normal: bits::bit(sight.normal, i),
        bad: (association & sight.seen.bad as u32) as u16,
        active: (association & sight.seen.tripped as u32) as u16,
    }
}

// ---- the reason

// From Delayed, unforced and not Bad.
fn delay_by(to: EffectState, timer: u32) -> Reason
    ensures { result ≡ delay_by to timer }
{
    if to == EffectState::Delayed {
        Reason::DelayRunning(timer)
    } else {
        Reason::DelayEnded
    }
}

// From any other state, with no active cause besides.
fn quiet_by(from: EffectState, to: EffectState) -> Reason
    ensures { result ≡ quiet_by from to }
{
    match to {
        EffectState::Tripped => Reason::AtRest,
        EffectState::WaitReset => Reason::Waiting(Missing::ResetPermit),
        EffectState::Ready => Reason::Waiting(Missing::Reset),
        EffectState::WaitStart => Reason::Waiting(Missing::StartPermit),
        EffectState::Normal => {
            if from == EffectState::Normal {
                Reason::AtRest
            } else {
                Reason::Cleared
            }
        }
        EffectState::Delayed => Reason::AtRest,
    }
}

fn unforced_by(active: u16, from: EffectState, to: EffectState, timer: u32) -> Reason
    ensures { result ≡ unforced_by active from to timer }
{
    if from == EffectState::Delayed {
        delay_by(to, timer)
    } else if 0 < active {
        Reason::Active(active)
    } else {
        quiet_by(from, to)
    }
}

// The reason of an effect that came from one state to another, with its timer after the scan; where the state changes, the timer is not
// read.
pub fn reason_by(signs: Signs, from: EffectState, to: EffectState, timer: u32) -> Reason
    ensures { result ≡ reason_by signs from to timer }
{
    if signs.trip {
        Reason::ForcedTripped
    } else if signs.normal {
        Reason::ForcedNormal
    } else if 0 < signs.bad {
        Reason::Bad(signs.bad)
    } else {
        unforced_by(signs.active, from, to, timer)
    }
}

// The reason of a record, by what is read of its row. The association words of the effects stand at the front of `associations`.
pub fn reason_in(sight: Sight, associations: &[u32; 64], e: Event) -> Reason
    requires { (1 ≤ e.effect) × (e.effect ≤ most_effects) }
    ensures { result ≡ reason_in sight associations.now e }
{
    let i = (e.effect - 1) as usize;
    reason_by(signs_of(sight, associations[i], i), e.from, e.to, 0)
}
