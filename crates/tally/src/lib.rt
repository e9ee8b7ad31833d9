// The sums of a recording, counted from the records of its events: for each effect the scans of its closed stretches in each state, and its
// changes into Tripped. Document 02, L1. It rests on `effects` for the events and on `rules` for the states; `trace` says what stretches are
// in single scans. How events are counted may change without moving a contract of `season`.
#![tactic(auto)]

ghost use Rattle.std.specs.Prelude.{◌≡◌, ◌≤◌};
ghost use Rattle.bits.specs.Words.{one};
ghost use Rattle.rules.specs.declared.EffectState.TheVariants.{Tripped};
ghost use Rattle.rules.specs.Rules.{same as same_as};
ghost use Rattle.tally.specs.Tally.{none, closed_at, Closable, closed_to, AllClosable, count_event, Countable, Waiting, CountedAll};
ghost use Rattle.tally.specs.Shown.{shown, with_sums};

use effects::Event;
use rules::EffectState;

// The sums of an effect, and where that of its changes into Tripped stands among them; the slots; where the sum of the exercised scans
// stands, behind those of all slots.
pub const SUMS_OF_EFFECT: usize = 7;

const TRIP_PLACE: usize = 6;

const SLOTS: usize = 16;

pub const EXERCISED_SUM: usize = SUMS_OF_EFFECT * SLOTS;

// A stretch that is open: the effect has stood in the state of this code after each scan behind scan number `since`. The code is a number,
// so that nothing is asked of a slot whose stretch does not end.
#[derive(Clone, Copy)]
pub struct Stretch {
    pub since: u32,
    pub code: u32,
}

// The sums so far, and the stretch that is open for each slot.
#[derive(Clone, Copy)]
pub struct Count {
    pub sums: [u64; 113],
    pub stretches: [Stretch; 16],
}

// 1 for Tripped, else 0. The bound is in the contract, so that a caller need not show it.
fn is_tripped(p: EffectState) -> u64
    ensures { (result ≡ one (same_as p Tripped)) × (result ≤ 1) }
{
    if p == EffectState::Tripped {
        return 1;
    }
    0
}

impl Count {
    // Nothing is counted: every effect stands in Tripped from the beginning.
    pub fn empty() -> Count
        ensures { shown result ≡ none }
    {
        Count {
            sums: [0; 113],
            stretches: [Stretch {
                since: 0,
                code: u8::from(EffectState::Tripped) as u32,
            }; 16],
        }
    }

    // The stretch of slot i ends with this scan.
    fn close(&mut self, i: usize, scan: u32)
        requires { Closable i scan (shown self.old) }
        ensures { self.new ≡ with_sums self.old (closed_at i scan (shown self.old)) }
    {
        let open = self.stretches[i];
        let stood = SUMS_OF_EFFECT * i + open.code as usize;
        self.sums[stood] += scan.saturating_sub(open.since) as u64;
    }

    // The stretches of the first n slots end with this scan.
    pub fn close_all(&mut self, n: usize, scan: u32)
        requires { AllClosable n scan (shown self.old) }
        ensures { self.new ≡ with_sums self.old (closed_to n scan (shown self.old)) }
    {
        for slot in 0..n {
            self.close(slot, scan);
        }
    }

    // One event more.
    fn count_event(&mut self, e: Event)
        requires { Countable e (shown self.old) }
        ensures { shown self.new ≡ count_event e (shown self.old) }
    {
        let state = e.to;
        let i = (e.effect - 1) as usize;
        let since = e.scan.saturating_sub(1);
        self.close(i, since);
        let trips = SUMS_OF_EFFECT * i + TRIP_PLACE;
        self.sums[trips] += is_tripped(state);
        let code = u8::from(state) as u32;
        self.stretches[i] = Stretch { since, code };
    }

    // The events of the n records at the front of `records`.
    pub fn count_events(&mut self, records: &[u8], n: usize)
        requires { Waiting records.now n (shown self.old) }
        ensures { CountedAll records.now n (shown self.old) (shown self.new) }
    {
        for i in 0..n {
            let e = effects::event_at(records, effects::RECORD_LENGTH * i);
            self.count_event(e);
        }
    }
}
