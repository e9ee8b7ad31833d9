// What the settings give to the words of effects: which causes and delays stand behind each effect, in the lent array, and what stays
// the same from row to row. Document 01, "Settings, row, state".
// It rests on `cells` for the array and on `settings`. All of it may change without moving a contract of an entry point.
#![tactic(auto)]

ghost use Rattle.std.specs.Prelude.{◌≡◌, true, ◌≤◌, ltb};
ghost use Rattle.std.proofs.lemmas.List.Edits.{sets};
ghost use Rattle.bits.specs.Lists.{tabulate};
ghost use Rattle.bits.specs.Words.{word_of};
ghost use Rattle.cells.specs.Array.{associations_at, delays_at};
ghost use Rattle.plans.specs.Plans.{association_at, delay_at, union_to, wired_into, plan_of};

use cells::Plan;
use settings::Settings;

// Puts what the settings give into the array: associations and delays.
pub fn wire(board: &mut [u32; 64], st: Settings)
    ensures { board.new ≡ wired_into st board.old }
{
    cells::fill(
        board,
        cells::ASSOCIATIONS,
        16,
        |i| st.effects[i].association as u32,
    );
    cells::fill(board, cells::DELAYS, 16, |i| st.effects[i].delay);
}

// The causes that any effect watches.
fn watched_word(count: usize, st: Settings) -> u16
    requires { count ≤ 16 }
    ensures { result ≡ union_to (association_at st) count }
{
    let mut word: u16 = 0;
    for i in 0..count {
        word |= st.effects[i].association;
    }
    word
}

// What stays the same from row to row.
pub fn plan_of(st: Settings) -> Plan
    requires { st.count ≤ 16 }
    ensures { result ≡ plan_of st }
{
    let count = st.count as usize;
    Plan {
        count,
        period: st.period as u32,
        options: st.options,
        all: bits::word_where(count, |_| true),
        with_delay: bits::word_where(count, |i| 0 < st.effects[i].delay),
        watched: watched_word(count, st),
    }
}
