// The query for a reason: given settings, a state, ten words and an effect number, why the effect is in its state after a scan, or a
// refusal. Document 02, L4; document 01, "Refusal numbers". It rests on `block` for the scan and on `reasons` for the reason. How the scan
// is run may change without moving a contract; the order of the refusal numbers may not.
#![tactic(auto)]

ghost use Rattle.std.specs.Prelude.{◌≡◌, ◌<◌};
ghost use Rattle.settings.specs.Refusals.{number_in};
ghost use Rattle.queries.specs.Reply.{as_reply};
ghost use Rattle.queries.specs.Queries.{present_number, reply_of};
ghost use Rattle.queries.specs.Across.{reason_across};

use block::State;
use reasons::Reason;
use settings::{Refusal, Settings, Words};

// ---- what is refused

// Refuses the number of an effect that is not there: refusal number 3.
fn check_present(count: u8, effect: u8) -> Result<(), Refusal>
    ensures { number_in result ≡ present_number count effect }
{
    if (1 <= effect) & (effect <= count) {
        Ok(())
    } else {
        Err(Refusal::Effects)
    }
}

// ---- what is answered

// The reason of effect i, from 0, that a scan of these words takes from one state to the other.
fn reason_across(st: Settings, w: Words, before: State, after: State, i: usize) -> Reason
    requires { i < 16 }
    ensures { result ≡ reason_across st w before after i }
{
    let effect = st.effects[i];
    let old = before.slots[i];
    let new = after.slots[i];
    let from = old.state;
    let to = new.state;
    let sight = reasons::sight_of(st.options, w);
    let signs = reasons::signs_of(sight, effect.association as u32, i);
    reasons::reason_by(signs, from, to, new.timer)
}

// Why an effect, numbered from 1, is in its state after a scan. Nobody asks for the scan's records, so they go to a buffer that holds
// those of any scan, and refusal number 10 does not occur.
pub fn why(st: Settings, x: State, w: Words, effect: u8) -> Result<Reason, Refusal>
    ensures { as_reply result ≡ reply_of st w x effect }
{
    let mut records = [0u8; effects::MOST_ROW_BYTES];
    let scanned = x.scan(st, w, &mut records)?;
    check_present(st.count, effect)?;
    Ok(reason_across(st, w, x, scanned.state, effect as usize - 1))
}
