// The table of how all effects stand after the last scan of a recording, at the front of a lent buffer. Document 02, L4; the table is ours.
// It rests on `standing` for what is shown, on `text` and `wording` for the fields and on `rerun` for the refusal. How lines are put may
// change without moving a contract; the text is specs/Now.
#![tactic(auto)]

ghost use Rattle.std.specs.Prelude.{◌≡◌, ◌+◌, ◌≤◌, ◌<◌, length, get_or};
ghost use Rattle.std.proofs.lemmas.List.Edits.{sets};
ghost use Rattle.rules.specs.Limits.{most_effects};
ghost use Rattle.rules.specs.Rules.{no_slot};
ghost use Rattle.settings.specs.Refusals.{number_of};
ghost use Rattle.recording.specs.Opened.{IsRead};
ghost use Rattle.reasons.specs.Given.{Narrow};
ghost use Rattle.standing.specs.Stands.{Stands};
ghost use Rattle.wording.specs.Puts.{Puts, PutsFirst};
ghost use Rattle.text.specs.Room.{most_piece};
ghost use Rattle.text.specs.Text.{refusal_line};
ghost use Rattle.now_table.specs.Answer.{as_shown};
ghost use Rattle.now_table.specs.Now.{now_header, now_line};
ghost use Rattle.now_table.specs.Lines.{most_now_lines, standing_lines, standing_table, ShownOf};

use reasons::Reason;
use recording::Recording;
use rules::{EffectState, Slot};
use settings::{Refusal, Refused, Settings};
use standing::Standing;

// What is shown of a recording: what refuses it, if anything does, and how many bytes its text has.
#[derive(Clone, Copy)]
pub struct Shown {
    pub refusal: Option<Refusal>,
    pub size: usize,
}

// ---- the table

// Puts the line of an effect: its number, its state, its first-out and its reason.
#[tactic(auto, using(crate::proofs::Lines::length_fields))]
fn put_effect(
    out: &mut [u8],
    at: usize,
    n: usize,
    p: EffectState,
    first_out: u16,
    r: Reason,
) -> usize
    requires { at + length (now_line n p first_out r) ≤ length out.old }
    ensures { Puts out.old at (now_line n p first_out r) result out.new }
{
    let state = text::put_field(out, at, n as u64, b' ');
    let first = text::put_field(out, state, p, b' ');
    let reason = text::put_field(out, first, first_out as u64, b' ');
    text::put_end(out, reason, r)
}

// The slot of effect i, from 0, after the last scan. The call says that its numbers fit their types, which an index does not.
fn slot_now(x: Standing, i: usize) -> Slot
    requires { i < most_effects }
    ensures { result ≡ get_or x.to i no_slot }
{
    let slots = x.to;
    slots[i]
}

// Puts the lines of all effects.
fn put_effects(out: &mut [u8], at: usize, st: Settings, x: Standing) -> usize
    requires { (st.count ≤ most_effects) × Narrow x.sight × (at + most_now_lines ≤ length out.old) }
    ensures value { Puts out.old at (standing_lines st x st.count) result out.new }
    ensures upper_bound { result ≤ length out.old }
{
    let count = st.count as usize;
    let mut next = at;
    for i in 0..count {
        let reason = standing::reason_now(st, x, i);
        let slot = slot_now(x, i);
        next = put_effect(out, next, i + 1, slot.state, slot.first_out, reason);
    }
    next
}

// Puts the whole table at the front.
fn put_table(out: &mut [u8], st: Settings, x: Standing) -> usize
    requires { (st.count ≤ most_effects) × Narrow x.sight × (most_piece ≤ length out.old) }
    ensures value { PutsFirst out.old (standing_table st x) result out.new }
    ensures upper_bound { result ≤ length out.old }
{
    let first = bits::put_text(out, 0, b"effect state first reason\n");
    put_effects(out, first, st, x)
}

// ---- what is shown of a recording

// Puts the line of a refusal at the front.
fn refuse(out: &mut [u8], refused: Refused) -> Shown
    requires { most_piece ≤ length out.old }
    ensures number_value { ((as_shown result).number ≡ number_of refused.refusal) × (result.size ≡ length (refusal_line (number_of refused.refusal) refused.place)) × (result.size ≤ length out.old) }
    ensures out_after { out.new ≡ sets out.old 0 (refusal_line (number_of refused.refusal) refused.place) }
{
    Shown {
        refusal: Some(refused.refusal),
        size: text::put_refusal(out, 0, u8::from(refused.refusal), refused.place),
    }
}

// A file that the reader accepts: 9 shows no table.
fn show_accepted(out: &mut [u8], s: &[u8], file: Recording) -> Shown
    requires { IsRead file s.now × (most_piece ≤ length out.old) }
    ensures { ShownOf s.now out.old (as_shown result) out.new }
{
    if let Err(refused) = rerun::check_holds(s, file) {
        return refuse(out, refused);
    }
    let x = standing::at_end(s, file);
    Shown {
        refusal: None,
        size: put_table(out, file.settings, x),
    }
}

// Puts the table of a recording at the front of `out`, or the line of its refusal.
pub fn show(out: &mut [u8], s: &[u8]) -> Shown
    requires { most_piece ≤ length out.old }
    ensures { ShownOf s.now out.old (as_shown result) out.new }
{
    match recording::read(s) {
        Ok(file) => show_accepted(out, s, file),
        Err(refused) => refuse(out, refused),
    }
}
