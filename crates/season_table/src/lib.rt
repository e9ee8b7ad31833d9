// What `bin/season` shows: the report over the files of a call, with the files that were added and refused, and its text as a table at the
// front of a lent buffer. docs/FORMAT.md, "Season totals"; document 02, L1. It rests on `season` for the report and on `text` and `bits` for
// numbers and words. How lines are put may change without moving a contract; the text is specs/Lines, and what a file changes specs/Files.
#![tactic(auto)]

ghost use Rattle.std.specs.Prelude.{◌≡◌, ◌+◌, ◌*◌, ◌≤◌, ◌<◌, length};
ghost use Rattle.rules.specs.Limits.{most_effects};
ghost use Rattle.sums.specs.Sums.{most_sum};
ghost use Rattle.tally.specs.Tally.{sums_of_effect};
ghost use Rattle.wording.specs.Puts.{Puts, PutsFirst};
ghost use Rattle.season.specs.Answer.{Added as Answer};
ghost use Rattle.season_table.specs.Files.{empty_table, StandsFor, with_file, files_of};
ghost use Rattle.season_table.specs.Lines.{effect_line, effect_lines, closing_line, table_text};
ghost use Rattle.season_table.specs.Pieces.{sums_text, most_spaced, most_effect_line, most_closing, most_table, Shown};

use season::{Added, Report};

// The report over some files, the largest effect count of those that were added, and how many were added and refused.
#[derive(Clone, Copy)]
pub struct Table {
    pub report: Report,
    pub effects: u8,
    pub recordings: u64,
    pub refused: u64,
}

// ---- one file more

impl Table {
    // The table over no file.
    pub fn empty() -> Table
        ensures { result ≡ empty_table }
    {
        Table {
            report: Report::empty(),
            effects: 0,
            recordings: 0,
            refused: 0,
        }
    }

    // The table with one file more, by the answer to adding it to the report: what was added, or none where the file is refused. No answer
    // but 0 adds one, so that a refusal's number need not be told.
    pub fn with_file(self, added: Option<Added>) -> Table
        requires { files_of self < most_sum }
        ensures { (answer : Answer) → StandsFor added answer → result ≡ with_file self answer }
    {
        match added {
            Some(added) => Table {
                report: added.report,
                effects: self.effects.max(added.effects),
                recordings: self.recordings + 1,
                ..self
            },
            None => Table {
                refused: self.refused + 1,
                ..self
            },
        }
    }
}

// ---- the text

// Puts the seven sums of the effect in slot i, a space before each.
fn put_sums(out: &mut [u8], at: usize, sums: &[u64; 113], i: usize) -> usize
    requires { (i < most_effects) × (at + most_spaced * sums_of_effect ≤ length out.old) }
    ensures value { Puts out.old at (sums_text sums.now i sums_of_effect) result out.new }
    ensures upper_bound { result ≤ at + most_spaced * sums_of_effect }
{
    let from = tally::SUMS_OF_EFFECT * i;
    let mut next = at;
    for sum in &sums[from..from + tally::SUMS_OF_EFFECT] {
        next = wording::put_named(out, next, b" ", *sum);
    }
    next
}

// Puts the line of the effect in slot i.
fn put_effect(out: &mut [u8], at: usize, sums: &[u64; 113], i: usize) -> usize
    requires { (i < most_effects) × (at + most_effect_line ≤ length out.old) }
    ensures value { Puts out.old at (effect_line sums.now i) result out.new }
    ensures upper_bound { result ≤ at + most_effect_line }
{
    let tripped = bits::put_decimal(out, at, (i + 1) as u64);
    let end = put_sums(out, tripped, sums, i);
    bits::put_text(out, end, b"\n")
}

// Puts the lines of the first n effects.
#[tactic(auto, unfolding(crate::specs::Lines::effect_lines))]
fn put_effects(out: &mut [u8], at: usize, sums: &[u64; 113], n: usize) -> usize
    requires { (n ≤ most_effects) × (at + most_effect_line * n ≤ length out.old) }
    ensures value { Puts out.old at (effect_lines sums.now n) result out.new }
    ensures upper_bound { result ≤ at + most_effect_line * n }
{
    let mut next = at;
    for i in 0..n {
        next = put_effect(out, next, sums, i);
    }
    next
}

// Puts the last line.
fn put_closing(out: &mut [u8], at: usize, recordings: u64, refused: u64, exercised: u64) -> usize
    requires { at + most_closing ≤ length out.old }
    ensures value { Puts out.old at (closing_line recordings refused exercised) result out.new }
    ensures upper_bound { result ≤ at + most_closing }
{
    let second = text::put_total(out, at, b"recordings", recordings, b' ');
    let third = text::put_total(out, second, b"refused", refused, b' ');
    text::put_total(out, third, b"exercised", exercised, b'\n')
}

// Puts a table at the front of `out`, and answers its length.
pub fn put_table(out: &mut [u8], t: Table) -> usize
    requires { Shown t out.old }
    ensures value { PutsFirst out.old (table_text t) result out.new }
    ensures upper_bound { result ≤ most_table }
{
    let report = t.report;
    let sums = report.sums;
    let first = bits::put_text(
        out,
        0,
        b"effect tripped wait-reset ready wait-start normal delayed trips\n",
    );
    let last = put_effects(out, first, &sums, t.effects as usize);
    put_closing(
        out,
        last,
        t.recordings,
        t.refused,
        sums[tally::EXERCISED_SUM],
    )
}
