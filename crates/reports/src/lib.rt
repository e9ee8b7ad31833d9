// Lines about a recording with its name, at the front of a lent buffer: what the reader answered, why a replay is refused in words, and the
// heading above a listing. Each function answers the length of its line, and all else stays. docs/FORMAT.md, "A line for each file". It
// rests on `text` and `sentences` for parts of lines and on `recording` and `findings` for the answers. How lines are put may change
// without moving a contract; the text is specs/Reports.
#![tactic(auto)]

ghost use Rattle.std.specs.Prelude.{◌≡◌, not, ◌+◌, ◌≤◌, eqb, length};
ghost use Rattle.wording.specs.Puts.{Puts, PutsFirst};
ghost use Rattle.reports.specs.Told.{answer_told, explained_told};
ghost use Rattle.reports.specs.Reports.{heading, accepted_line, refused_line, check_line, refused_at, refused_why, explained_line, most_refused_at, Roomy};

use findings::Finding;
use recording::Recording;
use text::Told;

// ---- the heading, and a check

// The line above a listing, for several files.
pub fn put_heading(out: &mut [u8], name: &[u8]) -> usize
    requires { Roomy name.now out.old }
    ensures value { PutsFirst out.old (heading name.now) result out.new }
    ensures upper_bound { result ≤ length out.new }
{
    let from = bits::put_text(out, 0, b"== ");
    let to = bits::put_text(out, from, name);
    bits::put_text(out, to, b" ==\n")
}

// The lines of an accepted and a refused recording have in common that the name is put first, which is one call: they stay apart.
fn put_accepted(out: &mut [u8], name: &[u8], rows: u16) -> usize
    requires { Roomy name.now out.old }
    ensures value { PutsFirst out.old (accepted_line name.now rows) result out.new }
    ensures upper_bound { result ≤ length out.new }
{
    let word = bits::put_text(out, 0, name);
    let number = bits::put_text(out, word, b": accepted, ");
    let end = bits::put_decimal(out, number, rows as u64);
    bits::put_text(out, end, b" rows\n")
}

// Here and below number and place are parameters: how long their digits can get follows from a parameter's range, and that of a field of a
// `Told` is not known to a proof.
fn put_refused(out: &mut [u8], name: &[u8], number: u8, place: usize) -> usize
    requires { Roomy name.now out.old }
    ensures value { PutsFirst out.old (refused_line name.now number place) result out.new }
    ensures upper_bound { result ≤ length out.new }
{
    let colon = bits::put_text(out, 0, name);
    let at = bits::put_text(out, colon, b": ");
    text::put_refusal(out, at, number, place)
}

// What the reader answered. A refusal's line has its number, whatever that is.
pub fn put_check(out: &mut [u8], name: &[u8], answer: Result<Recording, Told>) -> usize
    requires { Roomy name.now out.old }
    ensures value { PutsFirst out.old (check_line name.now (answer_told answer)) result out.new }
    ensures upper_bound { result ≤ length out.new }
{
    match answer {
        Ok(file) => put_accepted(out, name, file.rows),
        Err(told) => put_refused(out, name, told.number, told.place),
    }
}

// ---- a refusal in words

// What stands between the name and the words of a refusal.
#[tactic(auto, using(crate::proofs::Front::short_number, crate::proofs::Front::short_place), unfolding(crate::specs::Reports::refused_at))]
fn put_refused_at(out: &mut [u8], at: usize, number: u8, place: usize) -> usize
    requires { at + most_refused_at ≤ length out.old }
    ensures value { Puts out.old at (refused_at number place) result out.new }
    ensures upper_bound { result ≤ at + most_refused_at }
{
    let second = text::put_total(out, at, b": refused", number as u64, b' ');
    let end = text::put_total(out, second, b"at", place as u64, b':');
    bits::put_text(out, end, b" ")
}

fn put_why(out: &mut [u8], name: &[u8], number: u8, place: usize, finding: Finding) -> usize
    requires { Roomy name.now out.old }
    ensures value { PutsFirst out.old (refused_why name.now number place finding) result out.new }
    ensures upper_bound { result ≤ length out.new }
{
    let refused = bits::put_text(out, 0, name);
    let words = put_refused_at(out, refused, number, place);
    let end = sentences::put_finding(out, words, finding);
    bits::put_text(out, end, b"\n")
}

// 0 refuses nothing, whatever its place.
fn refuses(told: Told) -> bool
    ensures { result ≡ not (eqb told.number 0) }
{
    told.number != 0
}

// What a replay would be refused by, in words.
pub fn put_explained(
    out: &mut [u8],
    name: &[u8],
    refused: Option<Told>,
    rows: u16,
    finding: Finding,
) -> usize
    requires { Roomy name.now out.old }
    ensures value { PutsFirst out.old (explained_line name.now (explained_told refused rows finding)) result out.new }
    ensures upper_bound { result ≤ length out.new }
{
    match refused {
        Some(told) if refuses(told) => put_why(out, name, told.number, told.place, finding),
        _ => put_accepted(out, name, rows),
    }
}
