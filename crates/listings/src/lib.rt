// What the programs that print listings share: a listing or a line on standard output, and how that ended. docs/DECISIONS.md says what
// happens where output fails. It rests on `printing` for a listing, on `reports` for a heading and on `inputs` for messages and statuses. All
// but what is printed, and the status (specs/Endings), may change.
#![tactic(auto)]

ghost use Rattle.std.specs.Prelude.{◌≡◌, ◌≤◌, length};
ghost use Rattle.inputs.specs.Statuses.{status_number};
ghost use Rattle.reports.specs.Reports.{most_name};
ghost use Rattle.rerun.specs.Replay.{replay};
ghost use Rattle.listings.specs.Buffers.{Printing};
ghost use Rattle.listings.specs.Endings.{ended_by, Ended};

use inputs::{Errors, Program, Status};
use printing::Outcome;
use std::io;

// How a recording of this refusal number ended.
fn status_of(number: u8) -> Status
    ensures { status_number result ≡ ended_by number }
{
    if number != 0 {
        return Status::Refused;
    }
    Status::Done
}

// Writes the text, and answers how a recording of this refusal number ended. The number is what callers have in common: the
// refusals of some have a place, and those of others none.
pub fn write_text<R: Print + Errors>(program: &Program<R>, text: &[u8], number: u8) -> Status
    ensures { Ended number (status_number result) }
{
    let status = program.write(text);
    status.graver(status_of(number))
}

// Prints a listing, with reasons if `why` asks for them.
pub fn list<R: Print + Errors>(program: &Program<R>, s: &[u8], why: bool, out: &mut [u8]) -> Status
    requires { Printing out.old }
    ensures { Ended (replay s.now).number (status_number result) }
{
    match printing::print(&mut io::writer(program.rt), s, why, out) {
        Ok(ending) => match ending.outcome {
            Outcome::Replayed => Status::Done,
            Outcome::Refused => Status::Refused,
        },
        Err(unwritten) => program.say_unwritten(unwritten.error),
    }
}

// Prints the heading with a name, under which the answer for its recording stands.
pub fn head<R: Print + Errors>(program: &Program<R>, name: &[u8], out: &mut [u8]) -> Status
    requires { (length name.now ≤ most_name) × Printing out.old }
    ensures { Ended 0 (status_number result) }
{
    let size = reports::put_heading(out, name);
    write_text(program, &out[..size], 0)
}
