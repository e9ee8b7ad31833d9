// Tells why effects stand as they do: by recordings' names it prints their listings with reasons, or how all effects stand after the last
// scan. Document 02, L4; docs/FORMAT.md, "Reasons". docs/DECISIONS.md says what happens where input or output fails, and how the program
// tells how it ended. The first argument says what is asked, and the others are names; without an argument it lists standard input and tells
// nothing. It rests on `listings` for a listing, on `now_table` for the table and on `inputs` for names, messages and statuses. All but what
// it prints, and the digit that it tells, may change.
#![tactic(auto)]

ghost use Rattle.std.specs.Prelude.{◌+◌, ◌≤◌, ◌^◌, length};
ghost use Rattle.recording.specs.Encode.{most_length};
ghost use Rattle.reports.specs.Reports.{most_name, InputRoom};

use inputs::{ASKED, Errors, Program, Status, Step};
use std::env::Env;
use std::rt::Files;

// What is asked of each recording.
#[derive(Clone, Copy)]
enum Asked {
    Listing,
    Now,
}

// The word that says what is asked, by its first letter: listing or now. If the first argument is missing or longer than the buffer, the word
// is empty, and a listing is asked.
impl From<&[u8]> for Asked {
    fn from(word: &[u8]) -> Asked {
        match word {
            [b'n', ..] => Asked::Now,
            _ => Asked::Listing,
        }
    }
}

// What answers the recordings: what is asked of each, whether several are named, and the buffer for what is printed.
#[derive(Drop)]
struct Why<'a, R> {
    program: &'a Program<'a, R>,
    asked: Asked,
    several: bool,
    out: [u8; 65536],
}

impl<R: Print + Errors> Why<'_, R> {
    // Prints how all effects stand after the last scan.
    fn show_now(&mut self, s: &[u8]) -> Status {
        let shown = now_table::show(&mut self.out, s);
        let number = shown.refusal.map_or(0, |refusal| u8::from(refusal));
        listings::write_text(self.program, &self.out[..shown.size], number)
    }
}

// There is always room for one recording more, and nothing is kept from one to the next.
impl<R: Print + Errors> Step for Why<'_, R> {
    ghost room = { λ _. 2 ^ 64 };

    ghost kept = { λ _. Unit {0} };

    ghost input_room = { most_length + 1 };

    // Answers what is asked of a recording. If several are named, the answer has its name above it: without the heading nobody could tell
    // whose answer it is, so it then is not written.
    fn take(&mut self, name: &[u8], input: &[u8]) -> Status {
        if self.several {
            let status = listings::head(self.program, name, &mut self.out);
            if status != Status::Done {
                return status;
            }
        }
        // A match and no closure: it stands once, and a closure for each case would be handed out.
        match self.asked {
            Asked::Listing => listings::list(self.program, input, true, &mut self.out),
            Asked::Now => self.show_now(input),
        }
    }
}

// Answers all named recordings, or standard input if none is named, and tells the status.
fn run<R: Files + Env + Input + Print + Errors>(rt: &R, name: &mut [u8], file: &mut [u8])
    requires { InputRoom name.old file.old }
{
    let size = inputs::short_argument(rt, ASKED, name);
    let program = Program::new(rt, b"why: ");
    let mut why = Why {
        program: &program,
        asked: Asked::from(&name[..size]),
        several: program.has_several_names(),
        out: [0u8; 65536],
    };
    let status = program.take_each_whole(&mut why, name, file);
    program.tell_asked(status);
}

fn main(rt: HostRuntime) {
    let mut name = [0u8; 4096];
    let mut file = [0u8; 49259];
    run(&rt, &mut name, &mut file);
}
