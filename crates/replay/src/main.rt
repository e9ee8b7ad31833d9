// Replays recordings by name and prints their listings, or one line for each, on standard output. Document 01, "One session, whole";
// docs/FORMAT.md, "A line for each file". docs/DECISIONS.md says what happens where input or output fails, and how the program tells how
// it ended. The first argument says what is asked, and the others are names; without an argument it replays standard input and tells
// nothing. It rests on `listings` for a listing, on `reports` and `summaries` for a line and on `inputs` for names, messages and statuses. All
// but what it prints, and the digit that it tells, may change.
#![tactic(auto)]

ghost use Rattle.std.specs.Prelude.{◌+◌, ◌≤◌, ◌^◌, length};
ghost use Rattle.recording.specs.Encode.{most_length};
ghost use Rattle.reports.specs.Reports.{most_name, InputRoom};

use inputs::{ASKED, Errors, Program, Status, Step};
use rerun::Replayed;
use settings::Refused;
use std::env::Env;
use std::rt::Files;
use text::Told;

// What is asked of each recording.
#[derive(Clone, Copy)]
enum Asked {
    Listing,
    Check,
    Summary,
    Explanation,
}

// The word that says what is asked, by its first letter: listing, check, summary or explanation. If the first argument is missing or longer
// than the buffer, the word is empty, and a listing is asked.
impl From<&[u8]> for Asked {
    fn from(word: &[u8]) -> Asked {
        match word {
            [b'c', ..] => Asked::Check,
            [b's', ..] => Asked::Summary,
            [b'e', ..] => Asked::Explanation,
            _ => Asked::Listing,
        }
    }
}

// What answers the recordings: what is asked of each, whether several are named, and the buffer for what is printed.
#[derive(Drop)]
struct Replay<'a, R> {
    program: &'a Program<'a, R>,
    asked: Asked,
    several: bool,
    out: [u8; 65536],
}

// The refusal number of what refuses a recording; 0 where nothing does.
fn number_of(refused: Option<Refused>) -> u8 {
    refused.map_or(0, |refused| u8::from(refused.refusal))
}

impl<R: Print + Errors> Replay<'_, R> {
    // A listing. If several recordings are named, it has its name above it: without the heading nobody could tell whose listing it is, so it
    // then is not written.
    fn list(&mut self, name: &[u8], s: &[u8]) -> Status
        requires { length name.now ≤ most_name }
    {
        if self.several {
            let status = listings::head(self.program, name, &mut self.out);
            if status != Status::Done {
                return status;
            }
        }
        listings::list(self.program, s, false, &mut self.out)
    }

    fn check(&mut self, name: &[u8], s: &[u8]) -> Status
        requires { length name.now ≤ most_name }
    {
        let answer = recording::read(s);
        let size = reports::put_check(&mut self.out, name, answer.map_err(Told::from));
        listings::write_text(self.program, &self.out[..size], number_of(answer.err()))
    }

    fn summarize(&mut self, name: &[u8], s: &[u8]) -> Status
        requires { length name.now ≤ most_name }
    {
        let replayed = Replayed::from(rerun::replay(s));
        let size = summaries::put_summary(&mut self.out, name, replayed);
        listings::write_text(self.program, &self.out[..size], replayed.number)
    }

    fn explain(&mut self, name: &[u8], s: &[u8]) -> Status
        requires { length name.now ≤ most_name }
    {
        let explained = findings::explain(s);
        let refused = explained.refused.map(Told::from);
        let size = reports::put_explained(
            &mut self.out,
            name,
            refused,
            explained.rows,
            explained.finding,
        );
        listings::write_text(
            self.program,
            &self.out[..size],
            number_of(explained.refused),
        )
    }

    // The first line of summaries, which names the fields; other answers have none.
    fn begin(&mut self) -> Status {
        match self.asked {
            Asked::Summary => {
                let size = summaries::put_summary_header(&mut self.out);
                listings::write_text(self.program, &self.out[..size], 0)
            }
            Asked::Listing | Asked::Check | Asked::Explanation => Status::Done,
        }
    }
}

// There is always room for one recording more, and nothing is kept from one to the next.
impl<R: Print + Errors> Step for Replay<'_, R> {
    ghost room = { λ _. 2 ^ 64 };

    ghost kept = { λ _. Unit {0} };

    ghost input_room = { most_length + 1 };

    // Answers what is asked of a recording. What is asked is a match here, and no closure: the first line goes by it, too.
    fn take(&mut self, name: &[u8], input: &[u8]) -> Status {
        match self.asked {
            Asked::Listing => self.list(name, input),
            Asked::Check => self.check(name, input),
            Asked::Summary => self.summarize(name, input),
            Asked::Explanation => self.explain(name, input),
        }
    }
}

impl<R: Files + Env + Input + Print + Errors> Replay<'_, R> {
    // Answers all named recordings, or standard input if none is named.
    fn answer_each(&mut self, name: &mut [u8], file: &mut [u8]) -> Status
        requires { InputRoom name.old file.old }
    {
        let status = self.begin();
        if status != Status::Done {
            return status;
        }
        let program = self.program;
        program.take_each_whole(self, name, file)
    }
}

// Answers what is asked, and tells the status.
fn run<R: Files + Env + Input + Print + Errors>(rt: &R, name: &mut [u8], file: &mut [u8])
    requires { InputRoom name.old file.old }
{
    let size = inputs::short_argument(rt, ASKED, name);
    let program = Program::new(rt, b"replay: ");
    let mut replay = Replay {
        program: &program,
        asked: Asked::from(&name[..size]),
        several: program.has_several_names(),
        out: [0u8; 65536],
    };
    let status = replay.answer_each(name, file);
    program.tell_asked(status);
}

fn main(rt: HostRuntime) {
    let mut name = [0u8; 4096];
    let mut file = [0u8; 49259];
    run(&rt, &mut name, &mut file);
}
