// A walk over a recording: it holds the lent bytes and its place, and gives one row at a time. Document 01, "Recordings".
// The work is done by covered functions on a slice and a place, `recording::read` and `row_step`; `nth` stands above the walk with plain
// parameters. It rests on `recording` and what that rests on. How a step finds its row may change without moving a contract, as long as
// any bytes and any place get the reader's answer.
#![tactic(auto)]

ghost use Rattle.std.specs.Prelude.{◌≡◌};
ghost use Rattle.recording.specs.Answer.{as_reading};
ghost use Rattle.recording.specs.Answers.{first_row};
ghost use Rattle.recording.specs.Reader.{reading};
ghost use Rattle.recording.specs.Step.{as_step};
ghost use Rattle.walk.specs.Started.{as_started};
ghost use Rattle.walk.specs.Walks.{start_of, next_of, moved_on, nth_of};

use recording::{Recording, RowAt};
use settings::Refused;

#[derive(Drop)]
pub struct Walk<'a> {
    pub bytes: &'a [u8],
    pub place: usize,
}

// The reader's answer, and the walk at the first row, or one that has ended.
#[derive(Drop)]
pub struct Started<'a> {
    pub answer: Result<Recording, Refused>,
    pub walk: Walk<'a>,
}

// The first row's place, or 0 for a refusal, where no row stands.
fn first_place(answer: Result<Recording, Refused>) -> usize
    ensures { result ≡ first_row (as_reading answer).answer }
{
    match answer {
        Ok(file) => file.first,
        Err(_) => 0,
    }
}

// Starts a walk at the first row. On bytes that the reader refuses, it gives the refusal and a walk at 0, which has ended.
pub fn start<'a>(bytes: &'a [u8]) -> Started<'a>
    ensures { (as_started result ≡ start_of bytes.entry) × (as_reading result.answer ≡ reading bytes.now) }
{
    let answer = recording::read(bytes);
    Started {
        answer,
        walk: Walk {
            bytes,
            place: first_place(answer),
        },
    }
}

impl<'a> Walk<'a> {
    // Gives the row at the walk's place, or none where the walk has ended, and moves the walk on. It asks the reader each time.
    pub fn next(&mut self) -> Option<RowAt>
        ensures { (as_step result ≡ next_of self.old) × (self.new ≡ moved_on self.old) }
    {
        let step = recording::row_step(self.bytes, self.place);
        self.place = match step {
            Some(found) => found.next,
            None => self.place,
        };
        step
    }
}

// Row n of a recording, counted from 0, or none: what a walk gives after n other steps.
pub fn nth(bytes: &[u8], n: u16) -> Option<RowAt>
    ensures { as_step result ≡ nth_of bytes.now n }
{
    let mut walk = start(bytes).walk;
    for i in 0..n {
        walk.next();
    }
    walk.next()
}
