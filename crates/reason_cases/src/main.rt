// Answers a stream of reason cases on standard input: settings, a state, ten words and an effect number each, and for each a line of
// hexadecimal digits: the refusal number and the place, then a space, then the bytes of the reason, which a refusal does not have.
// second/README.md lays both streams out. It is a test program over `queries`, `reason_bytes`, `layout` (for words), `cases` and
// `streams`: all but the streams may change.
#![tactic(auto)]

ghost use Rattle.std.specs.Prelude.{◌≤◌, length};

use bits::BigEndian;
use reasons::Reason;
use settings::Refusal;
use std::io;
use std::io::Write;
use streams::Answer;

// Where the state, the words and the effect number stand behind the settings of a case, and its bytes.
const STATE: usize = 101;

const WORDS: usize = 219;

const EFFECT: usize = 239;

const CASE_BYTES: usize = 240;

// The bytes of a refusal number and a place, and those of a reason.
const REFUSAL_BYTES: usize = 5;

const REASON_BYTES: usize = 8;

// The longest line: two digits a byte, the space and the end.
const LINE_BYTES: usize = 2 * REFUSAL_BYTES + 2 * REASON_BYTES + 2;

fn ask(case: &[u8; CASE_BYTES]) -> Result<Reason, Refusal> {
    let st = cases::settings_at(case, 0);
    let x = cases::state_at(case, STATE);
    let w = layout::words_at(case, WORDS);
    let effect = u8::get(case, EFFECT);
    queries::why(st, x, w, effect)
}

// Writes the line of an answer; a query's refusal has place 0.
fn print<W: Write>(output: &mut W, number: u8, reason: &[u8]) -> io::Result<()>
    requires { length reason.now ≤ 8 }
{
    let mut head = [0u8; REFUSAL_BYTES];
    cases::put_refusal(&mut head, number, 0);
    let mut line = [0u8; LINE_BYTES];
    cases::print_line(output, &head, reason, b'\n', &mut line)
}

// Reason cases.
struct Reasons;

impl Answer<CASE_BYTES> for Reasons {
    // Writes the line that answers a case.
    fn answer<W: Write>(output: &mut W, case: &[u8; CASE_BYTES]) -> io::Result<()> {
        match ask(case) {
            Ok(reason) => {
                let mut bytes = [0u8; REASON_BYTES];
                reason_bytes::put_numbers(&mut bytes, 0, reason);
                print(output, 0, &bytes)
            }
            Err(refusal) => print(output, u8::from(refusal), b""),
        }
    }
}

fn main(rt: HostRuntime) {
    streams::answer_each::<CASE_BYTES, Reasons, _, _>(&mut rt.stdin(), &mut rt.stdout());
}
