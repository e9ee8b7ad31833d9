// The one place where a listing leaves the program, part after part. What has gone, and whether it was written, can be set here alone,
// so that no other function can count a part that it has not handed over, or tell of a write that failed where none did.
ghost use Rattle.std.specs.Prelude.{◌≡◌, None, Some, ◌+◌, ◌^◌, ◌<◌, length, IfOk, IfErr, OnOk};
ghost use Rattle.std.specs.Io.KnownBytes.{Appends};
ghost use Rattle.printing.specs.Sent.{NextPart, sent_after};

use std::io::{Error, Write};

// What was handed over: how many bytes of the listing have gone, and whether all of it was written; if not, the error of the write that failed.
#[derive(Clone, Copy)]
pub struct Sent {
    gone: usize,
    failed: Option<Error>,
}

// A write that failed: what was handed over with it, and its error.
#[derive(Clone, Copy)]
pub struct Unwritten {
    pub sent: Sent,
    pub error: Error,
}

// Nothing yet.
pub fn nothing() -> Sent
    ensures { (result.gone ≡ 0) × (result.failed ≡ None) }
{
    Sent {
        gone: 0,
        failed: None,
    }
}

// Writes the next part of the listing of `s`, with reasons or without. After a write that failed there is no next part.
pub fn flush<W: Write>(
    output: &mut W,
    s: &[u8],
    why: bool,
    sent: Sent,
    part: &[u8],
) -> Result<Sent, Unwritten>
    requires written { sent.failed ≡ None }
    requires next_part { NextPart why s.now sent.gone part.now }
    requires part_bound { sent.gone + length part.now < 2 ^ 64 }
    ensures gone_after { (sent_after result).gone ≡ sent.gone + length part.now }
    ensures written { IfOk result (λ after. after.failed ≡ None) }
    ensures failed { IfErr result (λ unwritten. unwritten.sent.failed ≡ Some unwritten.error) }
    ensures handed { OnOk result (Appends (W.contents output.old) (W.contents output.new) part.now) }
{
    let gone = sent.gone + part.len();
    match output.write_all(part) {
        Ok(()) => Ok(Sent { gone, failed: None }),
        Err(error) => Err(Unwritten {
            sent: Sent {
                gone,
                failed: Some(error),
            },
            error,
        }),
    }
}
