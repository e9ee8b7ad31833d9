// What is promised of recordings (proofs/Theorems): the reader accepts exactly the encodings, refuses as its definitions say of the bytes,
// and finds the rows at their places. Document 01, "Recordings" and "Refusal numbers". These are laws over the definitions of `recording`,
// on which it rests. No function of `recording` needs them, so they stand apart: a wrong answer that is tried on the reader does not
// prove them again. How they are proved may change without moving a promise.
#![tactic(auto)]

ghost use Rattle.bits.specs.Numbers.{Bytes};

// Does nothing: its contract is the fact that some laws ask for. Whatever slice of bytes is lent, each number in it is below 256.
pub fn each_is_a_byte(s: &[u8])
    ensures { Bytes s.now }
{
    look();
}

// Does nothing: the kit tells what a lent slice holds only where a function calls another.
fn look() {}
