// A finding in words, written at a place of a lent buffer: each function answers the place after what it wrote, and all else stays.
// It rests on `findings` for what is wrong and on `bits` for numbers and text. How a sentence is put may change without moving a contract;
// the words are specs/Sentences.
#![tactic(auto)]

ghost use Rattle.std.specs.Prelude.{◌≡◌, ◌+◌, ◌≤◌, length};
ghost use Rattle.wording.specs.Puts.{Puts};
ghost use Rattle.sentences.specs.Sentences.{word_text as word_text_of, fault_text as fault_text_of, count_ends as count_ends_of, count_wrong as count_wrong_of};
ghost use Rattle.sentences.specs.Sentences.{entry_ends, entry_name, entry_wrong, sentence, most_words};

use findings::{Fault, Finding, RowWord};
use layout::Kind;

// What is wrong with a word of a row.
#[tactic(auto, unfolding(crate::specs::Sentences::word_text))]
fn word_text(word: RowWord) -> &'static [u8]
    ensures { result.now ≡ word_text_of word }
{
    match word {
        RowWord::Values => b"its values word has a bit of an absent cause",
        RowWord::Bad => b"its bad word has a bit of an absent cause",
        RowWord::Mask => b"its mask word has a bit of an absent cause",
        RowWord::RequireReset => b"its require reset word has a bit of an absent effect",
        RowWord::ResetPermit => b"its reset permit word has a bit of an absent effect",
        RowWord::StartPermit => b"its start permit word has a bit of an absent effect",
        RowWord::Reset => b"its reset word has a bit of an absent effect",
        RowWord::ForcePermit => b"its force permit is not 0 or 1",
        RowWord::ForceTrip => b"its force trip word has a bit of an absent effect",
        RowWord::ForceNormal => b"its force normal word has a bit of an absent effect",
    }
}

// What is wrong with an entry.
#[tactic(auto, unfolding(crate::specs::Sentences::fault_text))]
fn fault_text(fault: Fault) -> &'static [u8]
    ensures { result.now ≡ fault_text_of fault }
{
    match fault {
        Fault::CauseCount => b"its cause count is not 1 to 16",
        Fault::Options => b"its options have a bit above 2",
        Fault::Period => b"its period is not 1 to 1,000",
        Fault::NoCause => b"it has no cause",
        Fault::AbsentCause => b"it has a cause above the cause count",
        Fault::Delay => b"its delay is above 3,600,000",
        Fault::Hold => b"its hold is not 1 to 1,000,000",
        Fault::Word(word) => word_text(word),
        Fault::BothForces => b"an effect is in both force words",
        Fault::SeveralForced => b"several effects are forced without option bit 2",
        Fault::LastScan => b"it ends after scan 1,000,000,000",
    }
}

// The bytes end in a count.
#[tactic(auto, unfolding(crate::specs::Sentences::count_ends))]
fn count_ends(section: Kind) -> &'static [u8]
    ensures { result.now ≡ count_ends_of section }
{
    match section {
        Kind::Block => b"the bytes end in the block count",
        Kind::Effects => b"the bytes end in the effect count",
        Kind::Rows => b"the bytes end in the row count",
    }
}

// A count is wrong.
#[tactic(auto, unfolding(crate::specs::Sentences::count_wrong))]
fn count_wrong(section: Kind) -> &'static [u8]
    ensures { result.now ≡ count_wrong_of section }
{
    match section {
        Kind::Block => b"the block count is not 1",
        Kind::Effects => b"the effect count is not 1 to 16",
        Kind::Rows => b"the row count is not 1 to 2,048",
    }
}

// The name of an entry.
#[tactic(auto, unfolding(crate::specs::Sentences::entry_name, crate::specs::Sentences::numbered))]
fn put_entry(out: &mut [u8], at: usize, section: Kind, entry: u16) -> usize
    requires { at + length (entry_name section entry) ≤ length out.old }
    ensures { Puts out.old at (entry_name section entry) result out.new }
{
    match section {
        Kind::Block => bits::put_text(out, at, b"block"),
        Kind::Effects => wording::put_named(out, at, b"effect ", entry as u64),
        Kind::Rows => wording::put_named(out, at, b"row ", entry as u64),
    }
}

// The bytes end in an entry. It names a block otherwise than `put_entry`, so that one function for both would take three texts.
#[tactic(auto, unfolding(crate::specs::Sentences::entry_ends, crate::specs::Sentences::numbered))]
fn put_entry_end(out: &mut [u8], at: usize, section: Kind, entry: u16) -> usize
    requires { at + length (entry_ends section entry) ≤ length out.old }
    ensures { Puts out.old at (entry_ends section entry) result out.new }
{
    match section {
        Kind::Block => bits::put_text(out, at, b"the bytes end in the block"),
        Kind::Effects => wording::put_named(out, at, b"the bytes end in effect ", entry as u64),
        Kind::Rows => wording::put_named(out, at, b"the bytes end in row ", entry as u64),
    }
}

// An entry is wrong.
fn put_wrong(out: &mut [u8], at: usize, section: Kind, entry: u16, fault: Fault) -> usize
    requires { at + length (entry_wrong section entry fault) ≤ length out.old }
    ensures { Puts out.old at (entry_wrong section entry fault) result out.new }
{
    let named = put_entry(out, at, section, entry);
    let next = bits::put_text(out, named, b": ");
    bits::put_text(out, next, fault_text(fault))
}

// The words of a finding, with no line end; the place after them. Where nothing is wrong there are none.
#[tactic(auto, using(crate::proofs::Room::count_ends_most, crate::proofs::Room::count_wrong_most, crate::proofs::Room::entry_ends_most, crate::proofs::Room::entry_wrong_most), unfolding(crate::specs::Sentences::sentence))]
pub fn put_finding(out: &mut [u8], at: usize, finding: Finding) -> usize
    requires { at + most_words ≤ length out.old }
    ensures value { Puts out.old at (sentence finding) result out.new }
    ensures upper_bound { result ≤ at + most_words }
{
    match finding {
        Finding::Nothing => at,
        Finding::CountEnds { section } => bits::put_text(out, at, count_ends(section)),
        Finding::EntryEnds { section, entry } => put_entry_end(out, at, section, entry),
        Finding::CountWrong { section } => bits::put_text(out, at, count_wrong(section)),
        Finding::EntryWrong {
            section,
            entry,
            fault,
        } => put_wrong(out, at, section, entry, fault),
        Finding::Spare => bits::put_text(out, at, b"bytes follow the last row"),
    }
}
