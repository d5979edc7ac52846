//! The words that tell how a command ended.

ghost use Rattle.std.specs.Prelude.{◌≡◌, ◌+◌, ◌≤◌, ◌++◌, codes, length, decimal};
ghost use Rattle.arrayvec.specs.ArrayString.{array_string_len};
ghost use Rattle.bm_top.specs.StatusWords.{words_of};

use crate::Status;
use crate::job_words::{fault_words, field_name};
use arrayvec::ArrayString;
use bm_text::push_number;

/// The words of a status. They take no memory.
pub fn status_words(status: &Status) -> ArrayString<128>
    ensures words { result.bytes ≡ words_of status.now }
    ensures short { array_string_len result ≤ 96 }
{
    let mut words = ArrayString::new();
    match status {
        Status::Done => words.push_str("done"),
        Status::OutOfMemory => words.push_str("out of memory"),
        Status::Usage => words.push_str("usage"),
        Status::JobFault => words.push_str("job fault"),
        Status::JobText => words.push_str("job text"),
        Status::JobField { which } => push_text(&mut words, "job field ", field_name(*which)),
        Status::JobShape { rule } => push_number(&mut words, "job shape rule ", *rule),
        Status::JobMap { fault } => push_text(&mut words, "job map ", fault_words(fault).as_str()),
        Status::DataFault => words.push_str("input fault"),
        Status::DataShort { got } => push_number(&mut words, "input short ", *got),
        Status::DataLong => words.push_str("input long"),
        Status::RackFault => words.push_str("rack fault"),
        Status::NoDisks => words.push_str("no disks"),
        Status::WrongDims => words.push_str("wrong dims"),
        Status::Exists => words.push_str("disks exist"),
        Status::NotLoaded => words.push_str("not loaded"),
        Status::OtherShape => words.push_str("other shape"),
        Status::OtherJob => words.push_str("other job"),
        Status::NotDone { done, all } => push_not_done(&mut words, *done, *all),
        Status::NoJob => words.push_str("no job"),
        Status::BadPage { page } => push_number(&mut words, "bad page ", *page),
        Status::SinkFault => words.push_str("output fault"),
        Status::OutOfRange { x, y } => push_pair(&mut words, "out of range ", *x, *y),
        Status::NotAffine { x, y, want } => {
            push_pair(&mut words, "not affine ", *x, *y);
            push_number(&mut words, " ", *want);
        }
        Status::NotPermutation { x } => push_number(&mut words, "not a permutation ", *x),
        Status::BatchShape { bay } => push_number(&mut words, "batch shape ", *bay),
    }
    words
}

// Puts a label and a text at the end of the words.
fn push_text(words: &mut ArrayString<128>, label: &str, text: &str)
    requires label { length label.now ≤ 20 }
    requires text { length text.now ≤ 40 }
    requires room { array_string_len words.old ≤ 64 }
    ensures words { words.new.bytes ≡ words.old.bytes ++ label.now ++ text.now }
    ensures short { array_string_len words.new ≤ array_string_len words.old + 60 }
{
    words.push_str(label);
    words.push_str(text);
}

// Puts how many passes are done, and of how many, at the end of the words.
fn push_not_done(words: &mut ArrayString<128>, done: u16, all: u16)
    requires room { array_string_len words.old ≤ 20 }
    ensures words { words.new.bytes
        ≡ words.old.bytes ++ codes "not done " ++ decimal done ++ codes " of " ++ decimal all }
    ensures short { array_string_len words.new ≤ array_string_len words.old + 64 }
{
    push_number(words, "not done ", done);
    push_number(words, " of ", all);
}

// Puts a label and two numbers in decimal, with a space between them, at the end of the words.
fn push_pair(words: &mut ArrayString<128>, label: &str, one: u64, other: u64)
    requires label { length label.now ≤ 20 }
    requires room { array_string_len words.old ≤ 20 }
    ensures words { words.new.bytes
        ≡ words.old.bytes ++ label.now ++ decimal one ++ codes " " ++ decimal other }
    ensures short { array_string_len words.new ≤ array_string_len words.old + 64 }
{
    push_number(words, label, one);
    push_number(words, " ", other);
}
