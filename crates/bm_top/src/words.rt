//! The words of a command.

ghost use Rattle.std.specs.Prelude.{◌≡◌, ◌≢◌, ◌↔◌, ℕ, ◌^◌, ◌<◌, ◌≤◌, IfSome, IfNone, IsTrue};
ghost use Rattle.std.specs.Prelude.{decimal};
ghost use Rattle.bm_top.specs.declared.words.Verb.{Verb};
ghost use Rattle.bm_top.specs.Words.{IsFlip, IsJobWords, NamesJob, IsCommand, IsNoFlip};
ghost use Rattle.bm_top.specs.Words.{IsNoCommand, verb_word};

use bm_base::MOST_ADDRESS_BITS;
use itoa::Buffer;

/// The numbers of the command `flip n b d m width c`.
#[derive(Clone, Copy, Debug, PartialEq, Eq)]
pub struct Flip {
    /// lg N: the bits of an address.
    pub n: u8,
    /// lg B: lg of the records of a block.
    pub b: u8,
    /// lg D: lg of the number of disks.
    pub d: u8,
    /// lg M: lg of the records of a memory load.
    pub m: u8,
    /// The bytes of a record.
    pub width: u16,
    /// What is XORed to each address.
    pub c: u64,
}

/// A command that has a job: its word is followed by any other one, which names the job.
#[derive(Clone, Copy, Debug, PartialEq, Eq)]
pub enum Verb {
    /// `new JOB`.
    New,
    /// `load JOB`.
    Load,
    /// `plan JOB`.
    Plan,
    /// `run JOB`.
    Run,
    /// `status JOB`.
    Status,
    /// `dump JOB`.
    Dump,
    /// `drop JOB`.
    Drop,
    /// `detect JOB`.
    Detect,
    /// `carry JOB`.
    Carry,
    /// `drill JOB`.
    Drill,
}

/// A command.
#[derive(Clone, Copy, Debug, PartialEq, Eq)]
pub enum Command {
    /// `flip n b d m width c`.
    Flip(Flip),
    /// A command that has a job.
    On(Verb),
}

/// The number that a word spells in its one way, where it is at most `most`.
///
/// That way is decimal digits with no sign and no leading zero, but for `0` itself.
pub fn word_number(word: &str, most: u64) -> Option<u64>
    ensures found { IfSome result (λ n. (n ≤ most) × (word.now ≡ decimal n)) }
    ensures none { IfNone result ((n : ℕ) → n ≤ most → word.now ≢ decimal n) }
{
    match word.parse::<u64>() {
        Ok(number) => {
            if number <= most && Buffer::new().format(number) == word {
                Some(number)
            } else {
                None
            }
        }
        Err(_) => None,
    }
}

// The number that a word spells, where it fits a byte.
fn byte_of(word: &str) -> Option<u8>
    ensures found { IfSome result (λ n. (n < 2 ^ 8) × (word.now ≡ decimal n)) }
    ensures none { IfNone result ((n : ℕ) → n < 2 ^ 8 → word.now ≢ decimal n) }
{
    match word_number(word, u64::from(u8::MAX)) {
        Some(number) => Some(number as u8),
        None => None,
    }
}

// The number that a word spells, where it fits a width.
fn width_of(word: &str) -> Option<u16>
    ensures found { IfSome result (λ n. (n < 2 ^ 16) × (word.now ≡ decimal n)) }
    ensures none { IfNone result ((n : ℕ) → n < 2 ^ 16 → word.now ≢ decimal n) }
{
    match word_number(word, u64::from(u16::MAX)) {
        Some(number) => Some(number as u16),
        None => None,
    }
}

// Whether c is an address of n bits, where a shape may have so many.
fn is_address(c: u64, n: u8) -> bool
    ensures { IsTrue result ↔ (n ≤ 52 → c < 2 ^ n) }
{
    n > MOST_ADDRESS_BITS || c < 1u64 << n
}

// The flip that the words spell, or nothing where they are none.
fn flip_of(words: &[String]) -> Option<Flip>
    ensures found { IfSome result (λ f. IsFlip words.now f) }
    ensures none { IfNone result (IsNoFlip words.now) }
{
    match words {
        [name, n, b, d, m, width, c] => {
            if name.as_str() != "flip" {
                return None;
            }
            let n = byte_of(n.as_str())?;
            let b = byte_of(b.as_str())?;
            let d = byte_of(d.as_str())?;
            let m = byte_of(m.as_str())?;
            let width = width_of(width.as_str())?;
            let c = word_number(c.as_str(), u64::MAX)?;
            if !is_address(c, n) {
                return None;
            }
            Some(Flip {
                n,
                b,
                d,
                m,
                width,
                c,
            })
        }
        _ => None,
    }
}

// The command that has a job and this word.
fn verb_of(word: &str) -> Option<Verb>
    ensures found { IfSome result (λ verb. word.now ≡ verb_word verb) }
    ensures none { IfNone result ((verb : Verb) → word.now ≢ verb_word verb) }
{
    match word {
        "new" => Some(Verb::New),
        "load" => Some(Verb::Load),
        "plan" => Some(Verb::Plan),
        "run" => Some(Verb::Run),
        "status" => Some(Verb::Status),
        "dump" => Some(Verb::Dump),
        "drop" => Some(Verb::Drop),
        "detect" => Some(Verb::Detect),
        "carry" => Some(Verb::Carry),
        "drill" => Some(Verb::Drill),
        _ => None,
    }
}

// The command that has a job and is spelled by the words.
fn job_command(words: &[String]) -> Option<Verb>
    ensures found { IfSome result (λ verb. IsJobWords words.now verb) }
    ensures none { IfNone result ((verb : Verb) → ¬ IsJobWords words.now verb) }
{
    match words {
        [name, _] => verb_of(name.as_str()),
        _ => None,
    }
}

/// The word that names the job, where the words are those of a command that has one.
pub fn job_word(words: &[String]) -> Option<&str>
    ensures found { IfSome result (λ job. (verb : Verb) × NamesJob words.now verb job.now) }
    ensures none { IfNone result ((verb : Verb) → ¬ IsJobWords words.now verb) }
{
    match words {
        [name, job] => match verb_of(name.as_str()) {
            Some(_) => Some(job.as_str()),
            None => None,
        },
        _ => None,
    }
}

/// The command that the words spell, or nothing where they are none.
pub fn command_of(words: &[String]) -> Option<Command>
    ensures found { IfSome result (λ command. IsCommand words.now command) }
    ensures none { IfNone result (IsNoCommand words.now) }
{
    if let Some(verb) = job_command(words) {
        return Some(Command::On(verb));
    }
    match flip_of(words) {
        Some(flip) => Some(Command::Flip(flip)),
        None => None,
    }
}
