//! The words of a batch.

ghost use Rattle.std.specs.Prelude.{◌≡◌, ◌≢◌, ◌↔◌, ℕ, IsTrue, IfSome, IfNone, length, drop};
ghost use Rattle.bm_top.specs.Words.{texts_of};
ghost use Rattle.bm_batch_call.specs.Words.{AreEnough, BeginsBatch, IsBatchWords, IsNoBatch, batch_word};

use bm_top::word_number;

// The most bays of a batch.
const MOST_BAYS: usize = 64;

/// What a batch does first.
#[derive(Clone, Copy, Debug, PartialEq, Eq)]
pub enum BatchVerb {
    /// `batch` makes the disks of each bay, and loads its part of the input.
    Batch,
    /// `batch-run` attaches the disks of each bay, which are loaded.
    Run,
}

/// A batch: what it does first, and the seed of its first turns.
#[derive(Clone, Copy, Debug, PartialEq, Eq)]
pub struct BatchWords {
    /// What it does first.
    pub verb: BatchVerb,
    /// The seed.
    pub seed: u64,
}

// The batch of a first word.
fn verb_of(word: &str) -> Option<BatchVerb>
    ensures found { IfSome result (λ verb. word.now ≡ batch_word verb) }
    ensures none { IfNone result ((verb : BatchVerb) → word.now ≢ batch_word verb) }
{
    match word {
        "batch" => Some(BatchVerb::Batch),
        "batch-run" => Some(BatchVerb::Run),
        _ => None,
    }
}

/// Whether a word is the first one of a batch, `batch` or `batch-run`.
pub fn begins_batch(word: &str) -> bool
    ensures { IsTrue result ↔ BeginsBatch word.now }
{
    verb_of(word).is_some()
}

/// The batch that the words spell, or nothing where they are none.
pub fn batch_of(words: &[String]) -> Option<BatchWords>
    ensures found { IfSome result (λ batch.
        IsBatchWords words.now batch.verb batch.seed (texts_of (drop 2 words.now))) }
    ensures none { IfNone result (IsNoBatch words.now) }
{
    if words.len() < 3 || words.len() > 2 + MOST_BAYS {
        return None;
    }
    let verb = verb_of(words[0].as_str())?;
    let seed = word_number(words[1].as_str(), u64::MAX)?;
    Some(BatchWords { verb, seed })
}

/// The words that name the jobs, where the words are those of a batch: a batch of so many words
/// is handed as many job sources and bays.
pub fn batch_jobs(words: &[String]) -> Option<&[String]>
    ensures found { IfSome result (λ jobs. (verb : BatchVerb) × (seed : ℕ)
        × IsBatchWords words.now verb seed (texts_of jobs.now)) }
    ensures enough { IfSome result (λ jobs.
        AreEnough words.now (length jobs.now) (length jobs.now)) }
    ensures none { IfNone result (IsNoBatch words.now) }
{
    match batch_of(words) {
        Some(_) => Some(&words[2..]),
        None => None,
    }
}
