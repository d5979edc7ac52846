//! The words of a command over a mirror.

ghost use Rattle.std.specs.Prelude.{◌≡◌, ◌≢◌, ◌↔◌, IsTrue, IfSome, IfNone, drop};
ghost use Rattle.bm_mirror.specs.declared.sides.Side.{Side};
ghost use Rattle.bm_top.specs.declared.words.Verb.{Verb};
ghost use Rattle.bm_mirror_call.specs.Words.{IsMirrorCommand, IsNoMirrorCommand, NamesMirrorJob, NamesSide};
ghost use Rattle.bm_mirror_call.specs.Words.{mirror_word, side_word};

use bm_mirror::Side;
use bm_top::{Command, command_of, job_word};

/// A command over a mirror: which side is in at first, and what is done.
#[derive(Clone, Copy, Debug, PartialEq, Eq)]
pub struct MirrorCommand {
    /// The side that is in at first, which the user trusts.
    pub first: Side,
    /// What is done.
    pub command: Command,
}

/// Whether a word is the first one of the call, `mirror`.
pub fn is_mirror_word(word: &str) -> bool
    ensures { IsTrue result ↔ (word.now ≡ mirror_word) }
{
    word == "mirror"
}

// The side of a word.
fn side_of(word: &str) -> Option<Side>
    ensures found { IfSome result (λ side. word.now ≡ side_word side) }
    ensures none { IfNone result ((side : Side) → word.now ≢ side_word side) }
{
    match word {
        "left" => Some(Side::Left),
        "right" => Some(Side::Right),
        _ => None,
    }
}

// The side that the words name first, where they begin as those of a mirror.
fn first_side(words: &[String]) -> Option<Side>
    ensures found { IfSome result (λ side. NamesSide words.now side) }
    ensures none { IfNone result ((side : Side) → ¬ NamesSide words.now side) }
{
    if words.len() < 2 || !is_mirror_word(words[0].as_str()) {
        return None;
    }
    side_of(words[1].as_str())
}

/// The command over a mirror that the words spell, or nothing where they are none.
pub fn mirror_of(words: &[String]) -> Option<MirrorCommand>
    ensures found { IfSome result (λ spelled. IsMirrorCommand words.now spelled.first spelled.command) }
    ensures none { IfNone result (IsNoMirrorCommand words.now) }
{
    match first_side(words) {
        Some(first) => match command_of(&words[2..]) {
            Some(command) => Some(MirrorCommand { first, command }),
            None => None,
        },
        None => None,
    }
}

/// The word that names the job, where the words are those of a command over a mirror that has one.
pub fn mirror_job(words: &[String]) -> Option<&str>
    ensures found { IfSome result (λ job. (side : Side) × (verb : Verb)
        × NamesMirrorJob words.now side verb job.now) }
    ensures none { IfNone result ((side : Side) (verb : Verb) → ¬ IsMirrorCommand words.now side (Command.On verb)) }
{
    match first_side(words) {
        Some(_) => job_word(&words[2..]),
        None => None,
    }
}
