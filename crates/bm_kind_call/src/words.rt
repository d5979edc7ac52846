//! The words of the call.

ghost use Rattle.std.specs.Prelude.{◌≡◌, ◌↔◌, IsTrue, IfSome, IfNone};
ghost use Rattle.bm_kind_call.specs.Words.{NamesKind, IsNoKind, kind_word};

/// Whether a word is the first one of the call, `kind`.
pub fn is_kind_word(word: &str) -> bool
    ensures { IsTrue result ↔ (word.now ≡ kind_word) }
{
    word == "kind"
}

/// The word that names the job, where the words are `kind` and any other one.
pub fn kind_job(words: &[String]) -> Option<&str>
    ensures found { IfSome result (λ job. NamesKind words.now job.now) }
    ensures none { IfNone result (IsNoKind words.now) }
{
    match words {
        [name, job] => {
            if is_kind_word(name.as_str()) {
                Some(job.as_str())
            } else {
                None
            }
        }
        _ => None,
    }
}
