// What the words of the program ask for, where one thread does it.
ghost use Rattle.std.specs.Prelude.{◌≡◌, ◌∷◌, [], map, string_bytes};
ghost use Rattle.ccr_words.specs.Forms.{form_of as form_of_words, sample_of};

use crate::numbers::number_in;

/// So many writes and deletes a generated script may have.
const MOST_WRITES: u32 = 200_000;

/// A form of the program's words.
#[derive(Clone, Copy, Debug, PartialEq, Eq)]
pub enum Form {
    /// `replay`: the script is read.
    Replay,
    /// `sample SEED WRITES`: a script of so many writes and deletes is made from the seed.
    Sample { seed: u32, writes: u32 },
}

/// The form that the words behind the program's own name are of, if any. A number has 1 to 9 decimal digits, and there are
/// at most 200,000 writes.
pub fn form_of(words: &[String]) -> Option<Form>
    ensures { result ≡ form_of_words (map string_bytes words.now) }
{
    match words {
        [op] => replay_form(op.as_str()),
        [op, seed, writes] => sample_form(op.as_str(), seed.as_str(), writes.as_str()),
        _ => None,
    }
}

fn replay_form(op: &str) -> Option<Form>
    ensures { result ≡ form_of_words (op.now ∷ []) }
{
    if op == "replay" {
        return Some(Form::Replay);
    }
    None
}

fn sample_form(op: &str, seed: &str, writes: &str) -> Option<Form>
    ensures { result ≡ form_of_words (op.now ∷ seed.now ∷ writes.now ∷ []) }
{
    if op != "sample" {
        return None;
    }
    let seed = number_in(seed)?;
    let writes = number_in(writes)?;
    if writes > MOST_WRITES {
        return None;
    }
    Some(Form::Sample { seed, writes })
}
