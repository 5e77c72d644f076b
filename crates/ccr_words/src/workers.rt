// How many workers the words of the program ask for.
ghost use Rattle.std.specs.Prelude.{◌≡◌, ◌∷◌, [], map, string_bytes};
ghost use Rattle.std.specs.List.{before_first, after_first};
ghost use Rattle.ccr_words.specs.Workers.{apart as apart_in, is_equals_sign, workers_of};

use crate::numbers::number_in;

/// So many workers a run may have.
const MOST_WORKERS: u32 = 64;

/// How many workers the words behind the program's own name ask for, from 1 to 64, where they are `run --workers N` or
/// `run --workers=N`. The number has 1 to 9 decimal digits.
pub fn workers_in(words: &[String]) -> Option<u32>
    ensures { result ≡ workers_of (map string_bytes words.now) }
{
    match words {
        [op, word] => behind_run(op.as_str(), word.as_str()),
        [op, flag, number] => behind_run_apart(op.as_str(), flag.as_str(), number.as_str()),
        _ => None,
    }
}

fn behind_run(op: &str, word: &str) -> Option<u32>
    ensures { result ≡ workers_of (op.now ∷ word.now ∷ []) }
{
    if op != "run" {
        return None;
    }
    joined(word)
}

fn behind_run_apart(op: &str, flag: &str, number: &str) -> Option<u32>
    ensures { result ≡ workers_of (op.now ∷ flag.now ∷ number.now ∷ []) }
{
    if op != "run" {
        return None;
    }
    apart(flag, number)
}

// `--workers=N`.
fn joined(word: &str) -> Option<u32>
    ensures { result ≡ apart_in (before_first is_equals_sign word.now) (after_first is_equals_sign word.now) }
{
    let (flag, number) = word.split_once('=')?;
    apart(flag, number)
}

// `--workers N`.
fn apart(flag: &str, number: &str) -> Option<u32>
    ensures { result ≡ apart_in flag.now number.now }
{
    if flag != "--workers" {
        return None;
    }
    let workers = number_in(number)?;
    if workers == 0 || workers > MOST_WORKERS {
        return None;
    }
    Some(workers)
}
