// Numbers in words.
ghost use Rattle.std.specs.Prelude.{◌≡◌};
ghost use Rattle.std.specs.Char.{is_ascii_digit};
ghost use Rattle.std.specs.List.{list_all};
ghost use Rattle.ccr_words.specs.Numbers.{is_number as is_number_text, number_in as number_of_text};

/// The numbers of words have at most so many digits.
const MOST_DIGITS: usize = 9;

/// The number that a word of 1 to 9 decimal digits is.
pub(crate) fn number_in(word: &str) -> Option<u32>
    ensures { result ≡ number_of_text word.now }
{
    if !is_number(word.as_bytes()) {
        return None;
    }
    word.parse().ok()
}

#[tactic(auto, using(crate::proofs::Digits::telling))]
fn is_number(word: &[u8]) -> bool
    ensures { result ≡ is_number_text word.now }
{
    if word.is_empty() {
        return false;
    }
    if word.len() > MOST_DIGITS {
        return false;
    }
    are_digits(word)
}

fn are_digits(word: &[u8]) -> bool
    ensures { result ≡ list_all is_ascii_digit word.now }
{
    word.iter().all(|byte| byte.is_ascii_digit())
}
