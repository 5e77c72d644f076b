// The words of a text.
ghost use Rattle.std.specs.Prelude.{◌≡◌, ◌<◌, ◌∷◌, [], length, IfOk, IfSome, MatchOption};
ghost use Rattle.std.specs.List.{list_any, position_or_len, prefix_len};
ghost use Rattle.std.specs.Str.{str_to_ascii_lowercase, bytes_eq};
ghost use Rattle.ccr_doc.specs.Words.{is_word_byte as is_word_byte_of, runs_of, tokens_of, have_common_token};

use crate::texts::Token;
use std::alloc::{AllocError, Global};

/// The tokens of a text, in its order: the longest runs of ASCII letters, ASCII digits and characters
/// past ASCII, with ASCII letters in lower case.
pub fn tokens(alloc: Global, text: &str) -> Result<Vec<Token>, AllocError>
    ensures { IfOk result (λ found. found.items ≡ tokens_of text.now) }
{
    let mut found = Vec::new(alloc);
    let mut rest = text.as_bytes();
    while let Some((word, after)) = first_word(rest) {
        found.push(Token::lowered(alloc, word)?)?;
        rest = after;
    }
    Ok(found)
}

/// Whether the two texts have a token in common. Takes no memory, and time by the product of their
/// lengths.
pub fn shares_token(left: &str, right: &str) -> bool
    ensures { result ≡ have_common_token left.now right.now }
{
    let mut rest = left.as_bytes();
    while let Some((word, after)) = first_word(rest) {
        if has_word(right.as_bytes(), word) {
            return true;
        }
        rest = after;
    }
    false
}

fn is_word_byte(byte: u8) -> bool
    ensures { result ≡ is_word_byte_of byte }
{
    byte.is_ascii_alphanumeric() || byte >= 128
}

// How many bytes stand before the first word.
fn word_start(text: &[u8]) -> usize
    ensures { result ≡ position_or_len is_word_byte_of text.now }
{
    text.iter().take_while(|byte| !is_word_byte(**byte)).count()
}

// How long the word is that the text begins with.
fn word_len(text: &[u8]) -> usize
    ensures { result ≡ prefix_len is_word_byte_of text.now }
{
    text.iter().take_while(|byte| is_word_byte(**byte)).count()
}

// The first longest run of the bytes of words, and what follows it.
fn first_word(text: &[u8]) -> Option<(&[u8], &[u8])>
    ensures first { MatchOption result (runs_of is_word_byte_of text.now ≡ [])
        (λ cut. runs_of is_word_byte_of text.now
        ≡ cut.0.now ∷ runs_of is_word_byte_of cut.1.now) }
    ensures shorter { IfSome result (λ cut. length cut.1.now < length text.now) }
{
    let start = word_start(text);
    if start >= text.len() {
        return None;
    }
    let (_, from) = text.split_at(start);
    let len = word_len(from);
    Some(from.split_at(len))
}

// Whether a word of the text is the given one but for the case of ASCII letters.
fn has_word(text: &[u8], word: &[u8]) -> bool
    ensures { result ≡ list_any (bytes_eq (str_to_ascii_lowercase word.now)) (tokens_of text.now) }
{
    let mut rest = text;
    while let Some((other, after)) = first_word(rest) {
        if word.eq_ignore_ascii_case(other) {
            return true;
        }
        rest = after;
    }
    false
}
