ghost use Rattle.std.specs.Prelude.{◌≡◌, ◌++◌, ◌∷◌, ◌↔◌, IsTrue, MatchOption, option_copied};
ghost use Rattle.ccr_auto.specs.Patterns.{HasNoStar, Matches, after_piece, is_match, some_end};

/// Whether the name matches the pattern, in which each `*` stands for any bytes, also none, and every
/// other byte for itself.
///
/// Each piece of the pattern between two stars is put at its leftmost place, so that no choice is ever
/// taken back: for each star the name is gone through at most once, with one comparison of the piece at
/// each place. It takes no memory.
#[tactic(auto, using(crate::proofs::Matching::relation_from_test))]
pub fn matches(pattern: &str, name: &str) -> bool
    ensures relation { IsTrue result ↔ Matches pattern.now name.now }
    ensures value { result ≡ is_match pattern.now name.now }
{
    matches_bytes(pattern.as_bytes(), name.as_bytes())
}

#[tactic(auto, using(crate::proofs::Matching::plain_test, crate::proofs::Matching::front_missing, crate::proofs::Matching::front_taken))]
fn matches_bytes(pattern: &[u8], name: &[u8]) -> bool
    ensures { result ≡ is_match pattern.now name.now }
{
    let Some((piece, pattern_rest)) = split_star(pattern) else {
        return name == pattern;
    };
    let Some(name_rest) = name.strip_prefix(piece) else {
        return false;
    };
    matches_end(pattern_rest, name_rest)
}

// Whether some end of the name matches.
#[tactic(auto, using(crate::proofs::Matching::plain_end, crate::proofs::Matching::end_missing, crate::proofs::Matching::end_taken))]
fn matches_end(pattern: &[u8], name: &[u8]) -> bool
    ensures { result ≡ some_end (is_match pattern.now) name.now }
{
    let mut left = pattern;
    let mut end = name;
    while let Some((piece, pattern_rest)) = split_star(left) {
        let Some(name_rest) = after_piece(end, piece) else {
            return false;
        };
        left = pattern_rest;
        end = name_rest;
    }
    end.ends_with(left)
}

// What comes before the first star, and what comes after it.
fn split_star(pattern: &[u8]) -> Option<(&[u8], &[u8])>
    ensures { MatchOption result (HasNoStar pattern.now) (λ parts. HasNoStar parts.0.now × (pattern.now ≡ parts.0.now ++ 42 ∷ parts.1.now)) }
{
    for (at, byte) in pattern.iter().enumerate() {
        if *byte == b'*' {
            return Some((&pattern[..at], &pattern[at + 1..]));
        }
    }
    None
}

// What comes after the leftmost place of the piece.
#[tactic(auto, using(crate::proofs::Matching::piece_here, crate::proofs::Matching::piece_nowhere, crate::proofs::Matching::piece_later))]
fn after_piece<'a>(name: &'a [u8], piece: &[u8]) -> Option<&'a [u8]>
    ensures { option_copied result ≡ after_piece piece.now name.now }
{
    let mut end = name;
    loop {
        if let Some(rest) = end.strip_prefix(piece) {
            return Some(rest);
        }
        let Some((_, shorter)) = end.split_first() else {
            return None;
        };
        end = shorter;
    }
}
