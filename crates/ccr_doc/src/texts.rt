// Words of a text as they are compared.
ghost use Rattle.std.specs.Prelude.{◌≡◌, IfOk};

use std::alloc::{AllocError, Global};
use std::marker::Model;

/// A word of a text: ASCII letters in lower case, ASCII digits and characters past ASCII.
#[derive(Debug, Drop)]
pub struct Token {
    bytes: Vec<u8>,
}

impl Model for Token {
    ghost use Rattle.std.specs.Prelude.{ℕ, List};

    ghost Value = { List ℕ };

    ghost view = { λ a. a.bytes.items };
}

impl Token {
    ghost use Rattle.std.specs.Str.{str_to_ascii_lowercase};

    /// The word with its ASCII letters in lower case.
    pub(crate) fn lowered(alloc: Global, word: &[u8]) -> Result<Token, AllocError>
        ensures { IfOk result (λ token. token ≡ str_to_ascii_lowercase word.now) }
    {
        let bytes = word
            .iter()
            .map(|byte| byte.to_ascii_lowercase())
            .collect(alloc)?;
        Ok(Token { bytes })
    }

    /// The token's text in UTF-8.
    pub fn as_bytes(&self) -> &[u8]
        ensures { result.now ≡ self.now }
    {
        self.bytes.as_slice()
    }

    pub fn copy(&self, alloc: Global) -> Result<Token, AllocError>
        ensures { IfOk result (λ other. other ≡ self.now) }
    {
        let bytes = Vec::from_slice(alloc, self.as_bytes())?;
        Ok(Token { bytes })
    }
}
