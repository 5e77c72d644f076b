//! Sources of documents: what a source says, and when it is refused.
//!
//! A source is a JSON text (RFC 8259) with an object at its top. Its document is the list of its fields,
//! each a dotted name with one scalar. A text's tokens are the words that a search for words compares.
#![tactic(auto)]

mod documents;
mod scalars;
mod sources;
mod texts;
mod words;

pub use documents::{Doc, Field};
pub use scalars::Scalar;
pub use sources::{BadSource, compact, parse};
pub use texts::Token;
pub use words::{shares_token, tokens};
