//! Auto-follow: patterns that say which new indices of a remote cluster are followed, and under which
//! names (Elastic reference, auto-follow patterns).
#![tactic(auto)]

mod follow;
mod pattern;

pub use follow::{AutoFault, AutoFollow, Decision};
pub use pattern::matches;
