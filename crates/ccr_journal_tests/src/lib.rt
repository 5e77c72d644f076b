//! Tests of `ccr_journal` over its public calls: journals, their events and replies.
#![tactic(auto)]

#[cfg(test)]
mod tests;
