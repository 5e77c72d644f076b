//! Tests of `ccr_meta` over its public calls: names, settings and the routes of documents.
#![tactic(auto)]

#[cfg(test)]
mod tests;
