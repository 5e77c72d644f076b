//! Tests of `ccr_doc`, `ccr_query`, `ccr_auto` and `ccr_lease` over their public calls: what texts they read, and the texts of their refusals.
#![tactic(auto)]

#[cfg(test)]
mod auto_tests;
#[cfg(test)]
mod doc_tests;
#[cfg(test)]
mod lease_tests;
#[cfg(test)]
mod query_tests;
