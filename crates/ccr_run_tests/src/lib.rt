//! Tests of `ccr_run` over its public call: whole scripts with their answers.
#![tactic(auto)]

#[cfg(test)]
mod tests;
