//! Tests of `ccr_script` over its public calls: commands, bad lines, settings and the script of a seed.
#![tactic(auto)]

#[cfg(test)]
mod tests;
