//! Tests of `ccr_op`, `ccr_segment` and `ccr_wire` over their public calls: the bytes of operations, segment files and frames.
#![tactic(auto)]

#[cfg(test)]
mod op_tests;
#[cfg(test)]
mod spelling_tests;
