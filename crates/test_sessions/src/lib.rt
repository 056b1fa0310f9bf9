//! Tests of `kernel_engine` and `kernel_replay`, apart from them, so that each is proved once. What can be told line by
//! line is a case of `test_engine`.
#![tactic(auto)]

#[cfg(test)]
mod tests;
