//! Tests of `iopub_queue` and `iopub_relay`, apart from them, so that each is proved once.
#![tactic(auto)]

#[cfg(test)]
mod tests;
