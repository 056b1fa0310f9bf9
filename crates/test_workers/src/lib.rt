//! Tests of the workers of `kernel_workers`, one or two of them at a time, apart from it, so that it is proved once.
#![tactic(auto)]

#[cfg(test)]
mod tests;
