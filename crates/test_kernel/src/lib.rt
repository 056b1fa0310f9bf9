//! Tests of whole kernels of `kernel_workers`, apart from it, so that it is proved once.
#![tactic(auto)]

#[cfg(test)]
mod tests;
