//! The test that a wrong body of `jmsg_envelope` names. All else that no contract says of envelopes is in the cases of
//! `test_messages`.
#![tactic(auto)]

#[cfg(test)]
mod tests;
