//! Tests of `top_calls` by its public calls: whole sessions. There is nothing else here.
#![tactic(auto)]

#[cfg(test)]
mod top_calls_tests;
