//! Tests of the program as one call, over an outside in memory. The crate has no functions of its own.
#![tactic(auto)]

#[cfg(test)]
mod top_call;
