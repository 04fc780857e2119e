//! Tests of what no clause says and no script shows.
#![tactic(auto)]

#[cfg(test)]
mod tests;
