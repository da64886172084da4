//! Tests of runs whose signals are delivered: of keepers with real children (`keep`), and of runs in memory (`whole`).
#![tactic(auto)]

#[cfg(test)]
mod keep;
#[cfg(test)]
mod whole;
