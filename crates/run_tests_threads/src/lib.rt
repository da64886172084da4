//! Tests of what no contract can say: that threads share a run to its end, and that workers run at the same time; of
//! real children, of the clock, and of the words that it makes; and that the example's supervisor answers.
#![tactic(auto)]

#[cfg(test)]
mod children;
#[cfg(test)]
mod clock;
#[cfg(test)]
mod gate;
#[cfg(test)]
mod given;
#[cfg(test)]
mod plans;
#[cfg(test)]
mod scripts;
#[cfg(test)]
mod supervisor;
#[cfg(test)]
mod threads;
#[cfg(test)]
mod workers;
