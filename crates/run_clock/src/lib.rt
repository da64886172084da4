//! Time: a stopwatch and a sleep that can be paused, over whole nanoseconds in `u64`, and the definitions of counted
//! time (`specs/Counted.antt`), which the layers above cite. No clock is read: each call is given the moment `now`. It
//! stands on no other crate, and no call takes memory.
#![tactic(auto)]

mod due;
mod laws;
mod pausable_sleep;
mod poll;
mod sleep_state;
mod stopwatch;

pub use due::{due_from, sooner};
pub use laws::{
    idle_marks_count_nothing, idle_marks_need_no_call, passing_time_counts,
    same_moment_counts_nothing, time_adds_up,
};
pub use pausable_sleep::{PausableSleep, fires_now};
pub use poll::Poll;
pub use stopwatch::{StopwatchSnapshot, StopwatchStart};
