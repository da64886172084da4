//! Tests of the lowest layers, of the lines of output, of live progress and of stress runs, through their public calls:
//! worked rows, texts as they print, each call that takes memory once with ample memory, and reads and writes that fail
//! in mid-stream. Where memory is wanting a test ends at once, so that no helper has a second way out: each value that
//! lives across one makes the proof of a test dear. A helper asserts the answer of a small one, and names the row.
#![tactic(auto)]

#[cfg(test)]
mod bytes;
#[cfg(test)]
mod clock;
#[cfg(test)]
mod commands;
#[cfg(test)]
mod environments;
#[cfg(test)]
mod line_reporter;
#[cfg(test)]
mod lines;
#[cfg(test)]
mod output;
#[cfg(test)]
mod progress;
#[cfg(test)]
mod progress_events;
#[cfg(test)]
mod rows;
#[cfg(test)]
mod runners;
#[cfg(test)]
mod stress;
