//! The program of jobs as a library: its top call `run` reads a line of jobs and the turns of their waves, runs the
//! waves that are due, and writes the lines of their events and of the state of each job. It stands on run_jobs, and
//! writes its lines as run_cli does.
#![tactic(auto)]

mod ends;
mod fault;
mod fields;
mod jobs_line;
mod next;
mod runs;
mod state_lines;
mod top;
mod wave_lines;

pub use fault::JobsFault;
pub use next::next_wave;
pub use top::run;
