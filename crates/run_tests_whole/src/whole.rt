// A run on threads with keepers, an outside and who stops the program in memory: that signals come to a child in their
// order, and what becomes of the run.
mod gate;
mod given;
mod hearing;
mod recorded;
mod rows;
