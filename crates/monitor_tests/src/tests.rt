// Runs that are saved and go on, with ample memory.

mod of_states;
mod samples;
