// Each call answers, where there is memory.

mod of_trace_reader;
mod of_tsl_world;
