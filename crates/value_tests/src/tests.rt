// Calls that the program does not make, and long runs of those that it makes, with ample memory.

mod of_agenda;
mod of_aggregate_store;
mod of_delay_timers;
mod of_gate_circuits;
mod of_lift_func;
