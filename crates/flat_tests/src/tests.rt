// Each call with ample memory, on a small system or on the systems of `sample_systems`.

mod of_event_why;
mod of_flat_slice;
mod of_plain_solver;
mod of_register_code;
mod small_system;
