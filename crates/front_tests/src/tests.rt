// Small sources, with ample memory.

mod of_spec_printer;
