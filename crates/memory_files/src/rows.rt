// Tables of whole runs: the words, the specification, the trace, and how the run ends.

use crate::end::End;
use crate::program::{Program, ends};
use std::alloc::Global;
use tsl_value::memory::NoMemory;

/// A run over a trace on the standard input, and its end.
pub struct Row<'a> {
    pub words: &'a [&'a str],
    pub spec: &'a str,
    pub trace: &'a str,
    pub status: u8,
    pub out: &'a str,
    pub err: &'a str,
}

/// Each run ends as its row says, and its world was told of each call.
pub fn all_end<P: Program>(program: &P, alloc: Global, rows: &[Row<'_>]) -> Result<bool, NoMemory> {
    for row in rows {
        let end = End {
            status: row.status,
            out: row.out,
            err: row.err,
        };
        if !ends(program, alloc, row.words, row.spec, row.trace, 64, end)? {
            return Ok(false);
        }
    }
    Ok(true)
}
