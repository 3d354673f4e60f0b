// How a run over files in memory ended.

use tsl_world::MemoryWorld;

/// What a run left.
#[derive(Drop)]
pub struct Left {
    pub status: u8,
    pub world: MemoryWorld,
}

/// The status, the output and the message of a run.
#[derive(Clone, Copy)]
pub struct End<'a> {
    pub status: u8,
    pub out: &'a str,
    pub err: &'a str,
}

/// The run ended so, and its world was told of each call.
pub fn has_ended(left: &Left, end: End<'_>) -> bool {
    let is_so = left.status == end.status
        && left.world.out() == end.out.as_bytes()
        && left.world.err() == end.err.as_bytes();
    is_so && left.world.is_told()
}

/// With status 0 and this output.
pub fn prints(out: &str) -> End<'_> {
    End {
        status: 0,
        out,
        err: "",
    }
}

/// With this status and this message, and nothing is printed.
pub fn refusal(status: u8, err: &str) -> End<'_> {
    End {
        status,
        out: "",
        err,
    }
}
