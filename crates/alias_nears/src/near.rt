// What stands near updates, as it is kept.

use alias_paths::numbers::Numbers;

/// The stored variables whose last values are roots of an update's source, and those that share with one of them.
#[derive(Drop)]
pub struct Sharers {
    pub stored: Numbers,
    pub all: Numbers,
}

/// Who shares with last values of an update's source, and where content begins that may be that of the source.
#[derive(Drop)]
pub struct Begun {
    pub sharers: Sharers,
    pub begins: Numbers,
}

/// Who shares with last values of an update's source, where content of the source comes around the update, and which variables of these
/// bypass the update.
#[derive(Drop)]
pub struct Near {
    pub sharers: Sharers,
    pub around: Numbers,
    pub bypassed: Numbers,
}

/// What is near each update of a set, in the order of the set, and the stored variables.
///
/// It is made once for a set, and serves the question for a conflict and that for pairs of steps.
#[derive(Drop)]
pub struct Nears {
    pub stored: Numbers,
    pub updates: Vec<Near>,
}
