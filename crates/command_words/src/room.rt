// Which words stand after a command's name.

ghost use Rattle.std.specs.Prelude.{◌≡◌, ◌≤◌, ◌&&◌, ℕ, List, length, nat_le, slice_get};
ghost use Rattle.clap.specs.Matches.{first_value, found_of};
ghost use Rattle.command_words.specs.inner.Reader.{Holds, says};
ghost use Rattle.command_words.specs.Words.{Piece, agree, are_filled, fits, flags_fit, is_filled, one_room, options_fit, pair_room};
ghost use Rattle.command_words.specs.Words.{plains, run_room, why_room};

use clap::ArgMatches;

/// How many plain words stand after a command's name at least and at most, how often each option or flag on how a trace is read,
/// and how often each other one.
#[derive(Clone, Copy)]
pub struct Room {
    pub least: u64,
    pub most: u64,
    pub limits: u64,
    pub others: u64,
}

/// `SPEC`.
pub fn one_room() -> Room
    ensures { result ≡ one_room }
{
    Room {
        least: 1,
        most: 1,
        limits: 0,
        others: 0,
    }
}

/// `SPEC [TRACE]` with all options and flags.
fn run_room() -> Room
    ensures { result ≡ run_room }
{
    Room {
        least: 1,
        most: 2,
        limits: 1,
        others: 1,
    }
}

/// `SPEC TRACE NAME TIME` with the options and flags on how a trace is read.
pub fn why_room() -> Room
    ensures { result ≡ why_room }
{
    Room {
        least: 4,
        most: 4,
        limits: 1,
        others: 0,
    }
}

/// `SPEC NAME`, `SPEC FILE` or `KIND N`.
pub fn pair_room() -> Room
    ensures { result ≡ pair_room }
{
    Room {
        least: 2,
        most: 2,
        limits: 0,
        others: 0,
    }
}

/// How many plain words stand.
#[tactic(auto, using(crate::proofs::Rooms::four, crate::proofs::Rooms::three, crate::proofs::Rooms::two, crate::proofs::Rooms::one))]
fn count_words(matches: &ArgMatches<'_>) -> u64
    ensures { (ps : List Piece) → Holds ps (found_of matches.now) → result ≡ length (plains ps) }
{
    if matches.get_str("fourth").is_some() {
        return 4;
    }
    if matches.get_str("third").is_some() {
        return 3;
    }
    if matches.get_str("second").is_some() {
        return 2;
    }
    1
}

/// Whether an option, which stands once at most, stands no more often than it may.
#[tactic(auto, using(crate::proofs::Rooms::room_for_one, crate::proofs::Rooms::none_fits))]
fn option_fits(matches: &ArgMatches<'_>, id: &str, most: u64) -> bool
    ensures { (texts : List (List ℕ)) → first_value (found_of matches.now) id.now ≡ slice_get texts 0 → length texts ≤ 1
        → result ≡ nat_le (length texts) most }
{
    if most > 0 {
        return true;
    }
    matches.get_str(id).is_none()
}

/// Whether a flag does.
fn flag_fits(matches: &ArgMatches<'_>, id: &str, most: u64) -> bool
    ensures { (count : ℕ) → says (found_of matches.now) id.now (nat_le 1 count) → count ≤ 1 → result ≡ nat_le count most }
{
    if most > 0 {
        return true;
    }
    !matches.get_flag(id)
}

/// Whether each option stands no more often than it may.
fn options_fit(room: Room, matches: &ArgMatches<'_>) -> bool
    ensures { (ps : List Piece) → Holds ps (found_of matches.now) → result ≡ options_fit room ps }
{
    option_fits(matches, "until", room.others)
        && option_fits(matches, "instants", room.limits)
        && option_fits(matches, "bytes", room.limits)
        && option_fits(matches, "save", room.others)
        && option_fits(matches, "resume", room.others)
}

/// Whether each flag does.
fn flags_fit(room: Room, matches: &ArgMatches<'_>) -> bool
    ensures { (ps : List Piece) → Holds ps (found_of matches.now) → result ≡ flags_fit room ps }
{
    flag_fits(matches, "strict", room.limits) && flag_fits(matches, "stats", room.others)
}

/// Whether the pieces in the matches have room.
pub fn fits(room: Room, matches: &ArgMatches<'_>) -> bool
    ensures { (ps : List Piece) → Holds ps (found_of matches.now) → result ≡ fits room ps }
{
    let count = count_words(matches);
    room.least <= count
        && count <= room.most
        && options_fit(room, matches)
        && flags_fit(room, matches)
}

/// Whether an option stands.
fn has_value(matches: &ArgMatches<'_>, id: &str) -> bool
    ensures { (texts : List (List ℕ)) → first_value (found_of matches.now) id.now ≡ slice_get texts 0 → result ≡ nat_le 1 (length texts) }
{
    matches.get_str(id).is_some()
}

/// Whether the options and flags in the matches may stand together.
fn agree(matches: &ArgMatches<'_>) -> bool
    ensures { (ps : List Piece) → Holds ps (found_of matches.now) → result ≡ agree ps }
{
    let is_limited = has_value(matches, "instants")
        || has_value(matches, "bytes")
        || matches.get_flag("strict");
    !(has_value(matches, "save") && has_value(matches, "until"))
        && !(has_value(matches, "resume") && is_limited)
}

/// Whether the value of an option, where it stands, has a byte.
fn is_filled(matches: &ArgMatches<'_>, id: &str) -> bool
    ensures { result ≡ is_filled (first_value (found_of matches.now) id.now) }
{
    match matches.get_str(id) {
        Some(word) => !word.is_empty(),
        None => true,
    }
}

/// Whether the files after options have names.
fn are_filled(matches: &ArgMatches<'_>) -> bool
    ensures { (ps : List Piece) → Holds ps (found_of matches.now) → result ≡ are_filled ps }
{
    is_filled(matches, "save") && is_filled(matches, "resume")
}

/// Whether the pieces in the matches may ask for a run.
pub fn may_run(matches: &ArgMatches<'_>) -> bool
    ensures { (ps : List Piece) → Holds ps (found_of matches.now) → result ≡ (fits run_room ps && (agree ps && are_filled ps)) }
{
    fits(run_room(), matches) && (agree(matches) && are_filled(matches))
}
