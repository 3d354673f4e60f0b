// Laws of the register machine, as the contracts of functions that do nothing.

ghost use Rattle.register_machine.specs.Laws.{UpdatesLeaveWhatIsRead, RunsShowTheSolution, PlansLookAlike, RunsStand, LedgersCountCopies};
ghost use Rattle.register_machine.specs.Renamed.{RenamedInstants, RenamedRuns, RunsAreOne};
ghost use Rattle.register_machine.specs.Short.{InstantsKeepShort, OperationsKeepShort};
ghost use Rattle.register_machine.specs.Tidy.{InstantsKeepTidy};
ghost use Rattle.register_machine.specs.Laws.{CellsAreBounded, SoundInstantsGoOn, RunsExist, RunsGoOn, LaterLinesLeaveRuns};

/// With a fine plan, each update in place leaves the view of each register that is still read.
pub fn updates_leave_what_is_read()
    ensures { UpdatesLeaveWhatIsRead }
{}

/// Prints and root faults of a run with a fine plan are those of the solution.
pub fn runs_show_the_solution()
    ensures { RunsShowTheSolution }
{}

/// So updates in place cannot be seen: whichever happen in place, prints and root faults are the same.
pub fn plans_look_alike()
    ensures { PlansLookAlike }
{}

/// Between instants the last registers have the latest events, and the delays are pending that are pending in the solution.
pub fn runs_stand()
    ensures { RunsStand }
{}

/// The ledger has what the updates outside the plan's set have copied, up to the last instant, that of a root fault included.
pub fn ledgers_count_copies()
    ensures { LedgersCountCopies }
{}

/// Between instants there are at most as many cells as stored variables.
pub fn cells_are_bounded()
    ensures { CellsAreBounded }
{}

/// From where a run has come, each instant without a root fault goes on to its end.
pub fn sound_instants_go_on()
    ensures { SoundInstantsGoOn }
{}

/// There is a run over all instants before the first root fault.
pub fn runs_exist()
    ensures { RunsExist }
{}

/// A run goes on over the next instant, and over a time that is none.
pub fn runs_go_on()
    ensures { RunsGoOn }
{}

/// Runs over the instants below a time do not depend on lines from that time on.
pub fn later_lines_leave_runs()
    ensures { LaterLinesLeaveRuns }
{}

/// An instant with other handles is an instant.
pub fn renamed_instants()
    ensures { RenamedInstants }
{}

/// A run with other handles is a run.
pub fn renamed_runs()
    ensures { RenamedRuns }
{}

/// Two runs over the same instants come to states that differ in their handles alone.
pub fn runs_are_one()
    ensures { RunsAreOne }
{}

/// An operation with short literals makes short values of short ones.
pub fn operations_keep_short()
    ensures { OperationsKeepShort }
{}

/// An instant with short inputs leaves short texts, where it was given short ones.
pub fn instants_keep_short()
    ensures { InstantsKeepShort }
{}

/// An instant keeps nothing but what is kept, where nothing else was.
pub fn instants_keep_tidy()
    ensures { InstantsKeepTidy }
{}
