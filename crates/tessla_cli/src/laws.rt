// Laws of code files and of saved runs, as the contracts of functions that do nothing.

ghost use Rattle.tessla_cli.specs.inner.FileLaws.{FilesRunAsMeant};
ghost use Rattle.tessla_cli.specs.inner.SavedLaws.{PartsAreOneRun, SavedRunsGoOn};

/// Code that is read of a file which `compile` has written of a specification: what is due by it is due by the specification, and where it
/// ends that ends so.
pub fn files_run_as_meant()
    ensures { FilesRunAsMeant }
{}

/// A run that goes on from what another has saved: before it stand the bytes and the text of that one, after all that stood before it.
pub fn saved_runs_go_on()
    ensures { SavedRunsGoOn }
{}

/// So where it ends, what both have printed is due of what both have read, as that of one run is.
pub fn parts_are_one_run()
    ensures { PartsAreOneRun }
{}
