// Laws of systems that are alike, as the contracts of functions that do nothing.

ghost use Rattle.alike_systems.specs.Laws.{AlikeEitherWay, AlikeThroughOther, AlikeReadAlike};
ghost use Rattle.alike_systems.specs.Laws.{AlikeSolveAlike, AlikeSayTheSame, AlikeHaveOneSolution};

/// Each of two systems that are alike is like the other.
pub fn alike_either_way()
    ensures { AlikeEitherWay }
{}

/// And what is like one that is like a third is like the third.
pub fn alike_through_other()
    ensures { AlikeThroughOther }
{}

/// Of a trace both read the same lines, and refuse the same.
pub fn alike_read_alike()
    ensures { AlikeReadAlike }
{}

/// What solves one solves the other.
pub fn alike_solve_alike()
    ensures { AlikeSolveAlike }
{}

/// Streams have the same instants, root faults, text and end in both.
pub fn alike_say_the_same()
    ensures { AlikeSayTheSame }
{}

/// What runs has the same stream in both, where each is solved by streams of its own.
pub fn alike_have_one_solution()
    ensures { AlikeHaveOneSolution }
{}
