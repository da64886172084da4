// Theorems on what an auditor sees, over every legal journal whose run is over.
ghost use Rattle.run_laws_audit.specs.Due.{AccountsWereTold, CancelsWereTold, ScriptsWereTold, ToldIsJoined};
ghost use Rattle.run_laws_audit.specs.Told.{AccountsAreKept, CancelsAreKept, LimitsAreKept, PartsAreSubRuns};
ghost use Rattle.run_laws_audit.specs.Told.{ScriptsAreKept, ShapesAreKept, ToldIsKept};

/// What is told of a run that is over begins with the start of the run and ends with its finish; and in a stress run
/// the starts and finishes of sub-runs alternate between these, as many as have ended.
pub fn told_shapes_are_kept()
    ensures { ShapesAreKept }
{}

/// The parts of what is told of a run that is over are those of its sub-runs, in order: what each tells between its
/// begin and its end.
pub fn told_parts_are_sub_runs()
    ensures { PartsAreSubRuns }
{}

/// Each part of what is told of a run that is over tells each cause of its sub-run that rises above those before it,
/// and as killed exactly a second signal; and nothing starts after the first.
pub fn told_cancels_are_kept()
    ensures { CancelsAreKept }
{}

/// Each part of what is told of a run that is over, of a plan that has each id once and with plain statuses, tells of
/// each test of the plan what is due of it in its sub-run, and of no other test.
pub fn told_accounts_are_kept()
    ensures { AccountsAreKept }
{}

/// Each part of what is told of a run that is over, with plain statuses, tells of the setup scripts what is due of them
/// in its sub-run, one after the other, and no test starts while one runs.
pub fn told_scripts_are_kept()
    ensures { ScriptsAreKept }
{}

/// After each event of a part of what is told of a run that is over, of a plan that has each id once, the tests that
/// run keep the limits of the plan, and have slots of their own.
pub fn told_limits_are_kept()
    ensures { LimitsAreKept }
{}

/// What is told of a run that is over, of a plan that has each id once and with plain statuses, keeps that run.
pub fn told_events_are_kept()
    ensures { ToldIsKept }
{}

/// All that is told of a run that is over is what its sub-runs tell, in order.
pub fn told_of_sub_runs()
    ensures { ToldIsJoined }
{}

/// What is due of a sub-run that has ended is what it told, of each test of a plan that has each id once, of the setup
/// scripts and of cancels: by the statuses themselves, so also where their texts couldn't be read back.
pub fn what_is_due_was_told()
    ensures accounts { AccountsWereTold }
    ensures scripts { ScriptsWereTold }
    ensures cancels { CancelsWereTold }
{}
