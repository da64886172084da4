// Which lines are shown, and when the outputs of tests are.
ghost use Rattle.std.specs.Prelude.{◌≡◌};
ghost use Rattle.run_report.specs.Levels.{final_rank, is_at_end, is_at_once, level_rank, shows, shows_at_end};

/// Down to what a line is shown as the run goes on: each level shows what those before it show.
#[derive(Clone, Copy, Drop)]
pub enum StatusLevel {
    None,
    Fail,
    Retry,
    Slow,
    Leak,
    Pass,
    Skip,
    All,
}

impl StatusLevel {
    // Its place in the order of levels.
    fn rank(self) -> u8
        ensures { result ≡ level_rank self }
    {
        match self {
            StatusLevel::None => 0,
            StatusLevel::Fail => 1,
            StatusLevel::Retry => 2,
            StatusLevel::Slow => 3,
            StatusLevel::Leak => 4,
            StatusLevel::Pass => 5,
            StatusLevel::Skip => 6,
            StatusLevel::All => 7,
        }
    }

    // Whether it shows a line of another level.
    pub(crate) fn shows(self, line: StatusLevel) -> bool
        ensures { result ≡ shows self line }
    {
        line.rank() <= self.rank()
    }
}

/// Down to what a finish is shown again at the end of a run or a sub-run.
#[derive(Clone, Copy, Drop)]
pub enum FinalStatusLevel {
    None,
    Fail,
    Flaky,
    Slow,
    Skip,
    Leak,
    Pass,
    All,
}

impl FinalStatusLevel {
    // The same of a finish.
    fn rank(self) -> u8
        ensures { result ≡ final_rank self }
    {
        match self {
            FinalStatusLevel::None => 0,
            FinalStatusLevel::Fail => 1,
            FinalStatusLevel::Flaky => 2,
            FinalStatusLevel::Slow => 3,
            FinalStatusLevel::Skip => 4,
            FinalStatusLevel::Leak => 5,
            FinalStatusLevel::Pass => 6,
            FinalStatusLevel::All => 7,
        }
    }

    // Whether it shows a finish of another level.
    pub(crate) fn shows(self, finish: FinalStatusLevel) -> bool
        ensures { result ≡ shows_at_end self finish }
    {
        finish.rank() <= self.rank()
    }
}

/// When the output of a finished test is shown.
#[derive(Clone, Copy, Drop)]
pub enum OutputDisplay {
    /// Behind the line of the finish.
    Immediate,
    /// Behind that line, and at the end of the run or the sub-run.
    ImmediateFinal,
    /// At that end.
    Final,
    Never,
}

impl OutputDisplay {
    // Whether it is shown behind the line of the finish.
    pub(crate) fn is_at_once(self) -> bool
        ensures { result ≡ is_at_once self }
    {
        matches!(
            self,
            OutputDisplay::Immediate | OutputDisplay::ImmediateFinal
        )
    }

    // Whether it is shown at the end.
    pub(crate) fn is_at_end(self) -> bool
        ensures { result ≡ is_at_end self }
    {
        matches!(self, OutputDisplay::Final | OutputDisplay::ImmediateFinal)
    }
}

/// What a report shows, and how.
#[derive(Clone, Copy, Drop)]
pub struct ReportSettings {
    pub status: StatusLevel,
    pub final_status: FinalStatusLevel,
    /// Of tests that failed.
    pub failure_output: OutputDisplay,
    /// Of tests that passed.
    pub success_output: OutputDisplay,
    pub color: bool,
}
