// The settings in which each row is reported.
use run_report::{FinalStatusLevel, OutputDisplay, ReportSettings, StatusLevel};

// Those of a run without words.
fn usual() -> ReportSettings {
    ReportSettings {
        status: StatusLevel::Pass,
        final_status: FinalStatusLevel::Fail,
        failure_output: OutputDisplay::Immediate,
        success_output: OutputDisplay::Never,
        color: false,
    }
}

// All, in colours, and outputs twice.
fn all() -> ReportSettings {
    ReportSettings {
        status: StatusLevel::All,
        final_status: FinalStatusLevel::All,
        failure_output: OutputDisplay::ImmediateFinal,
        success_output: OutputDisplay::ImmediateFinal,
        color: true,
    }
}

// Outputs at the end.
fn late() -> ReportSettings {
    ReportSettings {
        status: StatusLevel::Retry,
        final_status: FinalStatusLevel::Flaky,
        failure_output: OutputDisplay::Final,
        success_output: OutputDisplay::Final,
        color: false,
    }
}

// Levels, without outputs.
fn lines(status: StatusLevel, final_status: FinalStatusLevel) -> ReportSettings {
    ReportSettings {
        status,
        final_status,
        failure_output: OutputDisplay::Never,
        success_output: OutputDisplay::Never,
        color: false,
    }
}

/// The settings of this number.
pub fn settings_of(variant: u32) -> ReportSettings {
    match variant {
        0 => usual(),
        1 => all(),
        2 => late(),
        3 => lines(StatusLevel::None, FinalStatusLevel::None),
        _ => lines(StatusLevel::Slow, FinalStatusLevel::Slow),
    }
}
