// The words of the command `run`: what it shows, and what it records and writes.
use run_report::{FinalStatusLevel, OutputDisplay, ReportSettings, StatusLevel};

/// When the report has colours.
#[derive(Clone, Copy, Drop)]
pub enum Color {
    /// Where standard error is a terminal, unless the environment has NO_COLOR.
    Auto,
    Always,
    Never,
}

/// Whether a bar of what runs is shown.
#[derive(Clone, Copy, Drop)]
pub enum Progress {
    /// Where standard error is a terminal, and standard output is none.
    Auto,
    Bar,
    None,
}

/// What `run` was asked for, option by option.
#[derive(Drop)]
pub struct RunWords<'a> {
    pub record: Option<&'a str>,
    pub junit: Option<&'a str>,
    pub color: Option<Color>,
    pub progress: Option<Progress>,
    status: Option<StatusLevel>,
    final_status: Option<FinalStatusLevel>,
    failure_output: Option<OutputDisplay>,
    success_output: Option<OutputDisplay>,
}

fn color_of(word: &str) -> Option<Color> {
    match word {
        "auto" => Some(Color::Auto),
        "always" => Some(Color::Always),
        "never" => Some(Color::Never),
        _ => None,
    }
}

fn progress_of(word: &str) -> Option<Progress> {
    match word {
        "auto" => Some(Progress::Auto),
        "bar" => Some(Progress::Bar),
        "none" => Some(Progress::None),
        _ => None,
    }
}

fn status_level_of(word: &str) -> Option<StatusLevel> {
    match word {
        "none" => Some(StatusLevel::None),
        "fail" => Some(StatusLevel::Fail),
        "retry" => Some(StatusLevel::Retry),
        "slow" => Some(StatusLevel::Slow),
        "leak" => Some(StatusLevel::Leak),
        "pass" => Some(StatusLevel::Pass),
        "skip" => Some(StatusLevel::Skip),
        "all" => Some(StatusLevel::All),
        _ => None,
    }
}

fn final_level_of(word: &str) -> Option<FinalStatusLevel> {
    match word {
        "none" => Some(FinalStatusLevel::None),
        "fail" => Some(FinalStatusLevel::Fail),
        "flaky" => Some(FinalStatusLevel::Flaky),
        "slow" => Some(FinalStatusLevel::Slow),
        "skip" => Some(FinalStatusLevel::Skip),
        "leak" => Some(FinalStatusLevel::Leak),
        "pass" => Some(FinalStatusLevel::Pass),
        "all" => Some(FinalStatusLevel::All),
        _ => None,
    }
}

fn display_of(word: &str) -> Option<OutputDisplay> {
    match word {
        "immediate" => Some(OutputDisplay::Immediate),
        "immediate-final" => Some(OutputDisplay::ImmediateFinal),
        "final" => Some(OutputDisplay::Final),
        "never" => Some(OutputDisplay::Never),
        _ => None,
    }
}

// Sets what was not set yet, and answers whether that and its word were right.
fn set<T: Drop>(place: &mut Option<T>, value: Option<T>) -> bool {
    if place.is_some() {
        return false;
    }
    *place = value;
    place.is_some()
}

// Whether a word is the name of an option.
fn is_option(word: &str) -> bool {
    matches!(
        word,
        "--record"
            | "--junit"
            | "--color"
            | "--show-progress"
            | "--status-level"
            | "--final-status-level"
            | "--failure-output"
            | "--success-output"
    )
}

impl<'a> RunWords<'a> {
    fn none() -> RunWords<'a> {
        RunWords {
            record: None,
            junit: None,
            color: None,
            progress: None,
            status: None,
            final_status: None,
            failure_output: None,
            success_output: None,
        }
    }

    // Takes an option with its value, and answers whether both are right.
    fn take(&mut self, option: &str, value: &'a str) -> bool {
        match option {
            "--record" => set(&mut self.record, Some(value)),
            "--junit" => set(&mut self.junit, Some(value)),
            "--color" => set(&mut self.color, color_of(value)),
            "--show-progress" => set(&mut self.progress, progress_of(value)),
            "--status-level" => set(&mut self.status, status_level_of(value)),
            "--final-status-level" => set(&mut self.final_status, final_level_of(value)),
            "--failure-output" => set(&mut self.failure_output, display_of(value)),
            "--success-output" => set(&mut self.success_output, display_of(value)),
            _ => false,
        }
    }

    /// What the report shows, with colours or without.
    pub fn settings(&self, color: bool) -> ReportSettings {
        ReportSettings {
            status: self.status.unwrap_or(StatusLevel::Pass),
            final_status: self.final_status.unwrap_or(FinalStatusLevel::Fail),
            failure_output: self.failure_output.unwrap_or(OutputDisplay::Immediate),
            success_output: self.success_output.unwrap_or(OutputDisplay::Never),
            color,
        }
    }
}

/// What the words after `run` ask for, or the first that is wrong. The value of an option stands behind a blank or an
/// equals sign.
pub fn run_words_of(words: &[String]) -> Result<RunWords<'_>, &str> {
    let mut asked = RunWords::none();
    let mut open = None;
    for word in words {
        let word = word.as_str();
        let (option, value) = match open {
            Some(option) => (option, Some(word)),
            None => match word.split_once('=') {
                Some((option, value)) => (option, Some(value)),
                None => (word, None),
            },
        };
        open = None;
        match value {
            Some(value) if asked.take(option, value) => {}
            None if is_option(option) => open = Some(option),
            _ => return Err(word),
        }
    }
    match open {
        Some(option) => Err(option),
        None => Ok(asked),
    }
}

/// What the words after `show` ask for, or the first that is wrong: they are those of `run` that say what is shown.
pub fn show_words_of(words: &[String]) -> Result<RunWords<'_>, &str> {
    let asked = run_words_of(words)?;
    if asked.record.is_some() {
        return Err("--record");
    }
    if asked.junit.is_some() {
        return Err("--junit");
    }
    if asked.progress.is_some() {
        return Err("--show-progress");
    }
    Ok(asked)
}
