// What of a run's progress is shown.
ghost use Rattle.std.specs.Prelude.{◌≡◌};
ghost use Rattle.std.specs.Option.{option_copied};
ghost use Rattle.run_progress.specs.Settings.{said_truth, setting_value, first_setting, shown_where};

/// How a run's progress is shown.
#[derive(Clone, Copy, Debug, PartialEq, Eq)]
pub enum ShowProgress {
    /// As the terminal allows. Then passed tests may be left out of what is printed.
    Auto { suppress_success: bool },
    /// Not at all.
    None,
    /// By a counter before each line.
    Counter,
    /// By the list of running tests.
    Running,
}

impl Default for ShowProgress {
    ghost use Rattle.std.specs.Prelude.{◌≡◌, false};
    ghost use Rattle.run_progress.specs.declared.show.ShowProgress.TheVariants as shows;

    ghost is_default = { λ s. s ≡ shows.Auto false };

    fn default() -> ShowProgress {
        ShowProgress::Auto {
            suppress_success: false,
        }
    }
}

/// Whether the terminal's own progress is shown.
#[derive(Clone, Copy, Debug, PartialEq, Eq)]
pub enum ShowTerminalProgress {
    Yes,
    No,
}

/// Where it may be set.
#[derive(Clone, Copy, Debug, PartialEq, Eq)]
pub enum TermSetting {
    /// On the command line.
    CliOption(Option<bool>),
    /// By the environment variable, where it is `true` or `false`.
    Env,
    /// In a file.
    File(Option<bool>),
}

impl ShowTerminalProgress {
    /// By the first setting that has a value, or else where the terminal supports it. `env` is the variable's text.
    ///
    /// ```text
    /// let settings = [TermSetting::CliOption(None), TermSetting::Env, TermSetting::File(Some(false))];
    /// ShowTerminalProgress::from_settings(&settings, Some("true"), false) == ShowTerminalProgress::Yes
    /// ```
    pub fn from_settings(settings: &[TermSetting], env: Option<&str>, supported: bool) -> Self
        ensures { result ≡ shown_where (first_setting (option_copied env.entry) supported settings.now) }
    {
        for setting in settings {
            if let Some(shown) = value_of(env, *setting) {
                return shown_where(shown);
            }
        }
        shown_where(supported)
    }
}

fn truth_of(text: &str) -> Option<bool>
    ensures { result ≡ said_truth text.now }
{
    if text == "true" {
        Some(true)
    } else if text == "false" {
        Some(false)
    } else {
        None
    }
}

fn value_of(env: Option<&str>, setting: TermSetting) -> Option<bool>
    ensures { result ≡ setting_value (option_copied env.entry) setting }
{
    match setting {
        TermSetting::CliOption(value) | TermSetting::File(value) => value,
        TermSetting::Env => match env {
            Some(text) => truth_of(text),
            None => None,
        },
    }
}

fn shown_where(shown: bool) -> ShowTerminalProgress
    ensures { result ≡ shown_where shown }
{
    if shown {
        ShowTerminalProgress::Yes
    } else {
        ShowTerminalProgress::No
    }
}
