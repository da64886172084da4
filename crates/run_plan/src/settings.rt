// What a word sets, by its name.
ghost use Rattle.std.specs.Prelude.{◌≡◌};
ghost use Rattle.run_plan.specs.Settings.{file_named, pick_named, setting_named, way_named, flag_named};

/// A file that is read.
#[derive(Clone, Copy, Drop)]
pub enum FileSetting {
    List,
    Cfg,
    Config,
}

/// Which tests run.
#[derive(Clone, Copy, Drop)]
pub enum PickSetting {
    Filter,
    Skip,
    RunIgnored,
    Partition,
}

/// How they run.
#[derive(Clone, Copy, Drop)]
pub enum WaySetting {
    Profile,
    Threads,
    Retries,
    Flaky,
    MaxFail,
    StressCount,
    StressDuration,
}

/// What a value is for.
#[derive(Clone, Copy, Drop)]
pub enum Setting {
    File(FileSetting),
    Pick(PickSetting),
    Way(WaySetting),
}

/// What a word without a value says.
#[derive(Clone, Copy, Drop)]
pub enum Flag {
    Exact,
    IgnoreDefaultFilter,
    NoFailFast,
    NoCapture,
}

fn file_named(name: &str) -> Option<FileSetting>
    ensures { result ≡ file_named name.now }
{
    match name {
        "--list" => Some(FileSetting::List),
        "--cfg" => Some(FileSetting::Cfg),
        "--config" => Some(FileSetting::Config),
        _ => None,
    }
}

fn pick_named(name: &str) -> Option<PickSetting>
    ensures { result ≡ pick_named name.now }
{
    match name {
        "-E" | "--filterset" => Some(PickSetting::Filter),
        "--skip" => Some(PickSetting::Skip),
        "--run-ignored" => Some(PickSetting::RunIgnored),
        "--partition" => Some(PickSetting::Partition),
        _ => None,
    }
}

fn way_named(name: &str) -> Option<WaySetting>
    ensures { result ≡ way_named name.now }
{
    match name {
        "-P" | "--profile" => Some(WaySetting::Profile),
        "-j" | "--test-threads" => Some(WaySetting::Threads),
        "--retries" => Some(WaySetting::Retries),
        "--flaky-result" => Some(WaySetting::Flaky),
        "--max-fail" => Some(WaySetting::MaxFail),
        "--stress-count" => Some(WaySetting::StressCount),
        "--stress-duration" => Some(WaySetting::StressDuration),
        _ => None,
    }
}

/// What a value after this name is for.
pub fn setting_named(name: &str) -> Option<Setting>
    ensures { result ≡ setting_named name.now }
{
    if let Some(file) = file_named(name) {
        return Some(Setting::File(file));
    }
    if let Some(pick) = pick_named(name) {
        return Some(Setting::Pick(pick));
    }
    Some(Setting::Way(way_named(name)?))
}

/// What this name says with no value.
pub fn flag_named(name: &str) -> Option<Flag>
    ensures { result ≡ flag_named name.now }
{
    match name {
        "--exact" => Some(Flag::Exact),
        "--ignore-default-filter" => Some(Flag::IgnoreDefaultFilter),
        "--no-fail-fast" => Some(Flag::NoFailFast),
        "--no-capture" => Some(Flag::NoCapture),
        _ => None,
    }
}
