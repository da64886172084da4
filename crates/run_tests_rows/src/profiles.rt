// Rows of profiles: what one gives a test that each of its overrides and rules matches, or the path of its fault.

use run_capture::{List, Mem, Text};
use run_events::{FlakyResult, MaxFail, RetryPolicy};
use run_profile::{
    Cfg, Origin, Profile, ProfileError, Project, TestSettings, read_profile, script_order,
};
use std::alloc::Global;

// The facts of the platform that the rows are for.
fn facts(alloc: Global) -> Mem<List<Text>> {
    let mut facts = List::new();
    for fact in ["unix", "target_os=\"linux\""] {
        facts.push(alloc, Text::from_str(alloc, fact)?)?;
    }
    Ok(facts)
}

fn platform(alloc: Global) -> Mem<Cfg> {
    let triple = Text::from_str(alloc, "x86_64-unknown-linux-gnu")?;
    let facts = facts(alloc)?;
    Ok(Cfg { triple, facts })
}

// A setting with where it comes from: `o` and the place of an override, `p` and that of a profile, or `u`.
fn with_origin(alloc: Global, name: &str, value: u64, origin: Origin) -> Mem<String> {
    let (kind, place) = match origin {
        Origin::Override(place) => ('o', place),
        Origin::Plain(level) => ('p', level),
        Origin::Usual => ('u', 0),
    };
    Ok(format!(in alloc; " {name}={value}{kind}{place}")?)
}

fn retry_count(policy: RetryPolicy) -> u64 {
    match policy {
        RetryPolicy::Fixed { count, .. } => u64::from(count),
        RetryPolicy::Exponential { count, .. } => u64::from(count),
    }
}

fn flaky_number(flaky: FlakyResult) -> u64 {
    match flaky {
        FlakyResult::Pass => 1,
        FlakyResult::Fail => 0,
    }
}

// The numbers of a test's settings, of four processors and as many threads.
fn settings_text(alloc: Global, settings: &TestSettings) -> Mem<String> {
    let priority = settings.priority.value;
    let weight = u64::from(settings.weight.value.count(4, 4));
    let words = settings.extra_args.value.len() as u64;
    let numbers = [
        (
            "retries",
            retry_count(settings.retries.value),
            settings.retries.origin,
        ),
        (
            "flaky",
            flaky_number(settings.flaky.value),
            settings.flaky.origin,
        ),
        ("slow", settings.slow.value.period, settings.slow.origin),
        ("leak", settings.leak.value.period, settings.leak.origin),
        ("weight", weight, settings.weight.origin),
        ("words", words, settings.extra_args.origin),
    ];
    let mut text = format!(in alloc; " priority={priority}")?;
    for (name, value, origin) in numbers {
        text.push_str(with_origin(alloc, name, value, origin)?.as_str())?;
    }
    Ok(text)
}

// The name of a test's group, or `-`.
fn group_text(alloc: Global, settings: &TestSettings) -> Mem<String> {
    match &settings.group.value {
        Some(name) => {
            let name = name.as_str();
            Ok(format!(in alloc; " group={name}")?)
        }
        None => Ok(format!(in alloc; " group=-")?),
    }
}

// After how many failures a run gives up: 0 for never.
fn failures(profile: &Profile) -> u32 {
    match profile.max_fail() {
        MaxFail::Count { max_fail, .. } => max_fail,
        MaxFail::All => 0,
    }
}

fn run_text(alloc: Global, profile: &Profile) -> Mem<String> {
    let threads = profile.threads().count(4);
    let failures = failures(profile);
    let timeout = profile.run.global_timeout.unwrap_or(0);
    Ok(format!(in alloc; "threads={threads} fail={failures} timeout={timeout}")?)
}

// The scripts that run before a test, in the order of the file.
fn scripts_text(alloc: Global, profile: &Profile, file: &str, rules: &[bool]) -> Mem<String> {
    let mut text = format!(in alloc; " scripts=")?;
    match script_order(alloc, file)? {
        Some(order) => {
            for name in order.as_slice() {
                if profile.wants_script(name.as_str(), rules) {
                    text.push_str(name.as_str())?;
                    text.push_str(";")?;
                }
            }
        }
        None => text.push_str("?")?,
    }
    Ok(text)
}

// So many truth values.
fn all_true(alloc: Global, count: usize) -> Mem<Vec<bool>> {
    let mut truths = Vec::new(alloc);
    for _ in 0..count {
        truths.push(true)?;
    }
    Ok(truths)
}

fn project_text(alloc: Global, file: &str, project: &Project) -> Mem<String> {
    let profile = &project.profile;
    let matches = all_true(alloc, profile.overrides.len())?;
    let rules = all_true(alloc, profile.rules.len())?;
    let settings = profile.settings_of(alloc, matches.as_slice())?;
    let mut text = run_text(alloc, profile)?;
    text.push_str(settings_text(alloc, &settings)?.as_str())?;
    text.push_str(group_text(alloc, &settings)?.as_str())?;
    text.push_str(scripts_text(alloc, profile, file, rules.as_slice())?.as_str())?;
    Ok(text)
}

// The profile of a name; none where memory is wanting or the file is no TOML.
fn read_in(alloc: Global, file: &str, name: &str) -> Option<Result<Project, ProfileError>> {
    let table = toml::table_from_str(alloc, file).ok()?;
    let cfg = platform(alloc).ok()?;
    let project = read_profile(alloc, &table, name, &cfg);
    drop(cfg);
    drop(table);
    Some(project)
}

// Where a profile is wrong.
fn fault_text(alloc: Global, error: &ProfileError) -> Option<String> {
    match error {
        ProfileError::Refused { path, .. } => {
            let path = path.as_str();
            format!(in alloc; "at {path}").ok()
        }
        ProfileError::OutOfMemory => None,
    }
}

fn given_text(alloc: Global, file: &str, project: Project) -> Option<String> {
    let text = project_text(alloc, file, &project);
    drop(project);
    text.ok()
}

/// What the profile of a name gives, or the path of its fault; none where memory is wanting or the file is no TOML.
pub fn profile_row(alloc: Global, file: &str, name: &str) -> Option<String> {
    match read_in(alloc, file, name)? {
        Ok(project) => given_text(alloc, file, project),
        Err(error) => fault_text(alloc, &error),
    }
}
