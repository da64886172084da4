// The profiles that one inherits from another, and what they give together.
ghost use Rattle.std.specs.Prelude.{◌≡◌, [], ◌∷◌, ◌++◌, codes, option_map, Err, IfErr, IfOk, Ok};
ghost use Rattle.toml.specs.Data.{get_member, table};
ghost use Rattle.toml.specs.View.{view, table_view};
ghost use Rattle.run_profile.specs.Refusals.{Agrees};
ghost use Rattle.run_profile.specs.Fields.{nothing_or, only_names, refused_at};
ghost use Rattle.run_profile.specs.declared.errors.Fault.TheVariants.{Circle};
ghost use Rattle.run_profile.specs.Levels.{base_of, base_said, chain, groups_read, joined};
ghost use Rattle.run_profile.specs.Levels.{level_at, level_of, named_profile, profile_from, profile_in};
ghost use Rattle.run_profile.specs.Levels.{profile_path, project_of, root_keys, shared_of};
ghost use Rattle.run_profile.specs.Scripts.{scripts_read};

use crate::both::{both, both_there};
use crate::cfg::Cfg;
use crate::errors::{Fault, ProfileError, dotted, refused, refused_at};
use crate::fields::{only_names, optional_text};
use crate::group_table::groups_from;
use crate::groups::TestGroup;
use crate::level_keys::{is_default, only_profile_keys};
use crate::lists::{added, appended, before};
use crate::overrides::overrides_at;
use crate::run_keys::{RunKeys, run_keys_from};
use crate::said::said_from;
use crate::script_rules::rules_at;
use crate::script_table::scripts_from;
use crate::scripts::{ScriptRule, SetupScript};
use crate::settings::{Override, Profile, Said};
use crate::version::{VersionsAsked, versions_at};
use run_capture::{List, Mem, Text};
use std::alloc::Global;
use toml::{Table, Value};

/// What the table of one profile says.
#[derive(Drop)]
pub struct Level {
    pub said: Said,
    pub overrides: List<Override>,
    pub rules: List<ScriptRule>,
    pub run: RunKeys,
}

/// What a project's file gives under a profile.
#[derive(Drop)]
pub struct Project {
    /// In the order of their names.
    pub groups: List<TestGroup>,
    /// In the order of their names.
    pub scripts: List<SetupScript>,
    pub versions: VersionsAsked,
    /// The names of the chosen profile, of those that it inherits, and `default`, in this order.
    pub names: List<Text>,
    pub profile: Profile,
}

/// How many profiles may inherit from each other: a chain of more is taken for a circle.
pub const LEVELS: usize = 64;

#[tactic(auto, unfolding(crate::specs::Levels::level_of))]
fn level_from(
    alloc: Global,
    cfg: &Cfg,
    groups: &[TestGroup],
    scripts: &[SetupScript],
    name: &str,
    path: &str,
    table: &Value,
) -> Result<Level, ProfileError>
    ensures { Agrees result (level_of cfg.now groups.now scripts.now name.now path.now (view table.now)) }
{
    only_profile_keys(alloc, name, path, table)?;
    let run = run_keys_from(alloc, path, table)?;
    let (run, said) = both(run, said_from(alloc, groups, path, table))?;
    let ((run, said), overrides) = both(
        (run, said),
        overrides_at(alloc, cfg, groups, name, path, table),
    )?;
    let ((run, said, overrides), rules) = both(
        (run, said, overrides),
        rules_at(alloc, cfg, scripts, name, path, table),
    )?;
    Ok(Level {
        said,
        overrides,
        rules,
        run,
    })
}

/// The path of a profile.
pub fn profile_path(alloc: Global, name: &str) -> Mem<Text>
    ensures { IfOk result (λ t. t ≡ profile_path name.now) }
{
    dotted(alloc, "profile", name)
}

/// The table of a profile among those of all.
pub fn profile_in<'a>(profiles: Option<&'a Value>, name: &str) -> Option<&'a Value>
    ensures { option_map (λ v. view v.now) result ≡ profile_in (option_map (λ v. view v.now) profiles.entry) name.now }
{
    match profiles {
        Some(profiles) => profiles.get(name),
        None => None,
    }
}

fn level_at(
    alloc: Global,
    cfg: &Cfg,
    groups: &[TestGroup],
    scripts: &[SetupScript],
    profiles: Option<&Value>,
    name: &str,
) -> Result<Level, ProfileError>
    ensures { Agrees result
        (level_at cfg.now groups.now scripts.now (option_map (λ v. view v.now) profiles.entry) name.now) }
{
    let path = profile_path(alloc, name)?;
    match profile_in(profiles, name) {
        Some(table) => level_from(alloc, cfg, groups, scripts, name, path.as_str(), table),
        None => {
            let empty = Value::Table(Table::new(alloc));
            level_from(alloc, cfg, groups, scripts, name, path.as_str(), &empty)
        }
    }
}

// The profile that the one of this table inherits.
fn base_said(alloc: Global, path: &str, table: &Value) -> Result<Text, ProfileError>
    ensures { Agrees result (base_said path.now (view table.now)) }
{
    match optional_text(alloc, path, table, "inherits")? {
        Some(base) => Ok(base),
        None => Ok(Text::from_str(alloc, "default")?),
    }
}

// The profile that one inherits.
fn base_of(alloc: Global, profiles: Option<&Value>, name: &str) -> Result<Text, ProfileError>
    ensures { Agrees result (base_of (option_map (λ v. view v.now) profiles.entry) name.now) }
{
    let path = profile_path(alloc, name)?;
    match profile_in(profiles, name) {
        Some(table) => base_said(alloc, path.as_str(), table),
        None => refused(alloc, path.as_str(), Fault::UnknownName),
    }
}

// A profile's name after others, and the profile that it inherits.
fn with_base(
    alloc: Global,
    profiles: Option<&Value>,
    names: List<Text>,
    name: Text,
) -> Result<(List<Text>, Text), ProfileError>
    ensures added { IfOk result (λ pair. pair.0 ≡ names ++ name ∷ []) }
    ensures base { IfOk result
        (λ pair. base_of (option_map (λ v. view v.now) profiles.entry) name ≡ Ok pair.1) }
    ensures refused { IfErr result
        (λ e. Agrees (Err e) (base_of (option_map (λ v. view v.now) profiles.entry) name)) }
{
    let base = base_of(alloc, profiles, name.as_str())?;
    let names = added(alloc, names, name)?;
    Ok((names, base))
}

fn circle(alloc: Global, name: &str) -> Result<List<Text>, ProfileError>
    ensures { Agrees result (refused_at (profile_path name.now) (codes "inherits") Circle) }
{
    let path = profile_path(alloc, name)?;
    refused_at(alloc, path.as_str(), "inherits", Fault::Circle)
}

// A profile, those that it inherits, and `default`.
#[tactic(auto, using(crate::proofs::LevelsLemmas::chain_ends, crate::proofs::LevelsLemmas::chain_else, crate::proofs::LevelsLemmas::chain_step))]
fn chain(
    alloc: Global,
    profiles: Option<&Value>,
    chosen: &str,
    most: usize,
) -> Result<List<Text>, ProfileError>
    ensures { Agrees result (chain most (option_map (λ v. view v.now) profiles.entry) chosen.now) }
{
    let mut names = List::new();
    let mut name = Text::from_str(alloc, chosen)?;
    let mut room = most;
    while 0 < room {
        if is_default(name.as_str()) {
            return Ok(added(alloc, names, name)?);
        }
        let (others, base) = with_base(alloc, profiles, names, name)?;
        names = others;
        name = base;
        room -= 1;
    }
    drop(names);
    circle(alloc, name.as_str())
}

// Overrides and rules before those that are inherited.
fn listed(
    alloc: Global,
    overrides: (List<Override>, List<Override>),
    rules: (List<ScriptRule>, List<ScriptRule>),
) -> Mem<(List<Override>, List<ScriptRule>)>
    ensures overrides { IfOk result (λ lists. lists.0 ≡ overrides.0 ++ overrides.1) }
    ensures rules { IfOk result (λ lists. lists.1 ≡ rules.0 ++ rules.1) }
{
    let overrides = appended(alloc, overrides.0, overrides.1);
    let rules = appended(alloc, rules.0, rules.1);
    both_there(overrides, rules)
}

// A profile's own level, before what it inherits.
fn joined(alloc: Global, level: Level, base: Profile) -> Mem<Profile>
    ensures { IfOk result (λ p. p ≡ joined level base) }
{
    let Level {
        said,
        overrides,
        rules,
        run,
    } = level;
    let Profile {
        overrides: base_overrides,
        plain: base_plain,
        rules: base_rules,
        run: base_run,
    } = base;
    let run = run.or(base_run);
    let lists = listed(alloc, (overrides, base_overrides), (rules, base_rules));
    let plain = before(alloc, said, base_plain);
    let (run, ((overrides, rules), plain)) = both(run, both_there(lists, plain))?;
    Ok(Profile {
        overrides,
        plain,
        rules,
        run,
    })
}

// What profiles give together, the first before the others.
fn profile_from(
    alloc: Global,
    cfg: &Cfg,
    groups: &[TestGroup],
    scripts: &[SetupScript],
    profiles: Option<&Value>,
    names: &[Text],
) -> Result<Profile, ProfileError>
    ensures { Agrees result
        (profile_from cfg.now groups.now scripts.now (option_map (λ v. view v.now) profiles.entry) names.now) }
{
    match names {
        [] => Ok(Profile::none()),
        [name, others @ ..] => {
            let level = level_at(alloc, cfg, groups, scripts, profiles, name.as_str())?;
            let (level, base) = both(
                level,
                profile_from(alloc, cfg, groups, scripts, profiles, others),
            )?;
            Ok(joined(alloc, level, base)?)
        }
    }
}

/// The value at a key of the file.
pub fn root_at<'a>(table: &'a Table, key: &str) -> Option<&'a Value>
    ensures { option_map (λ v. view v.now) result ≡ get_member key.now (table_view table.now) }
{
    table.get(key)
}

fn project_groups(alloc: Global, table: &Table) -> Result<List<TestGroup>, ProfileError>
    ensures { Agrees result
        (nothing_or groups_read (codes "test-groups") (get_member (codes "test-groups") (table_view table.now))) }
{
    match root_at(table, "test-groups") {
        Some(value) => groups_from(alloc, "test-groups", value),
        None => Ok(List::new()),
    }
}

fn project_scripts(alloc: Global, table: &Table) -> Result<List<SetupScript>, ProfileError>
    ensures { Agrees result
        (nothing_or scripts_read (codes "scripts") (get_member (codes "scripts") (table_view table.now))) }
{
    match root_at(table, "scripts") {
        Some(value) => scripts_from(alloc, "scripts", value),
        None => Ok(List::new()),
    }
}

fn only_root_keys(alloc: Global, table: &Table) -> Result<(), ProfileError>
    ensures { Agrees result (only_names [] root_keys (table_view table.now)) }
{
    let names = [
        "experimental",
        "nextest-version",
        "profile",
        "scripts",
        "store",
        "test-groups",
    ];
    only_names(alloc, "", &names, table)
}

// The profile of a name and those that it inherits, and what they give together.
fn named_profile(
    alloc: Global,
    cfg: &Cfg,
    groups: &[TestGroup],
    scripts: &[SetupScript],
    profiles: Option<&Value>,
    name: &str,
    most: usize,
) -> Result<(List<Text>, Profile), ProfileError>
    ensures { Agrees result
        (named_profile most cfg.now groups.now scripts.now (option_map (λ v. view v.now) profiles.entry) name.now) }
{
    let names = chain(alloc, profiles, name, most)?;
    let profile = profile_from(alloc, cfg, groups, scripts, profiles, names.as_slice());
    both(names, profile)
}

// What the profiles of a file share.
fn shared_from(
    alloc: Global,
    table: &Table,
) -> Result<(List<TestGroup>, List<SetupScript>, VersionsAsked), ProfileError>
    ensures { Agrees result (shared_of (table_view table.now)) }
{
    only_root_keys(alloc, table)?;
    let groups = project_groups(alloc, table)?;
    let (groups, scripts) = both(groups, project_scripts(alloc, table))?;
    let version = root_at(table, "nextest-version");
    let versions = versions_at(alloc, "nextest-version", version);
    let ((groups, scripts), versions) = both((groups, scripts), versions)?;
    Ok((groups, scripts, versions))
}

#[tactic(auto, unfolding(crate::specs::Levels::project_of))]
fn read_within(
    alloc: Global,
    table: &Table,
    name: &str,
    cfg: &Cfg,
    most: usize,
) -> Result<Project, ProfileError>
    ensures { Agrees result (project_of most cfg.now name.now (table_view table.now)) }
{
    let (groups, scripts, versions) = shared_from(alloc, table)?;
    let named = named_profile(
        alloc,
        cfg,
        groups.as_slice(),
        scripts.as_slice(),
        root_at(table, "profile"),
        name,
        most,
    );
    let ((groups, scripts, versions), (names, profile)) = both((groups, scripts, versions), named)?;
    Ok(Project {
        groups,
        scripts,
        versions,
        names,
        profile,
    })
}

/// The groups and the setup scripts of a project's `nextest.toml`, the versions that it asks for, and what the profile
/// of a name gives there. It is refused for the first of: a key of the file, in the order of keys; a group, and then a
/// script, in the order of names; a version; a profile that isn't there, or a circle; then what the profile says, what
/// those say that it inherits, and what `default` says: in each an unknown key, then the keys of the run, of all tests,
/// each override and then each rule of scripts in its order.
pub fn read_profile(
    alloc: Global,
    table: &Table,
    name: &str,
    cfg: &Cfg,
) -> Result<Project, ProfileError>
    ensures { Agrees result (project_of LEVELS cfg.now name.now (table_view table.now)) }
{
    read_within(alloc, table, name, cfg, LEVELS)
}
