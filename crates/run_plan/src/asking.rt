// What filters say of the tests of a list.
ghost use Rattle.std.specs.Prelude.{◌≡◌, Any, IfErr, IfOk, OnOk, Some, false, map};
ghost use Rattle.std.specs.List.{AllZip};
ghost use Rattle.std.specs.Option.{option_copied};
ghost use Rattle.run_profile.specs.declared.scripts.ScriptRule.{ScriptRule};
ghost use Rattle.run_profile.specs.declared.settings.Override.{Override};
ghost use Rattle.run_plan.specs.Asks.{AsksNotItself, FilterSays, HasFilter, IsAskError, IsAsked, IsOverrideFilter};
ghost use Rattle.run_plan.specs.Asks.{IsProfileFault, IsRuleFilter, IsUnsoundDefault, IsWordFault, asked_group};
ghost use Rattle.run_plan.specs.Asks.{default_filter, first_default, no_group};
ghost use Rattle.run_plan.specs.Columns.{AreProfileSays, AreWordsSays, AtEach, IsColumn, asked_at, said_group};
ghost use Rattle.run_plan.specs.Rows.{listed_row};
ghost use Rattle.run_plan.specs.declared.choices.Picks.{Picks};

use crate::asked::Asked;
use crate::choices::Picks;
use crate::columns::{ProfileSays, asked_at, facts_by, row_at};
use crate::filters::{
    AskError, all_hold, check_default_text, column_at, default_text_column, word_column,
};
use crate::rows::ListRow;
use run_capture::{Duplicate, List, Mem, Text};
use run_filter::Facts;
use run_profile::{Override, Profile, ScriptRule};
use std::alloc::Global;

// The first default filter that an override says.
fn first_default(overrides: &[Override]) -> Option<&Text>
    ensures { option_copied result ≡ first_default overrides.now }
{
    match overrides {
        [] => None,
        [o, others @ ..] => match &o.default_filter {
            Some(text) => Some(text),
            None => first_default(others),
        },
    }
}

// The default filter: the first that an override says, else that of the profile.
fn default_filter(profile: &Profile) -> Option<&Text>
    ensures { option_copied result ≡ default_filter profile.now }
{
    match first_default(profile.overrides.as_slice()) {
        Some(text) => Some(text),
        None => match &profile.run.default_filter {
            Some(text) => Some(text),
            None => None,
        },
    }
}

// Reads the default filter, which may not ask itself.
fn check_default(alloc: Global, profile: &Profile) -> Result<(), AskError>
    ensures ok { OnOk result (AsksNotItself (default_filter profile.now)) }
    ensures err { IfErr result (IsUnsoundDefault (default_filter profile.now)) }
{
    match default_filter(profile) {
        Some(text) => check_default_text(alloc, text.as_str()),
        None => Ok(()),
    }
}

// The column of the default filter.
fn default_column(
    alloc: Global,
    profile: &Profile,
    tests: &[Facts<'_>],
) -> Result<List<bool>, AskError>
    ensures ok { IfOk result (AllZip (FilterSays (default_filter profile.now)) tests.now) }
    ensures err { IfErr result (IsProfileFault (HasFilter profile.now)) }
{
    match default_filter(profile) {
        Some(text) => default_text_column(alloc, text.as_str(), tests),
        None => Ok(all_hold(alloc, tests)?),
    }
}

// The columns of the filters of overrides.
fn override_columns(
    alloc: Global,
    overrides: &[Override],
    tests: &[Facts<'_>],
) -> Result<List<List<bool>>, AskError>
    ensures ok { IfOk result (AllZip (λ (o : Override). AllZip (FilterSays o.filter) tests.now) overrides.now) }
    ensures err { IfErr result (IsProfileFault (λ path text. Any (IsOverrideFilter path text) overrides.now)) }
{
    let mut columns = List::new();
    for o in overrides {
        let at = (o.profile.as_str(), "overrides", o.number);
        let held = column_at(alloc, at, &o.filter, tests)?;
        columns.push(alloc, held)?;
    }
    Ok(columns)
}

// The columns of the filters of rules of setup scripts.
fn rule_columns(
    alloc: Global,
    rules: &[ScriptRule],
    tests: &[Facts<'_>],
) -> Result<List<List<bool>>, AskError>
    ensures ok { IfOk result (AllZip (λ (r : ScriptRule). AllZip (FilterSays r.filter) tests.now) rules.now) }
    ensures err { IfErr result (IsProfileFault (λ path text. Any (IsRuleFilter path text) rules.now)) }
{
    let mut columns = List::new();
    for rule in rules {
        let at = (rule.profile.as_str(), "scripts", rule.number);
        let held = column_at(alloc, at, &rule.filter, tests)?;
        columns.push(alloc, held)?;
    }
    Ok(columns)
}

// The columns of the words' filters.
fn word_columns(
    alloc: Global,
    filters: &[Text],
    tests: &[Facts<'_>],
) -> Result<List<List<bool>>, AskError>
    ensures ok { IfOk result (AllZip (λ text. AllZip (FilterSays (Some text)) tests.now) filters.now) }
    ensures err { IfErr result (IsWordFault filters.now) }
{
    let mut columns = List::new();
    let mut number = 0usize;
    for text in filters {
        let held = word_column(alloc, number, text.as_str(), tests)?;
        columns.push(alloc, held)?;
        number += 1;
    }
    Ok(columns)
}

// The group of a test that overrides match so.
fn asked_group(alloc: Global, profile: &Profile, overrides: &[bool]) -> Mem<Text>
    ensures { IfOk result (λ group. group ≡ asked_group profile.now overrides.now) }
{
    let settings = profile.settings_of(alloc, overrides)?;
    match &settings.group.value {
        Some(group) => group.copy(alloc),
        None => Text::from_str(alloc, "@global"),
    }
}

// The group of the test at a place, by what the profile's filters say of it.
fn said_group(alloc: Global, profile: &Profile, says: &ProfileSays, place: usize) -> Mem<Text>
    ensures { IfOk result (λ group. group ≡ said_group profile.now says.now place) }
{
    let overrides = row_at(alloc, says.overrides.as_slice(), place)?;
    asked_group(alloc, profile, overrides.as_slice())
}

fn groups_of(
    alloc: Global,
    profile: &Profile,
    says: &ProfileSays,
    rows: &[ListRow<'_>],
) -> Mem<List<Text>>
    ensures { IfOk result (AtEach (λ i row group. group ≡ said_group profile.now says.now i) rows.now) }
{
    let mut groups = List::new();
    for place in 0..rows.len() {
        let group = said_group(alloc, profile, says, place)?;
        groups.push(alloc, group)?;
    }
    Ok(groups)
}

// What the overrides say of tests.
fn overrides_say(
    alloc: Global,
    profile: &Profile,
    tests: &[Facts<'_>],
) -> Result<List<List<bool>>, AskError>
    ensures ok { IfOk result (AllZip (λ (o : Override). AllZip (FilterSays o.filter) tests.now) profile.now.overrides) }
    ensures err { IfErr result (IsProfileFault (HasFilter profile.now)) }
{
    match override_columns(alloc, profile.overrides.as_slice(), tests) {
        Ok(columns) => Ok(columns),
        Err(error) => Err(error),
    }
}

// What the rules of setup scripts say of them.
fn rules_say(
    alloc: Global,
    profile: &Profile,
    tests: &[Facts<'_>],
) -> Result<List<List<bool>>, AskError>
    ensures ok { IfOk result (AllZip (λ (r : ScriptRule). AllZip (FilterSays r.filter) tests.now) profile.now.rules) }
    ensures err { IfErr result (IsProfileFault (HasFilter profile.now)) }
{
    match rule_columns(alloc, profile.rules.as_slice(), tests) {
        Ok(columns) => Ok(columns),
        Err(error) => Err(error),
    }
}

// What the filters of a profile say of tests, of which the default filter says so much.
fn says_with(
    alloc: Global,
    profile: &Profile,
    in_default: List<bool>,
    tests: &[Facts<'_>],
) -> Result<ProfileSays, AskError>
    ensures ok { IfOk result (λ says. (says.in_default ≡ in_default)
        × AllZip (λ (o : Override). AllZip (FilterSays o.filter) tests.now) profile.now.overrides says.overrides
        × AllZip (λ (r : ScriptRule). AllZip (FilterSays r.filter) tests.now) profile.now.rules says.rules) }
    ensures err { IfErr result (IsProfileFault (HasFilter profile.now)) }
{
    let overrides = overrides_say(alloc, profile, tests)?;
    let rules = rules_say(alloc, profile, tests)?;
    Ok(ProfileSays {
        in_default,
        overrides,
        rules,
    })
}

// What the filters of a profile say of each test of a list, of which the default filter says so much.
fn with_default(
    alloc: Global,
    profile: &Profile,
    rows: &[ListRow<'_>],
    in_default: List<bool>,
) -> Result<ProfileSays, AskError>
    ensures ok { IfOk result (λ says.
        IsColumn (map listed_row rows.now) (λ i. no_group) (λ i. false) (default_filter profile.now) in_default
        → AreProfileSays profile.now (map listed_row rows.now) says) }
    ensures err { IfErr result (IsProfileFault (HasFilter profile.now)) }
{
    let tests = facts_by(alloc, rows, &[], in_default.as_slice())?;
    let says = says_with(alloc, profile, in_default, &tests)?;
    Ok(says)
}

// What the filters of a profile say of each test: first the default filter, then those of overrides and rules, which
// see no group.
fn profile_says(
    alloc: Global,
    profile: &Profile,
    rows: &[ListRow<'_>],
) -> Result<ProfileSays, AskError>
    ensures ok { IfOk result (AreProfileSays profile.now (map listed_row rows.now)) }
    ensures err { IfErr result (IsProfileFault (HasFilter profile.now)) }
{
    let alone = facts_by(alloc, rows, &[], &[])?;
    let in_default = default_column(alloc, profile, &alone)?;
    let says = with_default(alloc, profile, rows, in_default)?;
    Ok(says)
}

// What the words' filters say of each test, in its group.
fn words_say(
    alloc: Global,
    profile: &Profile,
    filters: &[Text],
    rows: &[ListRow<'_>],
    says: &ProfileSays,
) -> Result<List<List<bool>>, AskError>
    ensures ok { IfOk result
        (AreWordsSays profile.now (map listed_row rows.now) says.now filters.now) }
    ensures err { IfErr result (IsWordFault filters.now) }
{
    let groups = groups_of(alloc, profile, says, rows)?;
    let tests = facts_by(alloc, rows, groups.as_slice(), says.in_default.as_slice())?;
    let columns = word_columns(alloc, filters, &tests)?;
    Ok(columns)
}

// What is said of each test.
fn all_asked(
    alloc: Global,
    filters: &[Text],
    rows: &[ListRow<'_>],
    says: &ProfileSays,
    words: &[List<bool>],
) -> Mem<List<Asked>>
    ensures { IfOk result (AtEach (λ i row asked. asked ≡ asked_at filters.now says.now words.now i) rows.now) }
{
    let mut all = List::new();
    for place in 0..rows.len() {
        let asked = asked_at(alloc, filters, says, words, place)?;
        all.push(alloc, asked)?;
    }
    Ok(all)
}

// What filters say of each test, of which the profile's say so much.
fn asked_with(
    alloc: Global,
    profile: &Profile,
    filters: &[Text],
    rows: &[ListRow<'_>],
    says: &ProfileSays,
) -> Result<List<Asked>, AskError>
    ensures ok { IfOk result (λ asked. (picks : Picks) → picks.filters ≡ filters.now
        → AreProfileSays profile.now (map listed_row rows.now) says.now
        → AllZip (IsAsked profile.now picks) (map listed_row rows.now) asked) }
    ensures err { IfErr result (IsWordFault filters.now) }
{
    let words = words_say(alloc, profile, filters, rows, says)?;
    let asked = all_asked(alloc, filters, rows, says, words.as_slice())?;
    Ok(asked)
}

// The same of a default filter that may be asked.
fn asked_by(
    alloc: Global,
    profile: &Profile,
    picks: &Picks,
    rows: &[ListRow<'_>],
) -> Result<List<Asked>, AskError>
    ensures ok { IfOk result (AllZip (IsAsked profile.now picks.now) (map listed_row rows.now)) }
    ensures err { IfErr result (IsAskError profile.now picks.now) }
{
    let says = profile_says(alloc, profile, rows)?;
    let asked = asked_with(alloc, profile, picks.filters.as_slice(), rows, &says)?;
    Ok(asked)
}

/// What filters say of each of the tests: first the default filter, then those of overrides and rules, which see no
/// group, then the words'. Reads each filter once, and builds each of its regexes once.
pub(crate) fn ask(
    alloc: Global,
    profile: &Profile,
    picks: &Picks,
    rows: &[ListRow<'_>],
) -> Result<List<Asked>, AskError>
    ensures ok { IfOk result (AllZip (IsAsked profile.now picks.now) (map listed_row rows.now)) }
    ensures sound { OnOk result (AsksNotItself (default_filter profile.now)) }
    ensures err { IfErr result (IsAskError profile.now picks.now) }
{
    check_default(alloc, profile)?;
    let asked = asked_by(alloc, profile, picks, rows)?;
    Ok(asked)
}
