// What a filter says of tests.
ghost use Rattle.std.specs.Prelude.{◌≡◌, IfErr, IfOk, None, OnOk, Some, codes, map, true};
ghost use Rattle.std.specs.List.{AllZip};
ghost use Rattle.run_filter.specs.Tree.{tree_of};
ghost use Rattle.run_plan.specs.Asks.{AsksDefault, IsDefaultFault, IsProfileFault, IsSeen, AsksNotItself, IsUnsaid};
ghost use Rattle.run_plan.specs.Asks.{IsUnsound};
ghost use Rattle.run_plan.specs.Asks.{IsFilterFault, IsTextFault, FilterSays, asks_default, filter_path, platform_name};

use crate::test_list::{ListedTest, TestBinary};
use crate::texts::with_text;
use itoa::Buffer;
use run_capture::{List, Mem, OutOfMemory, Text};
use run_commands::BuildPlatform;
use run_filter::{Facts, Filter, FilterError, FilterFault, held_by_text, read_filter};
use std::alloc::{AllocError, Global};

/// Why filters say nothing of tests.
#[derive(Drop)]
pub enum AskError {
    /// The filter at this path of the profile is none, by this fault at this byte of it.
    OfProfile {
        path: Text,
        place: usize,
        fault: FilterFault,
    },
    /// The words' filter of this number, from 0.
    OfWords {
        number: usize,
        place: usize,
        fault: FilterFault,
    },
    /// The default filter asks `default()`.
    AsksItself,
    OutOfMemory,
}

impl From<OutOfMemory> for AskError {
    ghost use Rattle.std.specs.Prelude.{◌≡◌};
    ghost use Rattle.run_plan.specs.declared.filters.AskError.TheVariants as errors;

    ghost from_gives = { λ _ e. e ≡ errors.OutOfMemory };

    fn from(_: OutOfMemory) -> Self {
        AskError::OutOfMemory
    }
}

fn platform_name(platform: BuildPlatform) -> &'static str
    ensures { result.now ≡ platform_name platform }
{
    match platform {
        BuildPlatform::Target => "target",
        BuildPlatform::Host => "host",
    }
}

/// A test as filters see it, in a group, and where the default filter says so much of it.
pub(crate) fn facts_of<'a>(
    binary: &'a TestBinary,
    test: &'a ListedTest,
    group: &'a str,
    in_default: bool,
) -> Facts<'a>
    ensures { IsSeen binary.entry.now test.entry.now group.entry.now in_default result }
{
    Facts {
        test: test.name.as_str(),
        package: binary.facts.package_name.as_str(),
        binary: binary.facts.name.as_str(),
        binary_id: binary.id.as_str(),
        kind: binary.facts.kind.as_str(),
        platform: platform_name(binary.facts.platform),
        group,
        in_default,
    }
}

// Of each test whether a filter holds of it.
type Column = Result<List<bool>, FilterError>;

fn all_true(alloc: Global, tests: &[Facts<'_>]) -> Result<Vec<bool>, AllocError>
    ensures { IfOk result (λ held. held.items ≡ map (λ facts. true) tests.now) }
{
    tests.iter().map(|_| true).collect(alloc)
}

// The column of a filter that is none: it holds of each.
pub(crate) fn all_hold(alloc: Global, tests: &[Facts<'_>]) -> Mem<List<bool>>
    ensures { IfOk result (AllZip (FilterSays None) tests.now) }
{
    Ok(List::from_vec(all_true(alloc, tests)?))
}

// The column of the filter that a text is.
fn text_column(alloc: Global, text: &str, tests: &[Facts<'_>]) -> Column
    ensures ok { IfOk result (AllZip (FilterSays (Some text.now)) tests.now) }
    ensures err { IfErr result (IsTextFault text.now) }
{
    match held_by_text(alloc, text, tests) {
        Ok(held) => Ok(List::from_vec(held)),
        Err(error) => Err(error),
    }
}

// The same of a filter that may be none, and then holds.
fn column(alloc: Global, filter: &Option<Text>, tests: &[Facts<'_>]) -> Column
    ensures ok { IfOk result (AllZip (FilterSays filter.now) tests.now) }
    ensures err { IfErr result (IsFilterFault filter.now) }
{
    match filter {
        Some(text) => text_column(alloc, text.as_str(), tests),
        None => Ok(all_hold(alloc, tests)?),
    }
}

// Whether `default()` stands in a filter.
fn asks_default(filter: &Filter) -> bool
    ensures { result ≡ asks_default (tree_of filter.now) }
{
    match filter {
        Filter::Default => true,
        Filter::All => false,
        Filter::Nothing => false,
        Filter::Is { .. } => false,
        Filter::Not(inner) => asks_default(inner),
        Filter::And(left, right) => asks_default(left) || asks_default(right),
        Filter::Or(left, right) => asks_default(left) || asks_default(right),
    }
}

// Where the filter of an override or a rule stands.
fn filter_path(alloc: Global, profile: &str, key: &str, number: usize) -> Mem<Text>
    ensures { IfOk result (λ path. path ≡ filter_path profile.now key.now number) }
{
    let mut digits = Buffer::new();
    let path = Text::from_str(alloc, "profile.")?;
    let path = with_text(alloc, path, profile)?;
    let path = with_text(alloc, path, ".")?;
    let path = with_text(alloc, path, key)?;
    let path = with_text(alloc, path, "[")?;
    let path = with_text(alloc, path, digits.format(number))?;
    with_text(alloc, path, "].filter")
}

// The column of the filter of an override or a rule. It has this number at this key of a profile.
pub(crate) fn column_at(
    alloc: Global,
    at: (&str, &str, usize),
    filter: &Option<Text>,
    tests: &[Facts<'_>],
) -> Result<List<bool>, AskError>
    ensures ok { IfOk result (AllZip (FilterSays filter.now) tests.now) }
    ensures err { IfErr result (IsProfileFault (λ path text.
        (path ≡ filter_path at.entry.0.now at.entry.1.now at.entry.2) × (filter.now ≡ Some text))) }
{
    match column(alloc, filter, tests) {
        Ok(held) => Ok(held),
        Err(FilterError::OutOfMemory) => Err(AskError::OutOfMemory),
        Err(FilterError::Wrong { place, fault }) => {
            let path = filter_path(alloc, at.0, at.1, at.2)?;
            Err(AskError::OfProfile { path, place, fault })
        }
    }
}

// The column of the words' filter of this number.
pub(crate) fn word_column(
    alloc: Global,
    number: usize,
    text: &str,
    tests: &[Facts<'_>],
) -> Result<List<bool>, AskError>
    ensures ok { IfOk result (AllZip (FilterSays (Some text.now)) tests.now) }
    ensures err { IfErr result (IsUnsaid number text.now) }
{
    match text_column(alloc, text, tests) {
        Ok(held) => Ok(held),
        Err(FilterError::OutOfMemory) => Err(AskError::OutOfMemory),
        Err(FilterError::Wrong { place, fault }) => Err(AskError::OfWords {
            number,
            place,
            fault,
        }),
    }
}

// The fault of the default filter.
fn default_fault(alloc: Global, place: usize, fault: FilterFault) -> AskError
    ensures { IsDefaultFault place fault result }
{
    match Text::from_str(alloc, "default-filter") {
        Ok(path) => AskError::OfProfile { path, place, fault },
        Err(_) => AskError::OutOfMemory,
    }
}

// The column of the default filter, of this text.
pub(crate) fn default_text_column(
    alloc: Global,
    text: &str,
    tests: &[Facts<'_>],
) -> Result<List<bool>, AskError>
    ensures ok { IfOk result (AllZip (FilterSays (Some text.now)) tests.now) }
    ensures err { IfErr result (IsProfileFault (λ path own. (path ≡ codes "default-filter") × (own ≡ text.now))) }
{
    match text_column(alloc, text, tests) {
        Ok(held) => Ok(held),
        Err(FilterError::OutOfMemory) => Err(AskError::OutOfMemory),
        Err(FilterError::Wrong { place, fault }) => Err(default_fault(alloc, place, fault)),
    }
}

// Whether the filter that a text is asks `default()`.
fn text_asks_default(alloc: Global, text: &str) -> Result<bool, FilterError>
    ensures ok { IfOk result (AsksDefault text.now) }
    ensures err { IfErr result (IsTextFault text.now) }
{
    match read_filter(alloc, text) {
        Ok(filter) => {
            let asks = asks_default(&filter);
            drop(filter);
            Ok(asks)
        }
        Err(error) => Err(error),
    }
}

// Reads the default filter, which may not ask itself.
pub(crate) fn check_default_text(alloc: Global, text: &str) -> Result<(), AskError>
    ensures ok { OnOk result (AsksNotItself (Some text.now)) }
    ensures err { IfErr result (IsUnsound text.now) }
{
    match text_asks_default(alloc, text) {
        Ok(true) => Err(AskError::AsksItself),
        Ok(false) => Ok(()),
        Err(FilterError::OutOfMemory) => Err(AskError::OutOfMemory),
        Err(FilterError::Wrong { place, fault }) => Err(default_fault(alloc, place, fault)),
    }
}
