// Times and moments as they are said.
ghost use Rattle.std.specs.Prelude.{◌≡◌, ◌+◌, ◌*◌, ◌++◌, ◌≤◌, ◌<◌, ◌^◌, string_bytes, IfOk, OnOk};
ghost use Rattle.run_report.specs.Texts.{milliseconds, seconds_text};
ghost use Rattle.run_junit.specs.Texts.{
  time_of_day,
  date_in_year,
  date_of_march,
  date_text,
  day_of_month,
  day_of_year,
  moment_said,
  moment_text,
  month_from_january,
  month_from_march,
  times_said,
  year_of_era,
};
ghost use Rattle.run_junit.specs.Tokens.{attributes_bytes};

use crate::tag::Key;
use crate::texts::push_attribute;
use run_capture::Mem;
use std::alloc::Global;

// Nanoseconds, rounded to milliseconds.
fn milliseconds(time: u64) -> u64
    ensures { result ≡ milliseconds time }
{
    time / 1_000_000 + u64::from(time % 1_000_000 >= 500_000)
}

/// Nanoseconds as seconds, with three decimals.
#[tactic(auto, using(crate::proofs::TextLemmas::padded_three), unfolding(run_report::specs::Texts::seconds_text))]
pub(crate) fn seconds(alloc: Global, time: u64) -> Mem<String>
    ensures { IfOk result (λ s. string_bytes s ≡ seconds_text time) }
{
    let time = milliseconds(time);
    let whole = time / 1000;
    let rest = time % 1000;
    Ok(format!(in alloc; "{whole}.{rest:03}")?)
}

// Which year of its era, by the day of the era.
fn year_of_era(day: u64) -> u64
    requires { day < 146_097 }
    ensures year { result ≡ year_of_era day }
    ensures within { result < 401 }
{
    (day.saturating_sub(day / 1460) + day / 36_524).saturating_sub(day / 146_096) / 365
}

// Which day of that year.
fn day_of_year(day: u64) -> u64
    requires { day < 146_097 }
    ensures day { result ≡ day_of_year day }
    ensures within { result < 146_097 }
{
    let year = year_of_era(day);
    day.saturating_sub((365 * year + year / 4).saturating_sub(year / 100))
}

// Which month of the year, from March, by its day.
fn month_from_march(day: u64) -> u64
    requires { day < 146_097 }
    ensures month { result ≡ month_from_march day }
    ensures within { result ≤ 5 * day + 2 }
{
    (5 * day + 2) / 153
}

// Which day of that month.
fn day_of_month(day: u64) -> u64
    requires { day < 146_097 }
    ensures { result ≡ day_of_month day }
{
    let month = month_from_march(day);
    day.saturating_sub((153 * month + 2) / 5) + 1
}

// The month from January.
fn month_from_january(month: u64) -> u64
    requires { month < 1_000_000 }
    ensures { result ≡ month_from_january month }
{
    if month < 10 { month + 3 } else { month - 9 }
}

// A day as year, month and day, by its year from March and its day in that.
#[tactic(auto, using(crate::proofs::TextLemmas::padded_two, crate::proofs::TextLemmas::padded_four))]
fn date_in_year(alloc: Global, year: u64, day: u64) -> Mem<String>
    requires year { year < 2 ^ 60 }
    requires day { day < 146_097 }
    ensures { IfOk result (λ s. string_bytes s ≡ date_in_year year day) }
{
    let month = month_from_march(day);
    let year = year + u64::from(month >= 10);
    let month = month_from_january(month);
    let day = day_of_month(day);
    Ok(format!(in alloc; "{year:04}-{month:02}-{day:02}")?)
}

// A day so many days after the start of 1970.
#[tactic(auto, unfolding(crate::specs::Texts::date_text))]
fn date(alloc: Global, day: u64) -> Mem<String>
    requires { day < 2 ^ 50 }
    ensures { IfOk result (λ s. string_bytes s ≡ date_text day) }
{
    let day = day + 719_468;
    let of_era = day % 146_097;
    let year = day / 146_097 * 400 + year_of_era(of_era);
    date_in_year(alloc, year, day_of_year(of_era))
}

// A time of day, in milliseconds.
#[tactic(auto, using(crate::proofs::TextLemmas::padded), unfolding(crate::specs::Texts::time_of_day))]
fn clock(alloc: Global, time: u64) -> Mem<String>
    ensures { IfOk result (λ s. string_bytes s ≡ time_of_day time) }
{
    let hours = time / 3_600_000;
    let minutes = time / 60_000 % 60;
    let seconds = time / 1000 % 60;
    let rest = time % 1000;
    Ok(format!(in alloc; "{hours:02}:{minutes:02}:{seconds:02}.{rest:03}")?)
}

// The moment so many milliseconds after the start of 1970.
#[tactic(auto, unfolding(crate::specs::Texts::moment_text))]
fn moment(alloc: Global, time: u64) -> Mem<String>
    ensures { IfOk result (λ s. string_bytes s ≡ moment_text time) }
{
    let date = date(alloc, time / 86_400_000)?;
    let clock = clock(alloc, time % 86_400_000)?;
    Ok(format!(in alloc; "{date}T{clock}+00:00")?)
}

// Adds a moment.
#[tactic(auto, unfolding(crate::specs::Tokens::attributes_bytes))]
fn push_moment(alloc: Global, out: &mut String, started: Option<u64>, at: u64) -> Mem<()>
    ensures { OnOk result (string_bytes out.new ≡ string_bytes out.old
        ++ attributes_bytes (moment_said started at)) }
{
    let Some(started) = started else {
        return Ok(());
    };
    match started.checked_add(at / 1_000_000) {
        Some(time) => {
            let text = moment(alloc, time)?;
            push_attribute(out, Key::Timestamp, text.as_str())
        }
        None => Ok(()),
    }
}

/// Adds a moment of the clock of a run that started so, and how long something took from there on.
#[tactic(auto, using(crate::proofs::TokenLemmas::one_attribute_more))]
pub(crate) fn push_times(
    alloc: Global,
    out: &mut String,
    started: Option<u64>,
    at: u64,
    time: u64,
) -> Mem<()>
    ensures { OnOk result (string_bytes out.new ≡ string_bytes out.old
        ++ attributes_bytes (times_said started at time)) }
{
    push_moment(alloc, out, started, at)?;
    let text = seconds(alloc, time)?;
    push_attribute(out, Key::Time, text.as_str())
}
