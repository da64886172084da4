// What is told of one unit.
ghost use Rattle.std.specs.Prelude.{◌≡◌, ◌++◌, ◌∷◌, [], map, option_map, option_to_list, IfOk};
ghost use Rattle.run_model.specs.Accounts.{account_of, attempt_of, finished, news_in, news_of};
ghost use Rattle.run_laws_plain.specs.News.{defined};

use crate::front::ahead;
use run_capture::{Duplicate, List, Mem};
use run_events::{ExecuteStatus, ReporterEvent, SetupScriptExecuteStatus, TestEventKind};
use std::alloc::Global;

/// What is told of a unit, apart from moments and counts.
#[derive(Drop)]
pub enum News {
    Started,
    /// An attempt failed, and the next one follows.
    Failed(ExecuteStatus),
    /// The attempt of this number, from 1, started.
    Retried(usize),
    /// It finished after these attempts.
    Finished(List<ExecuteStatus>),
    Skipped,
}

// The status of a script, as that of the one attempt that it has.
fn attempt_of(alloc: Global, status: &SetupScriptExecuteStatus) -> Mem<ExecuteStatus>
    ensures { IfOk result (λ s. s ≡ attempt_of status.now) }
{
    let output = status.output.copy(alloc)?;
    Ok(ExecuteStatus {
        attempt: 1,
        attempts: 1,
        delay: 0,
        result: status.result,
        output,
        slow: status.slow,
        start: status.start,
        time: status.time,
    })
}

// What the finish of a script tells: it has one attempt.
fn script_news(alloc: Global, status: &SetupScriptExecuteStatus) -> Mem<News>
    ensures { IfOk result (λ n. defined n ≡ finished (attempt_of status.now ∷ [])) }
{
    let attempt = attempt_of(alloc, status)?;
    Ok(News::Finished(ahead(alloc, attempt, List::new())?))
}

// What an event tells of unit k.
fn news_in(alloc: Global, k: u32, kind: &TestEventKind) -> Mem<Option<News>>
    ensures { IfOk result (λ n. option_map defined n ≡ news_in k kind.now) }
{
    match kind {
        TestEventKind::SetupScriptStarted(event) if event.script.unit == k => {
            Ok(Some(News::Started))
        }
        TestEventKind::SetupScriptFinished(event) if event.script.unit == k => {
            Ok(Some(script_news(alloc, &event.status)?))
        }
        TestEventKind::TestStarted(event) if event.start.test.unit == k => Ok(Some(News::Started)),
        TestEventKind::TestAttemptFailedWillRetry(event) if event.failed.test.unit == k => {
            Ok(Some(News::Failed(event.failed.status.copy(alloc)?)))
        }
        TestEventKind::TestRetryStarted(event) if event.retry.start.test.unit == k => {
            Ok(Some(News::Retried(event.retry.attempt as usize)))
        }
        TestEventKind::TestFinished(event) if event.finish.test.unit == k => {
            Ok(Some(News::Finished(event.finish.statuses.copy(alloc)?)))
        }
        TestEventKind::TestSkipped(skip) if skip.test.unit == k => Ok(Some(News::Skipped)),
        _ => Ok(None),
    }
}

fn news_of(alloc: Global, k: u32, event: &ReporterEvent) -> Mem<Option<News>>
    ensures { IfOk result (λ n. option_map defined n ≡ news_of k event.now) }
{
    match event {
        ReporterEvent::Test(event) => news_in(alloc, k, &event.kind),
        ReporterEvent::Tick => Ok(None),
    }
}

// An account with what one more event told.
fn with_news(alloc: Global, account: List<News>, news: Option<News>) -> Mem<List<News>>
    ensures { IfOk result (λ l. map defined l ≡ map defined account ++ option_to_list (option_map defined news)) }
{
    let mut account = account;
    if let Some(news) = news {
        account.push(alloc, news)?;
    }
    Ok(account)
}

/// What is told of unit k, in order: its account.
pub fn account_of(alloc: Global, k: u32, events: &[ReporterEvent]) -> Mem<List<News>>
    ensures { IfOk result (λ l. map defined l ≡ account_of k events.now) }
{
    let mut account = List::new();
    for event in events {
        let news = news_of(alloc, k, event)?;
        account = with_news(alloc, account, news)?;
    }
    Ok(account)
}
