// The supervisor of the example, on jobs of which one fails.
use crate::plans::plan;
use example_supervisor::{Report, supervise};
use run_events::RunOutcome;

// Whether each of three jobs has its result: the second fails, and the others pass.
fn is_reported(report: &Report) -> bool {
    matches!(report.outcome, RunOutcome::Failed { .. })
        && report.results.len() == 3
        && report
            .results
            .as_slice()
            .iter()
            .all(|job| job.passed == (job.job != 1))
}

#[test]
fn three_jobs_are_supervised(rt: HostRuntime) {
    let alloc = rt.alloc();
    let plan = plan(&rt, alloc, 3);
    let report = supervise(alloc, plan, &[0, 1, 0]).expect(&rt, "a report");
    assert!(rt; is_reported(&report));
}
