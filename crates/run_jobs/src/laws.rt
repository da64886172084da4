// Theorems on jobs that are run in waves.
ghost use Rattle.run_jobs.specs.Once.{JobsAreToldOnce};

use run_laws_calls::{a_run_has_one_sub_run, each_unit_finishes_once};

/// Each ready job of a wave that ran is told started just once unless it was never started, and finished just once
/// unless it was never started or was left, which only a cause does; no job is told so that isn't one of the wave's.
pub fn jobs_are_told_once()
    ensures { JobsAreToldOnce }
{
    each_unit_finishes_once();
    a_run_has_one_sub_run();
}
