// The line of a plan.
ghost use Rattle.std.specs.Prelude.{◌≡◌, All};
ghost use Rattle.run_plan.specs.PlanSaid.{AnswersPlan, fits_plan, runs_any};
ghost use Rattle.run_plan_line.specs.SaidPlan.{HasRank};

use crate::plan_fault::PlanFault;
use run_capture::Text;
use run_plan_line::{SaidPlan, said_plan_line};
use std::alloc::Global;

pub(crate) const MOST: usize = 4_294_967_295;

const LONGEST: usize = 16_777_216;

fn fits(plan: &SaidPlan) -> bool
    ensures { result ≡ fits_plan plan.now }
{
    let scripts = plan.scripts.len();
    plan.groups.len() <= MOST && scripts <= MOST && plan.tests.len() <= MOST - scripts
}

fn runs_any(plan: &SaidPlan) -> bool
    ensures { result ≡ runs_any plan.now }
{
    plan.tests.as_slice().iter().any(|test| test.skip.is_none())
}

/// The line of a plan of which some test runs, and that isn't too large.
pub(crate) fn line_of(alloc: Global, plan: &SaidPlan) -> Result<Text, PlanFault>
    requires { All HasRank plan.now.tests }
    ensures { AnswersPlan result plan.now }
{
    if !runs_any(plan) {
        return Err(PlanFault::NoTests);
    }
    if !fits(plan) {
        return Err(PlanFault::TooMany);
    }
    let line = said_plan_line(alloc, plan)?;
    if line.len() > LONGEST {
        return Err(PlanFault::TooLong);
    }
    Ok(line)
}
