// The levels of jobs, and the jobs of each level.
ghost use Rattle.std.specs.Prelude.{ℕ, ◌≡◌, ◌≤◌, ◌<◌, ◌==◌, ◌^◌, [], ◌∷◌, ◌++◌, length, get_or, if◌then◌else◌};
ghost use Rattle.std.specs.Prelude.{IfOk, OnOk};
ghost use Rattle.std.specs.List.{All};
ghost use Rattle.run_jobs.specs.Levels.{at_level, level_after, levels_of, AreOrdered, AreLow};

use crate::job::Job;
use run_capture::{List, Mem};
use std::alloc::Global;

// The level of a job that waits for these, by the levels of the jobs before it.
fn level_after(levels: &[u32], after: &[u32]) -> u32
    requires below { All (λ a. a < length levels.now) after.now }
    requires small { AreLow levels.now }
    requires few { length levels.now < 2 ^ 32 }
    ensures level { result ≡ level_after levels.now after.now }
    ensures small { result ≤ length levels.now }
{
    let mut level = 0;
    for a in after {
        level = level.max(levels[*a as usize] + 1);
    }
    level
}

/// The level of each job.
pub fn levels_of(alloc: Global, jobs: &[Job]) -> Mem<Vec<u32>>
    requires ordered { AreOrdered jobs.now }
    requires few { length jobs.now < 2 ^ 32 }
    ensures { IfOk result (λ levels. levels.items ≡ levels_of jobs.now) }
{
    let mut levels = Vec::with_capacity(alloc, jobs.len())?;
    for job in jobs {
        let level = level_after(levels.as_slice(), job.after.as_slice());
        levels.push(level)?;
    }
    Ok(levels)
}

// Adds empty levels until there is this one.
fn grow(waves: &mut Vec<List<u32>>, level: usize) -> Mem<()>
    ensures same { OnOk result ((w : ℕ) → get_or waves.new.items w [] ≡ get_or waves.old.items w []) }
    ensures there { OnOk result (level < length waves.new.items) }
{
    'grow: while waves.len() <= level {
        waves.push(List::new())?;
    }
    Ok(())
}

// Adds a job to its level.
fn add_to(alloc: Global, waves: &mut Vec<List<u32>>, level: u32, job: u32) -> Mem<()>
    ensures { OnOk result ((w : ℕ) → get_or waves.new.items w []
        ≡ (if level == w then get_or waves.old.items w [] ++ job ∷ [] else get_or waves.old.items w [])) }
{
    grow(waves, level as usize)?;
    waves[level as usize].push(alloc, job)
}

/// The jobs of each level, in order.
pub fn waves_of(alloc: Global, levels: &[u32]) -> Mem<Vec<List<u32>>>
    requires { length levels.now < 2 ^ 32 }
    ensures { IfOk result (λ waves. (w : ℕ) → get_or waves.items w [] ≡ at_level w 0 levels.now) }
{
    let mut waves = Vec::new(alloc);
    for (job, level) in levels.iter().enumerate() {
        add_to(alloc, &mut waves, *level, job as u32)?;
    }
    Ok(waves)
}
