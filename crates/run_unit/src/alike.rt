// What the children of a run have alike.
ghost use Rattle.std.specs.Prelude.{◌≡◌, IfOk};
ghost use Rattle.run_model.specs.Admission.{surroundings_of, script_surroundings};
ghost use Rattle.run_unit.specs.Alike.{alike_of};

use run_capture::{Duplicate, List, Mem, Shared};
use run_events::{RunContext, Settings};
use run_model::Surroundings;
use std::alloc::Global;

/// What the children of all tests of a run have alike, and those of all its setup scripts: made once a run, for all its
/// units.
#[derive(Drop)]
pub struct Alike {
    pub tests: Shared<Surroundings>,
    pub scripts: Shared<Surroundings>,
}

// What the variables of all children tell alike.
fn context_of(alloc: Global, settings: &Settings) -> Mem<RunContext>
    ensures { IfOk result (λ run. run ≡ (surroundings_of settings.now).run) }
{
    let head = &settings.plan.head;
    let workspace_root = head.workspace_root.copy(alloc)?;
    let versions = head.versions.pairs(alloc)?;
    Ok(RunContext {
        run_id: head.run_id,
        mode: head.mode,
        threads: settings.threads,
        workspace_root,
        versions,
    })
}

// What the children of tests have alike.
fn surroundings_of(alloc: Global, settings: &Settings) -> Mem<Surroundings>
    ensures { IfOk result (λ around. around ≡ surroundings_of settings.now) }
{
    let run = Shared::new(alloc, context_of(alloc, settings)?)?;
    let interceptor = &settings.interceptor;
    let wrapper = interceptor.words(alloc)?;
    Ok(Surroundings {
        run,
        wrapper,
        group: interceptor.should_create_process_group(),
        stdin: interceptor.should_passthrough_stdin(),
    })
}

// What the children of scripts have alike: they run under no interceptor.
fn script_surroundings(alloc: Global, settings: &Settings) -> Mem<Surroundings>
    ensures { IfOk result (λ around. around ≡ script_surroundings settings.now) }
{
    let mut around = surroundings_of(alloc, settings)?;
    around.wrapper = List::new();
    around.group = true;
    around.stdin = false;
    Ok(around)
}

impl Alike {
    pub fn new(alloc: Global, settings: &Settings) -> Mem<Alike>
        ensures { IfOk result (λ alike. alike ≡ alike_of settings.now) }
    {
        let tests = Shared::new(alloc, surroundings_of(alloc, settings)?)?;
        let scripts = Shared::new(alloc, script_surroundings(alloc, settings)?)?;
        Ok(Alike { tests, scripts })
    }
}
