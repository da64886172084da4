// The setup scripts of a part, event by event.
ghost use Rattle.std.specs.Prelude.{◌≡◌, ◌+◌, true, false, Some, None, IfOk};
ghost use Rattle.run_audit_model.specs.SeenScripts.{began, ended};
ghost use Rattle.run_audit_model.specs.Statuses.{compared};
ghost use Rattle.run_audit_machines.specs.Machines.{due_after};
ghost use Rattle.run_audit_passes.specs.Due.{is_due_news};

use crate::{DueScript, DueStatus, PartLaw};
use run_audit_model::AuditEvent;
use run_capture::{Mem, OutOfMemory, Text};
use std::collections::VecDeque;
use std::marker::Model;

/// What is still due of a part's setup scripts, and how many were told started and finished.
#[derive(Drop)]
pub struct ScriptPart<S: DueStatus + Drop> {
    due: VecDeque<DueScript<S>>,
    started: u64,
    finished: u64,
}

impl<S: DueStatus + Drop> Model for ScriptPart<S> {
    ghost use Rattle.run_audit_machines.specs.Scripts.{ScriptPart as Part};
    ghost use Rattle.run_audit_passes.specs.declared.due_script.DueScript.{DueScript as Due};

    ghost Value = { Part (Due S) };

    ghost view = { λ c. (c.due.items, (c.started, c.finished)) };
}

/// One more; without memory for it, where it is too many.
fn one_more(count: u64) -> Mem<u64>
    ensures { IfOk result (λ more. more ≡ count + 1) }
{
    match count.checked_add(1) {
        Some(more) => Ok(more),
        None => Err(OutOfMemory),
    }
}

/// Takes the start of a script, where it is due next.
fn take_start<S: DueStatus + Drop>(due: &mut VecDeque<DueScript<S>>, index: u32) -> bool
    ensures taken { result ≡ true
        → due_after (is_due_news S.status S.same) due.old.items (Some (began index)) ≡ Some due.new.items }
    ensures stopped { result ≡ false
        → due_after (is_due_news S.status S.same) due.old.items (Some (began index)) ≡ None }
{
    match due.pop_front() {
        Some(next) => starts(&next, index),
        None => false,
    }
}

/// Whether the start of a script is due.
fn starts<S: DueStatus + Drop>(due: &DueScript<S>, index: u32) -> bool
    ensures { result ≡ is_due_news S.status S.same due.now (began index) }
{
    match due {
        DueScript::Began { index: own } => *own == index,
        DueScript::Ended { .. } => false,
    }
}

/// Takes the finish of a script, where it is due next.
fn take_finish<S: DueStatus + Drop>(
    due: &mut VecDeque<DueScript<S>>,
    index: u32,
    status: &Text,
) -> Mem<bool>
    ensures taken { IfOk result (λ taken. taken ≡ true
        → due_after (is_due_news S.status S.same) due.old.items (Some (ended index (compared status.now)))
        ≡ Some due.new.items) }
    ensures stopped { IfOk result (λ taken. taken ≡ false
        → due_after (is_due_news S.status S.same) due.old.items (Some (ended index (compared status.now)))
        ≡ None) }
{
    match due.pop_front() {
        Some(next) => finishes(&next, index, status),
        None => Ok(false),
    }
}

/// Whether the finish of a script is due, with this status.
fn finishes<S: DueStatus + Drop>(due: &DueScript<S>, index: u32, text: &Text) -> Mem<bool>
    ensures { IfOk result
        (λ told. told ≡ is_due_news S.status S.same due.now (ended index (compared text.now))) }
{
    match due {
        DueScript::Ended { index: own, status } => if *own == index {
            status.is_told_by(text)
        } else {
            Ok(false)
        },
        DueScript::Began { .. } => Ok(false),
    }
}

impl<S: DueStatus + Drop> ScriptPart<S> {
    /// Before a part of which these are due.
    pub fn new(due: VecDeque<DueScript<S>>) -> Self
        ensures { result ≡ (due.items, (0, 0)) }
    {
        ScriptPart {
            due,
            started: 0,
            finished: 0,
        }
    }
}

impl<S: DueStatus + Drop> PartLaw for ScriptPart<S> {
    ghost use Rattle.std.specs.Prelude.{◌≡◌};
    ghost use Rattle.run_audit_machines.specs.Scripts.{CanTellScripts, same_script, script_part};
    ghost use Rattle.run_audit_machines.proofs.ScriptLemmas.{script_completes, scripts_same};
    ghost use Rattle.run_audit_passes.specs.Due.{due_news};

    ghost part = { script_part (due_news S.status) (same_script S.same) };

    ghost holds = { CanTellScripts (due_news S.status) };

    fn take(&mut self, event: &AuditEvent) -> Mem<bool> {
        match event {
            AuditEvent::ScriptStarted { index } => {
                self.started = one_more(self.started)?;
                Ok(take_start(&mut self.due, *index))
            }
            AuditEvent::ScriptFinished { index, status } => {
                self.finished = one_more(self.finished)?;
                take_finish(&mut self.due, *index, status)
            }
            AuditEvent::TestStarted { .. } => Ok(self.started == self.finished),
            _ => Ok(true),
        }
    }

    fn is_done(&self) -> bool {
        self.due.is_empty()
    }

    ghost completes = { script_completes (due_news S.status) (same_script S.same) (scripts_same S.same S.decides) };
}
