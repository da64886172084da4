// Who sends signals to a child.
use crate::guard::Guard;
use crate::signalling::send_by_shell;
use crate::target::Target;
use run_capture::{Mem, OutOfMemory};
use std::alloc::Global;
use std::fs::Files;
use std::io;
use std::process::{OpenProcess, Processes};

/// Sends signals by a shell of its own, and where that is gone by one that is started for the signal.
pub(crate) struct Sender<C: OpenProcess + Drop> {
    guard: Option<Guard<C>>,
}

// A call of its own, which keeps the proofs of all that hold one small.
impl<C: OpenProcess + Drop> Drop for Sender<C> {
    fn drop(self) {
        let Sender { guard: _ } = self;
    }
}

/// Whether an error is want of memory.
pub(crate) fn is_want(error: &io::Error) -> bool {
    error.kind() == io::ErrorKind::OutOfMemory
}

// What was answered, if something was. Want of memory is an error.
fn answered(sent: io::Result<bool>) -> Mem<Option<bool>> {
    match sent {
        Ok(sent) => Ok(Some(sent)),
        Err(error) if is_want(&error) => Err(OutOfMemory),
        Err(_) => Ok(None),
    }
}

// Sends a signal by another shell. Answers whether it was sent.
fn is_sent(outside: &impl Processes, alloc: Global, signal: &str, target: Target) -> Mem<bool> {
    let sent = answered(send_by_shell(outside, alloc, signal, target))?;
    Ok(matches!(sent, Some(true)))
}

impl<C: OpenProcess + Drop> Sender<C> {
    /// One that has no shell.
    pub fn new() -> Self {
        Sender { guard: None }
    }

    /// Starts its shell, where it has none. Where that fails it has none.
    pub fn start<P: Processes<Started = C> + Files>(
        &mut self,
        outside: &P,
        alloc: Global,
    ) -> Mem<()> {
        if self.guard.is_some() {
            return Ok(());
        }
        match Guard::start(outside, alloc) {
            Ok(guard) => self.guard = Some(guard),
            Err(error) if is_want(&error) => return Err(OutOfMemory),
            Err(_) => {}
        }
        Ok(())
    }

    /// Tells its shell of a child that runs.
    pub fn watch(&mut self, alloc: Global, target: Target) {
        if let Some(guard) = &mut self.guard {
            if guard.watch(alloc, target).is_err() {
                self.lose();
            }
        }
    }

    /// Tells its shell that the child was waited for.
    pub fn let_go(&mut self) {
        if let Some(guard) = &mut self.guard {
            if guard.let_go().is_err() {
                self.lose();
            }
        }
    }

    /// Sends a signal to a child that wasn't waited for. Answers whether it was sent.
    pub fn send(
        &mut self,
        outside: &impl Processes,
        alloc: Global,
        signal: &str,
        target: Target,
    ) -> Mem<bool> {
        match self.send_by_guard(alloc, signal, target)? {
            Some(sent) => Ok(sent),
            None => is_sent(outside, alloc, signal, target),
        }
    }

    /// Ends its shell, which kills the child that it was told of, with its group.
    pub fn end(&mut self) {
        self.guard = None;
    }

    // Sends a signal by its shell, if it has one that answers.
    fn send_by_guard(&mut self, alloc: Global, signal: &str, target: Target) -> Mem<Option<bool>> {
        let Some(guard) = &mut self.guard else {
            return Ok(None);
        };
        let sent = answered(guard.send(alloc, signal, target))?;
        if sent.is_none() {
            self.lose();
        }
        Ok(sent)
    }

    // Its shell doesn't answer any more.
    fn lose(&mut self) {
        if let Some(guard) = &mut self.guard {
            guard.give_up();
        }
        self.guard = None;
    }
}
