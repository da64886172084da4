// What a test runs under, and how that changes its run.
ghost use Rattle.std.specs.Prelude.{◌≡◌, IfOk};
ghost use Rattle.run_commands.specs.Interceptor.{interceptor_words};
ghost use Rattle.run_commands.specs.Interceptor.{disables_timeouts, passes_stdin_through, has_process_group};
ghost use Rattle.run_commands.specs.Interceptor.{skips_leak_detection, shows_wrapper_command, sends_sigtstp};

use crate::{DebuggerCommand, TracerCommand};
use run_capture::{Duplicate, List, Mem, Text};
use std::alloc::Global;

/// What each test runs under.
#[derive(Debug, Drop)]
pub enum Interceptor {
    /// Nothing: the usual run.
    None,
    /// A debugger, which the user works with at the terminal.
    Debugger(DebuggerCommand),
    /// A tracer of system calls.
    Tracer(TracerCommand),
}

impl Interceptor {
    /// Whether slow timers and the global timer are off.
    pub fn should_disable_timeouts(&self) -> bool
        ensures { result ≡ disables_timeouts self.now }
    {
        !matches!(self, Interceptor::None)
    }

    /// Whether the child reads the program's own standard input.
    pub fn should_passthrough_stdin(&self) -> bool
        ensures { result ≡ passes_stdin_through self.now }
    {
        matches!(self, Interceptor::Debugger(_))
    }

    /// Whether the child gets a process group of its own.
    pub fn should_create_process_group(&self) -> bool
        ensures { result ≡ has_process_group self.now }
    {
        !matches!(self, Interceptor::Debugger(_))
    }

    /// Whether the wait for leaked handles is left out.
    pub fn should_skip_leak_detection(&self) -> bool
        ensures { result ≡ skips_leak_detection self.now }
    {
        !matches!(self, Interceptor::None)
    }

    /// Whether the command is shown with the interceptor's words before it.
    pub fn should_show_wrapper_command(&self) -> bool
        ensures { result ≡ shows_wrapper_command self.now }
    {
        !matches!(self, Interceptor::None)
    }

    /// The words that stand before each command.
    pub fn words(&self, alloc: Global) -> Mem<List<Text>>
        ensures { IfOk result (λ words. words ≡ interceptor_words self.now) }
    {
        match self {
            Interceptor::None => Ok(List::new()),
            Interceptor::Debugger(command) => command.words(alloc),
            Interceptor::Tracer(command) => command.words(alloc),
        }
    }

    /// Whether a stop of the run is sent on to the child. A debugger's child has the terminal's own.
    pub fn should_send_sigtstp(&self) -> bool
        ensures { result ≡ sends_sigtstp self.now }
    {
        !matches!(self, Interceptor::Debugger(_))
    }
}

impl Default for Interceptor {
    ghost use Rattle.std.specs.Prelude.{◌≡◌};
    ghost use Rattle.run_commands.specs.declared.interceptor.Interceptor.TheVariants as under;

    ghost is_default = { λ i. i ≡ under.None };

    fn default() -> Interceptor {
        Interceptor::None
    }
}

impl Duplicate for Interceptor {
    fn copy(&self, alloc: Global) -> Mem<Interceptor> {
        match self {
            Interceptor::None => Ok(Interceptor::None),
            Interceptor::Debugger(command) => Ok(Interceptor::Debugger(command.copy(alloc)?)),
            Interceptor::Tracer(command) => Ok(Interceptor::Tracer(command.copy(alloc)?)),
        }
    }
}
