// The signals that a run hears, and what they are to it.
ghost use Rattle.std.specs.Prelude.{◌≡◌};
ghost use Rattle.run_events.specs.Hearing.{heard_signal};

/// A signal to the runner.
#[derive(Clone, Copy, Drop)]
pub enum Signal {
    Int,
    Hup,
    Term,
    Quit,
    Tstp,
    Cont,
    Usr1,
}

/// Which signals a run hears.
#[derive(Clone, Copy, Debug, Drop, PartialEq, Eq, Hash, PartialOrd, Ord)]
pub enum SignalHandlerKind {
    /// All of them.
    Standard,
    /// Those that a debugger at the same terminal doesn't need for itself.
    DebuggerMode,
    /// None.
    Noop,
}

/// What a signal is to a run that hears it.
#[derive(Clone, Copy, Drop)]
pub enum Heard {
    /// It shuts the run down.
    Shutdown,
    /// It stops the run, or lets it go on.
    JobControl,
    /// It asks what the tests are doing.
    Info,
}

/// What a signal is to a run with these handlers, where it is heard. A quit asks for information where
/// the plan says so.
pub fn hears_signal(kind: SignalHandlerKind, quit_is_info: bool, signal: Signal) -> Option<Heard>
    ensures { result ≡ heard_signal kind quit_is_info signal }
{
    match (kind, signal) {
        (SignalHandlerKind::Noop, _) => None,
        (_, Signal::Hup | Signal::Term) => Some(Heard::Shutdown),
        (_, Signal::Tstp | Signal::Cont) => Some(Heard::JobControl),
        (SignalHandlerKind::DebuggerMode, _) => None,
        (SignalHandlerKind::Standard, Signal::Int) => Some(Heard::Shutdown),
        (SignalHandlerKind::Standard, Signal::Usr1) => Some(Heard::Info),
        (SignalHandlerKind::Standard, Signal::Quit) => Some(if quit_is_info {
            Heard::Info
        } else {
            Heard::Shutdown
        }),
    }
}
