// The names of turns.
ghost use Rattle.std.specs.Prelude.{◌≡◌};
ghost use Rattle.run_input.specs.TurnLine.{turn_named, unit_turn_named};

/// Which turn a line says.
#[derive(Clone, Copy, Drop)]
pub enum TurnName {
    Begin,
    Admit,
    Deliver,
    Started,
    StartFailed,
    Exit,
    WaitFailed,
    Piece,
    StreamEnd,
    ReadError,
    Env,
    Decide,
    Due,
    Answer,
    Take,
    Clock,
    Signal,
    Key,
    Tick,
    ReportCancel,
    End,
}

// The turn of a unit that a name names.
fn unit_turn_named(name: &str) -> Option<TurnName>
    ensures { result ≡ unit_turn_named name.now }
{
    match name {
        "started" => Some(TurnName::Started),
        "start-failed" => Some(TurnName::StartFailed),
        "exit" => Some(TurnName::Exit),
        "wait-failed" => Some(TurnName::WaitFailed),
        "piece" => Some(TurnName::Piece),
        "stream-end" => Some(TurnName::StreamEnd),
        "read-error" => Some(TurnName::ReadError),
        "env" => Some(TurnName::Env),
        "decide" => Some(TurnName::Decide),
        "take" => Some(TurnName::Take),
        _ => None,
    }
}

/// The turn that a name names.
pub fn turn_named(name: &str) -> Option<TurnName>
    ensures { result ≡ turn_named name.now }
{
    match name {
        "begin" => Some(TurnName::Begin),
        "admit" => Some(TurnName::Admit),
        "deliver" => Some(TurnName::Deliver),
        "due" => Some(TurnName::Due),
        "answer" => Some(TurnName::Answer),
        "clock" => Some(TurnName::Clock),
        "signal" => Some(TurnName::Signal),
        "key" => Some(TurnName::Key),
        "tick" => Some(TurnName::Tick),
        "report-cancel" => Some(TurnName::ReportCancel),
        "end" => Some(TurnName::End),
        _ => unit_turn_named(name),
    }
}
