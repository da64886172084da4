// The keys that a run hears, and what they are to it.
ghost use Rattle.std.specs.Prelude.{◌≡◌};
ghost use Rattle.run_events.specs.Hearing.{heard_key};

/// Which key it is.
#[derive(Clone, Copy, Drop)]
pub enum KeyCode {
    Enter,
    Char(char),
}

/// A key that was pressed or let go.
#[derive(Clone, Copy, Drop)]
pub struct Key {
    pub code: KeyCode,
    /// Whether a modifier was held, as control.
    pub modified: bool,
    /// Whether it was pressed, and not let go.
    pub press: bool,
}

/// Which keys a run hears.
#[derive(Clone, Copy, Debug, Drop, PartialEq, Eq)]
pub enum InputHandlerKind {
    /// Those at the terminal.
    Standard,
    /// None.
    Noop,
}

/// Whether a run hears keys.
#[derive(Clone, Copy, Drop)]
pub enum InputHandlerStatus {
    /// It does, and this one asks for information.
    Enabled { info_char: char },
    Disabled,
}

/// What a key is to a run that hears it.
#[derive(Clone, Copy, Drop)]
pub enum InputEvent {
    /// It asks what the tests are doing.
    Info,
    /// An empty line is wanted.
    Enter,
}

/// What a key is to a run with these handlers, where it is heard: on its press alone.
pub fn hears_key(kind: InputHandlerKind, key: Key) -> Option<InputEvent>
    ensures { result ≡ heard_key kind key }
{
    match (kind, key.code) {
        (InputHandlerKind::Noop, _) => None,
        (InputHandlerKind::Standard, KeyCode::Enter) if key.press => Some(InputEvent::Enter),
        (InputHandlerKind::Standard, KeyCode::Char('t')) if key.press && !key.modified => {
            Some(InputEvent::Info)
        }
        _ => None,
    }
}
