// Where a unit stands.

/// The phase of a unit.
#[derive(Clone, Copy, Debug, Drop, PartialEq, Eq)]
pub enum Phase {
    /// Its start message was sent, and it waits to be let go.
    StartSent,
    /// It was let go, and its start was asked.
    Starting,
    /// Its child runs, also after it was killed at the end of the time that it was given.
    Running,
    /// Its child runs, and was asked to end: it is given some time for that.
    Grace,
    /// Its child was killed with no time to end by itself, and it waits for that end.
    KillWait,
    /// Its child has ended, or the wait for it failed, and a captured stream of it isn't done.
    Leak,
    /// Its child ended well, and its environment file is to be read: a setup script alone.
    EnvWait,
    /// Its attempt has ended.
    Deciding,
    /// Its attempt failed, and a delay passes before the next.
    Delay,
    /// Its retry message was sent, and it waits to be let go once more.
    RetrySent,
    /// It is done.
    Over,
}
