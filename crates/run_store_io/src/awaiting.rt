// Which record is awaited.
ghost use Rattle.std.specs.Prelude.{◌≡◌};
ghost use Rattle.run_store_io.specs.Awaits.{awaited};

/// Which record is awaited.
#[derive(Clone, Copy, Drop)]
pub enum Awaiting {
    /// That of the plan line.
    First,
    /// One after the plan line and so many turns.
    After { turns: u32 },
}

/// The kind of the plan line's record.
pub const PLAN: u8 = 1;

/// The kind of a turn's record.
pub const TURN: u8 = 2;

/// The kind of the last record.
pub const END: u8 = 3;

impl Awaiting {
    /// Whether a record of this kind may stand there.
    pub fn takes(self, kind: u8) -> bool
        ensures { result ≡ (awaited self).kinds kind }
    {
        match self {
            Awaiting::First => kind == PLAN,
            Awaiting::After { turns } => (kind == TURN && turns < u32::MAX) || kind == END,
        }
    }
}
