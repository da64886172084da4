// Where events stand in the shape of a run.
/// Where some events stand in the shape of a run: before its start, within a run without stress, between sub-runs or
/// within one, with so many that are still to open, or after its finish.
#[derive(Clone, Copy, Drop)]
pub enum ShapePlace {
    Before,
    Plain,
    Between { left: u64 },
    Within { left: u64 },
    Over,
}
