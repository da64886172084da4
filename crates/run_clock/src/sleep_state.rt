// Whether a sleep runs.
ghost use Rattle.std.specs.Prelude.{◌≡◌, ◌+◌};

// The deadline of a running sleep, which may be past the greatest `u64`, or the remaining time of a paused one.
#[derive(Clone, Copy, Debug)]
pub(crate) enum SleepState {
    Running { deadline: u128 },
    Paused { remaining: u64 },
}

impl SleepState {
    ghost use Rattle.run_clock.specs.declared.sleep_state.SleepState.TheVariants.{Running};

    // Runs until so much time after now.
    pub(crate) fn until(now: u64, remaining: u64) -> SleepState
        ensures { result ≡ Running (now + remaining) }
    {
        SleepState::Running {
            deadline: u128::from(now) + u128::from(remaining),
        }
    }
}
