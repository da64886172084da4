// Counts of units, as one of these is set.
ghost use Rattle.std.specs.Prelude.{◌≡◌, ◌<◌, ◌≤◌, ◌+◌, ◌-◌, ◌^◌, cond, true};

/// How many aren't over, after one of them was set, which is over or not.
pub fn left_after(left: usize, over: bool) -> usize
    requires { over ≡ true → 1 ≤ left }
    ensures { result ≡ left - cond over 1 0 }
{
    if over { left - 1 } else { left }
}

/// How many of some are counted, after one of them was set, which was counted or not and is or isn't now.
pub fn count_after(count: u32, was: bool, is: bool) -> u32
    requires counted { cond was 1 0 ≤ count }
    requires room { count + cond is 1 0 < 2 ^ 32 + cond was 1 0 }
    ensures { result + cond was 1 0 ≡ count + cond is 1 0 }
{
    match (was, is) {
        (true, false) => count - 1,
        (false, true) => count + 1,
        (true, true) => count,
        (false, false) => count,
    }
}
