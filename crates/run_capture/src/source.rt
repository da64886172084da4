// Where bytes come from.
ghost use Rattle.std.specs.Prelude.{◌≡◌, ◌≤◌, ◌<◌, List, ℕ, Option, length, take, IfOk, OnErr};
ghost use Rattle.run_capture.specs.Bytes.{Gives, AtEnd};
ghost use Rattle.run_capture.specs.Faults.{CountsFault};

use thiserror::Error;

/// A call of the outside failed. Its count of faults rose.
#[derive(Clone, Copy, Debug, Drop, PartialEq, Eq, Error)]
#[error("the outside failed")]
pub struct Failed;

/// A source of bytes.
pub trait Source {
    /// The bytes that are left, where the source tells them.
    ghost left: { Self → Option (List ℕ) };

    /// How often it has failed.
    ghost faults: { Self → ℕ };

    /// Reads some of the bytes that are left into the front of the buffer, and answers how many.
    /// 0 for a buffer that isn't empty is the end.
    fn read(&mut self, buf: &mut [u8]) -> Result<usize, Failed>
        ensures within { IfOk result (λ n. n ≤ length buf.new) }
        ensures given { IfOk result (λ n. Gives (left self.old) (left self.new) (take n buf.new)) }
        ensures end { IfOk result (λ n. 0 < length buf.new → n ≡ 0 → AtEnd (left self.new)) }
        ensures err { OnErr result (left self.new ≡ left self.old) }
        ensures fault { CountsFault (faults self.old) (faults self.new) result };
}
