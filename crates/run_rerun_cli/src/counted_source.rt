// A source that tells whether it has failed.
ghost use Rattle.std.specs.Prelude.{◌≡◌, ◌≤◌, ◌<◌, length, take, nat_lt, IfOk, OnErr};
ghost use Rattle.run_capture.specs.Bytes.{AtEnd, Gives};
ghost use Rattle.run_capture.specs.Faults.{CountsFault};
ghost use Rattle.run_rerun_cli.specs.Counted.{counted_faults, counted_left};

use run_capture::{Failed, Source};

/// A source that counts how often it has failed: it fails exactly if its own source did (`inner`).
#[derive(Drop)]
pub struct CountedSource<S> {
    inner: S,
    faults: u64,
}

impl<S: Source> CountedSource<S> {
    /// The source, which hasn't failed since.
    pub fn new(inner: S) -> Self
        ensures left { counted_left S.left result ≡ S.left inner }
        ensures faults { counted_faults result ≡ 0 }
    {
        CountedSource { inner, faults: 0 }
    }

    /// Whether it has failed.
    pub fn has_failed(&self) -> bool
        ensures { result ≡ nat_lt 0 (counted_faults self.now) }
    {
        self.faults > 0
    }
}

impl<S: Source> Source for CountedSource<S> {
    ghost left = { counted_left S.left };

    ghost faults = { counted_faults };

    fn read(&mut self, buf: &mut [u8]) -> Result<usize, Failed>
        ensures within { IfOk result (λ n. n ≤ length buf.new) }
        ensures given { IfOk result
            (λ n. Gives (counted_left S.left self.old) (counted_left S.left self.new) (take n buf.new)) }
        ensures end { IfOk result (λ n. 0 < length buf.new → n ≡ 0 → AtEnd (counted_left S.left self.new)) }
        ensures err { OnErr result (counted_left S.left self.new ≡ counted_left S.left self.old) }
        ensures fault { CountsFault (counted_faults self.old) (counted_faults self.new) result }
        ensures inner { CountsFault (S.faults self.old.inner) (S.faults self.new.inner) result }
    {
        match self.inner.read(buf) {
            Ok(count) => Ok(count),
            Err(_) => {
                self.faults = self.faults.saturating_add(1);
                Err(Failed)
            }
        }
    }
}
