// A source over bytes in memory, some of whose reads fail.
ghost use Rattle.std.specs.Prelude.{◌≡◌, ◌≤◌, ◌<◌, length, take, IfOk, OnErr, List, [], min, Some};
ghost use Rattle.run_capture.specs.InMemory.{ReadsAs};
ghost use Rattle.run_capture.specs.Bytes.{Gives, AtEnd};
ghost use Rattle.run_capture.specs.Faults.{CountsFault};

use crate::{Blob, Failed, List, Source};
use std::marker::Model;

/// Bytes in memory. One read moves at most so many; the reads of these numbers, counted from 1, fail.
#[derive(Drop)]
pub struct MemorySource {
    bytes: Blob,
    at: usize,
    most: usize,
    fail: List<u64>,
    reads: u64,
    faults: u64,
}

impl Model for MemorySource {
    ghost use Rattle.std.specs.Prelude.{drop, length, ◌≤◌, ◌<◌};
    ghost use Rattle.run_capture.specs.InMemory.{MemoryRead};

    ghost Value = { MemoryRead };

    ghost view = { λ s. record {
      left = drop s.at s.bytes;
      most = s.most;
      fail = s.fail;
      reads = s.reads;
      faults = s.faults;
    } };

    ghost invariant = { λ s. (s.at ≤ length s.bytes) × (0 < s.most) };
}

impl MemorySource {
    /// A source with these bytes left.
    pub fn new(bytes: Blob, most: usize, fail: List<u64>) -> Self
        requires { 0 < most }
        ensures { result ≡ record { left = bytes; most = most; fail = fail; reads = 0; faults = 0 } }
    {
        MemorySource {
            bytes,
            at: 0,
            most,
            fail,
            reads: 0,
            faults: 0,
        }
    }
}

// Copies as many bytes as both have, at most so many, and answers their number.
fn copy_front(buf: &mut [u8], bytes: &[u8], most: usize) -> usize
    ensures count { result ≡ min (min (length bytes.now) (length buf.old)) most }
    ensures copied { take result buf.new ≡ take result bytes.now }
{
    let n = bytes.len().min(buf.len()).min(most);
    buf[..n].copy_from_slice(&bytes[..n]);
    n
}

impl Source for MemorySource {
    ghost use Rattle.std.specs.Prelude.{Some};

    ghost left = { λ s. Some s.left };

    ghost faults = { λ s. s.faults };

    fn read(&mut self, buf: &mut [u8]) -> Result<usize, Failed>
        ensures within { IfOk result (λ n. n ≤ length buf.new) }
        ensures given { IfOk result
            (λ n. Gives (Some self.old.left) (Some self.new.left) (take n buf.new)) }
        ensures end { IfOk result (λ n. 0 < length buf.new → n ≡ 0 → AtEnd (Some self.new.left)) }
        ensures err { OnErr result (self.new.left ≡ self.old.left) }
        ensures fault { CountsFault self.old.faults self.new.faults result }
        ensures reads { ReadsAs self.old (length buf.old) result self.new }
    {
        self.reads = self.reads.saturating_add(1);
        if self.fail.as_slice().contains(&self.reads) {
            self.faults = self.faults.saturating_add(1);
            return Err(Failed);
        }
        let rest = &self.bytes.as_slice()[self.at..];
        let n = copy_front(buf, rest, self.most);
        self.at += n;
        Ok(n)
    }
}
