// A sink into memory, some of whose writes fail.
ghost use Rattle.std.specs.Prelude.{◌≡◌, ◌≤◌, ◌<◌, length, take, IfOk, OnErr, List, [], Some};
ghost use Rattle.run_capture.specs.InMemory.{WritesAs};
ghost use Rattle.run_capture.specs.Bytes.{Takes};
ghost use Rattle.run_capture.specs.Faults.{CountsFault};

use crate::{Failed, List, Mem, Sink};
use bytes::BytesMut;
use std::alloc::Global;
use std::marker::Model;

/// Takes bytes into room that it was made with. One write moves at most so many; the writes of these
/// numbers, counted from 1, fail, and so does one that finds no room left.
#[derive(Drop)]
pub struct MemorySink {
    bytes: BytesMut,
    room: usize,
    most: usize,
    fail: List<u64>,
    writes: u64,
    faults: u64,
}

impl Model for MemorySink {
    ghost use Rattle.std.specs.Prelude.{◌≤◌, ◌<◌};
    ghost use Rattle.run_capture.specs.InMemory.{MemoryWritten};

    ghost Value = { MemoryWritten };

    ghost view = { λ s. record {
      taken = s.bytes.items;
      room = s.room;
      most = s.most;
      fail = s.fail;
      writes = s.writes;
      faults = s.faults;
    } };

    ghost invariant = { λ s. (s.room ≤ s.bytes.spare) × (0 < s.most) };
}

impl MemorySink {
    /// A sink that has taken nothing, with room for so many bytes.
    pub fn new(alloc: Global, room: usize, most: usize, fail: List<u64>) -> Mem<Self>
        requires { 0 < most }
        ensures { IfOk result (λ s. s ≡
            record { taken = []; room = room; most = most; fail = fail; writes = 0; faults = 0 }) }
    {
        Ok(MemorySink {
            bytes: BytesMut::with_capacity(alloc, room)?,
            room,
            most,
            fail,
            writes: 0,
            faults: 0,
        })
    }

    /// The bytes that it has taken.
    pub fn bytes(&self) -> &[u8]
        ensures { result.now ≡ self.now.taken }
    {
        self.bytes.as_slice()
    }
}

impl Sink for MemorySink {
    ghost use Rattle.std.specs.Prelude.{Some};

    ghost taken = { λ s. Some s.taken };

    ghost faults = { λ s. s.faults };

    fn write(&mut self, piece: &[u8]) -> Result<usize, Failed>
        ensures within { IfOk result (λ n. n ≤ length piece.now) }
        ensures some { IfOk result (λ n. 0 < length piece.now → 0 < n) }
        ensures taken { IfOk result
            (λ n. Takes (Some self.old.taken) (Some self.new.taken) (take n piece.now)) }
        ensures err { OnErr result (self.new.taken ≡ self.old.taken) }
        ensures fault { CountsFault self.old.faults self.new.faults result }
        ensures writes { WritesAs self.old piece.now result self.new }
    {
        self.writes = self.writes.saturating_add(1);
        let full = self.room == 0 && !piece.is_empty();
        if full || self.fail.as_slice().contains(&self.writes) {
            self.faults = self.faults.saturating_add(1);
            return Err(Failed);
        }
        let n = piece.len().min(self.room).min(self.most);
        self.bytes.extend_reserved(&piece[..n]);
        self.room -= n;
        Ok(n)
    }
}
