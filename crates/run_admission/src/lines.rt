// The lines in which tests wait, and which of them all comes first.
ghost use Rattle.std.specs.Prelude.{ℕ, ◌≡◌, ◌<◌, IfOk, length, slice_index, slice_index_or, slice_set};
ghost use Rattle.run_admission.specs.Least.{IsLeast};
ghost use Rattle.run_admission.specs.Lined.{IsFirst, empty, without};

use crate::line::Line;
use crate::min_tree::MinTree;
use run_capture::Mem;
use std::alloc::Global;
use std::marker::Model;

/// The lines, and the first test of each that there is room for. Contracts see `Queues` of `specs/Lined.antt`.
#[derive(Drop)]
pub struct Lines {
    lines: Vec<Line>,
    /// The place of each test in its line.
    places: Vec<usize>,
    /// The first test of each line that there is room for, or `NONE`.
    firsts: MinTree,
}

impl Model for Lines {
    ghost use Rattle.std.specs.Prelude.{◌≡◌, length};
    ghost use Rattle.run_admission.specs.Lined.{Queues};

    ghost Value = { Queues };

    ghost view = { λ q. record { lines = q.lines.items; places = q.places.items; firsts = q.firsts } };

    ghost invariant = { λ q. length q.firsts ≡ length q.lines.items };
}

impl Lines {
    /// These lines, with the first test of each.
    pub fn new(alloc: Global, lines: Vec<Line>, places: Vec<usize>, firsts: &[usize]) -> Mem<Lines>
        requires { length firsts.now ≡ length lines.items }
        ensures { IfOk result (λ q. q ≡ record { lines = lines.items; places = places.items; firsts = firsts.now }) }
    {
        let firsts = MinTree::new(alloc, firsts)?;
        Ok(Lines {
            lines,
            places,
            firsts,
        })
    }

    /// The first of all tests that there is room for, or `NONE`.
    pub fn first(&self) -> usize
        ensures { IsLeast self.now.firsts 0 (length self.now.lines) result }
    {
        self.firsts.least()
    }

    /// A test leaves its line.
    pub fn leave(&mut self, line: usize, test: usize)
        requires line { line < length self.old.lines }
        requires test { test < length self.old.places }
        requires place { slice_index self.old.places test < length (slice_index_or self.old.lines line empty).tests }
        ensures { self.new ≡ record self.old {
          lines = slice_set self.old.lines line
              (without (slice_index_or self.old.lines line empty) (slice_index self.old.places test));
        } }
    {
        let place = self.places[test];
        self.lines[line].leave(place);
    }

    /// The first test of a line is found anew, where so much of the line's limit is left.
    pub fn refresh(&mut self, line: usize, room: u32)
        requires { line < length self.old.lines }
        ensures { (first : ℕ) × IsFirst (slice_index_or self.old.lines line empty) room first
            × (self.new ≡ record self.old { firsts = slice_set self.old.firsts line first }) }
    {
        let first = self.lines[line].first(room);
        self.firsts.set(line, first);
    }
}
