// A line of tests: those of one group, or those that always have room.
ghost use Rattle.std.specs.Prelude.{◌≡◌, ◌<◌, length, IfOk};
ghost use Rattle.run_admission.specs.Lined.{IsFirst, IsInOrder, without};

use crate::min_tree::{MinTree, NONE};
use run_capture::Mem;
use std::alloc::Global;
use std::marker::Model;

/// Tests in order, which leave one by one. Contracts see it as `Queue` of `specs/Lined.antt`.
#[derive(Drop)]
pub struct Line {
    tests: Vec<usize>,
    /// What each test takes of the line's limit, or `NONE` once it has left.
    weights: MinTree,
}

impl Model for Line {
    ghost use Rattle.run_admission.specs.Lined.{IsInOrder, Queue};

    ghost Value = { Queue };

    ghost view = { λ l. record { tests = l.tests.items; weights = l.weights } };

    ghost invariant = { λ l. IsInOrder l.tests.items l.weights };
}

impl Line {
    /// A line of these tests, with what each takes.
    pub fn new(alloc: Global, tests: Vec<usize>, weights: &[usize]) -> Mem<Line>
        requires { IsInOrder tests.items weights.now }
        ensures { IfOk result (λ l. l ≡ record { tests = tests.items; weights = weights.now }) }
    {
        let weights = MinTree::new(alloc, weights)?;
        Ok(Line { tests, weights })
    }

    /// The first test that hasn't left and that so much room is enough for, or `NONE`.
    pub fn first(&self, room: u32) -> usize
        ensures { IsFirst self.now room result }
    {
        let place = self.weights.first_within(room);
        if place < self.tests.len() {
            self.tests[place]
        } else {
            NONE
        }
    }

    /// The test at a place leaves.
    pub fn leave(&mut self, place: usize)
        requires { place < length self.old.tests }
        ensures { self.new ≡ without self.old place }
    {
        self.weights.set(place, NONE);
    }
}
