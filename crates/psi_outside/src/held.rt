ghost use Rattle.std.specs.Prelude.{◌≡◌, ◌<◌, ◌≤◌, length};

use crate::{Gate, Point};
use std::marker::Model;
use std::sync::{Mutex, Wait};
use std::thread::Threads;

// The most holds of a gate.
const HOLDS: usize = 32;

/// A thread that passes `at` is held back until some thread has passed `until`. Both are a point and the index that is
/// passed there.
#[derive(Clone, Copy)]
pub struct Hold {
    /// Where a thread is held back.
    pub at: (Point, u32),
    /// What has to be passed before it goes on.
    pub until: (Point, u32),
}

// What threads have passed: for each hold whether its `until` was, and whether a thread went on without it.
#[derive(Drop)]
struct Notes {
    met: [bool; HOLDS],
    late: bool,
}

/// The gate that holds threads back. Each pass is noted first; then, for each hold that is at this point, the thread looks
/// at the notes until that hold's `until` was passed, so many times at the most. Clauses see its holds.
///
/// What it notes is told by no clause: tests see it.
#[derive(Drop)]
pub struct Held {
    limit: u64,
    holds: Vec<Hold>,
    notes: Mutex<Notes>,
}

impl Model for Held {
    ghost use Rattle.std.specs.Prelude.{◌≤◌, List, length};
    ghost use Rattle.psi_outside.specs.declared.held.Hold.{Hold};

    ghost Value = { List Hold };

    ghost view = { λ h. h.holds.items };

    ghost invariant = { λ h. length h.holds.items ≤ 32 };
}

impl Held {
    /// The gate with these holds, of which nothing was passed yet. A held thread looks `limit` times at the most.
    /// Condition: at most 32 holds.
    pub fn open(limit: u64, holds: Vec<Hold>) -> Held
        requires { length holds.items ≤ 32 }
        ensures { result ≡ holds.items }
    {
        let met = [false; HOLDS];
        Held {
            limit,
            holds,
            notes: Mutex::new(Notes { met, late: false }),
        }
    }

    /// Whether a thread has looked `limit` times and went on.
    pub fn late<R: Threads + Wait + Sync>(&self, rt: &R) -> bool {
        self.notes.lock(rt).late
    }

    /// Whether the `until` of a hold was passed. Condition: the number, from 0, is below the number of holds.
    pub fn met<R: Threads + Wait + Sync>(&self, rt: &R, hold: u32) -> bool
        requires { hold < length self.now }
    {
        self.notes.lock(rt).met[hold as usize]
    }

    // Notes that a point was passed.
    fn note<R: Wait>(&self, rt: &R, passed: (Point, u32)) {
        let mut notes = self.notes.lock(rt);
        for (number, hold) in self.holds.iter().enumerate() {
            if hold.until == passed {
                notes.met[number] = true;
            }
        }
    }

    // Looks until the `until` of a hold was passed, so many times at the most.
    fn hold_back<R: Wait>(&self, rt: &R, number: usize)
        requires { number < 32 }
    {
        for _ in 0..self.limit {
            if self.notes.lock(rt).met[number] {
                return;
            }
        }
        self.notes.lock(rt).late = true;
    }
}

impl Gate for Held {
    fn pass<R: Threads + Wait + Sync>(&self, rt: &R, point: Point, index: u32) {
        let passed = (point, index);
        self.note(rt, passed);
        for (number, hold) in self.holds.iter().enumerate() {
            if hold.at == passed {
                self.hold_back(rt, number);
            }
        }
    }
}
