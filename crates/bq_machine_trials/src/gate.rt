//! Where one thread is held until another has the answers that it came for.

use std::sync::atomic::{AtomicBool, Ordering};
use std::thread::yield_now;

/// How often a held thread looks whether it may go on.
const TURNS: u32 = 1_000_000;

/// What a thread is about to do when it comes to a gate: it reads the clock of this processor, or calls processor 0's queue for its
/// mark, whether the running task gives way, its choice, or one of its tasks. No thread comes to the point `Nowhere`.
#[derive(Clone, Copy, PartialEq, Eq)]
pub enum Point {
    Nowhere,
    Clock(u8),
    Mark,
    Preempt,
    Choice,
    Take,
}

/// Holds the first thread that comes to its point once it is armed, until it is opened, or for `TURNS` turns.
#[derive(Drop)]
pub struct Gate {
    point: Point,
    armed: AtomicBool,
    entered: AtomicBool,
    opened: AtomicBool,
    seen: AtomicBool,
}

impl Gate {
    /// A gate at this point. It is not armed, so it holds no thread.
    pub fn new(point: Point) -> Gate {
        Gate {
            point,
            armed: AtomicBool::new(false),
            entered: AtomicBool::new(false),
            opened: AtomicBool::new(false),
            seen: AtomicBool::new(false),
        }
    }

    /// The next thread that comes is held.
    pub fn arm(&self) {
        self.armed.store(true, Ordering::SeqCst);
    }

    /// The held thread may go on.
    pub fn open(&self) {
        self.opened.store(true, Ordering::SeqCst);
    }

    /// Returns whether a thread is, or was, held, once one has come or `TURNS` turns have gone by.
    pub fn is_entered(&self) -> bool {
        for _ in 0..TURNS {
            if self.entered.load(Ordering::SeqCst) {
                return true;
            }
            yield_now();
        }
        false
    }

    /// Returns whether a thread was held, and went on because the gate was opened.
    pub fn was_opened(&self) -> bool {
        self.seen.load(Ordering::SeqCst)
    }

    /// A thread comes to this point.
    pub fn pass(&self, point: Point) {
        if point != self.point || !self.armed.swap(false, Ordering::SeqCst) {
            return;
        }
        self.entered.store(true, Ordering::SeqCst);
        for _ in 0..TURNS {
            if self.opened.load(Ordering::SeqCst) {
                self.seen.store(true, Ordering::SeqCst);
                return;
            }
            yield_now();
        }
    }
}
