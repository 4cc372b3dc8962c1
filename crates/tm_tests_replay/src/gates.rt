//! Gates that hold threads back, or count them.
use std::sync::Wait;
use std::sync::atomic::{AtomicU64, Ordering};
use std::thread;
use tm_engine::gate::Gate;

// So many turns are waited for another thread.
const TURNS: u64 = 5_000_000;

/// A gate at which two threads meet: each that comes to its place, which is a tree and a record of
/// it, or 0 and an editor, waits until the other has come to its own. One that has waited in vain
/// is counted.
#[derive(Drop)]
pub(crate) struct Meeting {
    left: (u32, u32),
    right: (u32, u32),
    left_came: AtomicU64,
    right_came: AtomicU64,
    in_vain: AtomicU64,
}

impl Meeting {
    /// A gate at which nobody has come yet.
    pub(crate) fn new(left: (u32, u32), right: (u32, u32)) -> Meeting {
        Meeting {
            left,
            right,
            left_came: AtomicU64::new(0),
            right_came: AtomicU64::new(0),
            in_vain: AtomicU64::new(0),
        }
    }

    /// Whether both have come, and nobody has waited in vain.
    pub(crate) fn took_place(&self) -> bool {
        self.left_came.load(Ordering::SeqCst) == 1
            && self.right_came.load(Ordering::SeqCst) == 1
            && self.in_vain.load(Ordering::SeqCst) == 0
    }

    fn wait_for(&self, other: &AtomicU64) {
        for _ in 0..TURNS {
            if other.load(Ordering::SeqCst) == 1 {
                return;
            }
            thread::yield_now();
        }
        self.in_vain.store(1, Ordering::SeqCst);
    }
}

impl Gate for Meeting {
    fn pass<W: Wait>(&self, _rt: &W, tree: u32, place: u32) {
        if (tree, place) == self.left {
            self.left_came.store(1, Ordering::SeqCst);
            self.wait_for(&self.right_came);
        } else if (tree, place) == self.right {
            self.right_came.store(1, Ordering::SeqCst);
            self.wait_for(&self.left_came);
        }
    }
}

/// A gate that counts who comes to it: requests of trees, and lines of editors.
#[derive(Drop)]
pub(crate) struct Counting {
    requests: AtomicU64,
    lines: AtomicU64,
}

impl Counting {
    /// A gate to which nobody has come yet.
    pub(crate) fn new() -> Counting {
        Counting {
            requests: AtomicU64::new(0),
            lines: AtomicU64::new(0),
        }
    }

    /// How many requests and how many lines have come.
    pub(crate) fn counted(&self) -> (u64, u64) {
        (
            self.requests.load(Ordering::SeqCst),
            self.lines.load(Ordering::SeqCst),
        )
    }
}

impl Gate for Counting {
    fn pass<W: Wait>(&self, _rt: &W, tree: u32, _place: u32) {
        let counter = if tree == 0 {
            &self.lines
        } else {
            &self.requests
        };
        counter.fetch_add(1, Ordering::SeqCst);
    }
}

/// A gate that holds every request back until an editor has come so often.
#[derive(Drop)]
pub(crate) struct EditsFirst {
    wanted: u64,
    came: AtomicU64,
    in_vain: AtomicU64,
}

impl EditsFirst {
    /// A gate that waits for so many comings of editors.
    pub(crate) fn new(wanted: u64) -> EditsFirst {
        EditsFirst {
            wanted,
            came: AtomicU64::new(0),
            in_vain: AtomicU64::new(0),
        }
    }

    /// Whether a request has waited in vain.
    pub(crate) fn was_in_vain(&self) -> bool {
        self.in_vain.load(Ordering::SeqCst) == 1
    }
}

impl Gate for EditsFirst {
    fn pass<W: Wait>(&self, _rt: &W, tree: u32, _place: u32) {
        if tree == 0 {
            self.came.fetch_add(1, Ordering::SeqCst);
            return;
        }
        for _ in 0..TURNS {
            if self.came.load(Ordering::SeqCst) >= self.wanted {
                return;
            }
            thread::yield_now();
        }
        self.in_vain.store(1, Ordering::SeqCst);
    }
}
