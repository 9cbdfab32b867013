//! Gates at which jobs wait for one another.

use board::Gate;
use std::sync::atomic::{AtomicU64, Ordering};
use std::thread;

/// How often a worker that is held looks whether it may go on.
const TURNS: u64 = 1_000_000;

/// What jobs wait for.
#[derive(Clone, Copy)]
pub(crate) enum Wait {
    /// Nothing.
    ForNone,
    /// Job 0 waits until job 2 has ended, as often as it comes.
    ForTheLast,
    /// Each of two jobs waits until the other has come as often.
    ForEachOther,
}

/// A gate that counts how often jobs 0 and 1 came, how often job 2 ended, and how often a job was
/// let go too early. If no job waits, it counts none.
#[derive(Drop)]
pub(crate) struct Held {
    wait: Wait,
    come: [AtomicU64; 2],
    gone: AtomicU64,
    given_up: AtomicU64,
}

impl Held {
    /// No job has come.
    pub fn new(wait: Wait) -> Held {
        Held {
            wait,
            come: [AtomicU64::new(0), AtomicU64::new(0)],
            gone: AtomicU64::new(0),
            given_up: AtomicU64::new(0),
        }
    }

    /// Whether each of jobs 0 and 1 came this often, if they wait, and none was let go too early.
    pub fn has_held(&self, often: u64) -> bool {
        self.given_up.load(Ordering::SeqCst) == 0
            && self.come[0].load(Ordering::SeqCst) == often
            && self.come[1].load(Ordering::SeqCst) == often
    }
}

impl Gate for Held {
    fn pass(&self, _seat: u32, job: u64) {
        if job > 1 || matches!(self.wait, Wait::ForNone) {
            return;
        }
        let place = job as usize;
        let before = self.come[place].fetch_add(1, Ordering::SeqCst);
        let awaited = match self.wait {
            Wait::ForEachOther => &self.come[1 - place],
            Wait::ForTheLast if place == 0 => &self.gone,
            _ => return,
        };
        for _ in 0..TURNS {
            if awaited.load(Ordering::SeqCst) > before {
                return;
            }
            thread::yield_now();
        }
        self.given_up.fetch_add(1, Ordering::SeqCst);
    }

    fn left(&self, _seat: u32, job: u64) {
        if job == 2 {
            self.gone.fetch_add(1, Ordering::SeqCst);
        }
    }
}
