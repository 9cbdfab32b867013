//! A gate that holds a job back, and has a request of a job for memory refused.

use crate::refusals::{Order, refuse};
use board::Gate;
use std::alloc::Global;
use std::sync::atomic::{AtomicU64, Ordering};
use std::thread;

/// A job that is held until another one has ended.
#[derive(Clone, Copy)]
pub struct Wait {
    pub held: u64,
    pub awaited: u64,
    /// The most turns of other threads for which it is held.
    pub turns: u64,
}

/// A job, and the number of its request for memory that is refused.
#[derive(Clone, Copy)]
pub struct Wanting {
    pub job: u64,
    pub number: u64,
}

/// Holds a job as often as it comes, and has a request of a job refused.
#[derive(Drop)]
pub struct Held {
    alloc: Global,
    wait: Option<Wait>,
    want: Option<Wanting>,
    come: AtomicU64,
    gone: AtomicU64,
    /// How often the held job was let go although the other one had not ended.
    pub given_up: AtomicU64,
}

impl Held {
    /// A gate that has seen no job.
    pub fn new(alloc: Global, wait: Option<Wait>, want: Option<Wanting>) -> Held {
        Held {
            alloc,
            wait,
            want,
            come: AtomicU64::new(0),
            gone: AtomicU64::new(0),
            given_up: AtomicU64::new(0),
        }
    }

    /// Holds a job for some turns, until the awaited one has ended as often as this one has come.
    fn hold(&self, turns: u64) {
        let before = self.come.fetch_add(1, Ordering::SeqCst);
        for _ in 0..turns {
            if self.gone.load(Ordering::SeqCst) > before {
                return;
            }
            thread::yield_now();
        }
        self.given_up.fetch_add(1, Ordering::SeqCst);
    }
}

impl Gate for Held {
    fn pass(&self, _seat: u32, job: u64) {
        if let Some(wait) = self.wait {
            if wait.held == job {
                self.hold(wait.turns);
            }
        }
        if let Some(want) = self.want {
            if want.job == job {
                refuse(self.alloc, &Order::RequestHere(want.number));
            }
        }
    }

    fn left(&self, _seat: u32, job: u64) {
        if let Some(want) = self.want {
            if want.job == job {
                refuse(self.alloc, &Order::Nothing);
            }
        }
        if let Some(wait) = self.wait {
            if wait.awaited == job {
                self.gone.fetch_add(1, Ordering::SeqCst);
            }
        }
    }
}
