//! The gate of the runs that are tried.

use fx_outside::{Gate, Moment};
use std::sync::Wait;
use std::sync::atomic::{AtomicU64, Ordering};
use std::thread;
use test_lines::{number, split_word};

/// How often a thread that is held yields before it goes on all the same.
const YIELDS: u64 = 20_000_000;

/// What a hold has of a place where it is at none.
const NOWHERE: u64 = 0;

/// Holds each shell that comes to a place until a shell has come to another place, in each run anew.
#[derive(Drop)]
struct Hold {
    at: AtomicU64,
    until: AtomicU64,
    come: AtomicU64,
    held: AtomicU64,
    /// Whether a run has begun since it was set.
    begun: AtomicU64,
    /// Whether an earlier run was missed.
    missed: AtomicU64,
}

/// A gate with two holds. A shell that is held at one has told the other that it has come.
#[derive(Drop)]
pub struct Door {
    first: Hold,
    second: Hold,
    looked: AtomicU64,
    /// The number of the run where each delays its shells, and else 0.
    run: AtomicU64,
}

/// When a shell passes a gate.
#[derive(Clone, Copy)]
enum When {
    /// Before its first look.
    Looks,
    /// Before a later one.
    LooksAgain,
    Settles,
    Settled,
}

/// A shell at a time, as a number other than that of nowhere.
fn place_of(shell: u32, when: When) -> u64 {
    let when = match when {
        When::Looks => 1,
        When::LooksAgain => 2,
        When::Settles => 3,
        When::Settled => 4,
    };
    u64::from(shell) * 8 + when
}

fn when_of(name: &str) -> When {
    match name {
        "looks" => When::Looks,
        "looks-again" => When::LooksAgain,
        "settles" => When::Settles,
        _ => When::Settled,
    }
}

/// How often a shell yields at the gate in a run of this number, up to four times.
fn delay(run: u64, shell: u32) -> u64 {
    match shell {
        0 => run % 5,
        1 => (run / 5) % 5,
        _ => (run / 25) % 5,
    }
}

/// The bit of a shell.
fn bit_of(shell: u32) -> u64 {
    1u64.checked_shl(shell).unwrap_or(0)
}

/// The place that the first two words of a line name, and what is left.
fn read_place(line: &str) -> (u64, &str) {
    let (shell, rest) = split_word(line);
    let (when, rest) = split_word(rest);
    (place_of(number(shell), when_of(when)), rest)
}

impl Hold {
    fn new() -> Hold {
        Hold {
            at: AtomicU64::new(NOWHERE),
            until: AtomicU64::new(NOWHERE),
            come: AtomicU64::new(0),
            held: AtomicU64::new(0),
            begun: AtomicU64::new(0),
            missed: AtomicU64::new(0),
        }
    }

    fn set(&self, at: u64, until: u64) {
        self.at.store(at, Ordering::SeqCst);
        self.until.store(until, Ordering::SeqCst);
        self.come.store(0, Ordering::SeqCst);
        self.held.store(0, Ordering::SeqCst);
        self.begun.store(0, Ordering::SeqCst);
        self.missed.store(0, Ordering::SeqCst);
    }

    /// Holds anew in the next run.
    fn begin(&self) {
        if self.begun.swap(1, Ordering::SeqCst) > 0 && self.held.load(Ordering::SeqCst) == 0 {
            self.missed.store(1, Ordering::SeqCst);
        }
        self.come.store(0, Ordering::SeqCst);
        self.held.store(0, Ordering::SeqCst);
    }

    fn is_set(&self) -> bool {
        self.at.load(Ordering::SeqCst) != NOWHERE
    }

    fn note(&self, place: u64) {
        if place == self.until.load(Ordering::SeqCst) {
            self.come.store(1, Ordering::SeqCst);
        }
    }

    fn wait(&self) {
        for _ in 0..YIELDS {
            if self.come.load(Ordering::SeqCst) > 0 {
                self.held.store(1, Ordering::SeqCst);
                return;
            }
            thread::yield_now();
        }
    }

    fn hold(&self, place: u64) {
        if place == self.at.load(Ordering::SeqCst) {
            self.wait();
        }
    }

    /// Whether it is set, and in some run no shell that it held saw the other come.
    fn is_missed(&self) -> bool {
        if self.missed.load(Ordering::SeqCst) > 0 {
            return self.is_set();
        }
        self.is_set() && self.held.load(Ordering::SeqCst) == 0
    }
}

impl Door {
    pub fn new() -> Door {
        Door {
            first: Hold::new(),
            second: Hold::new(),
            looked: AtomicU64::new(0),
            run: AtomicU64::new(0),
        }
    }

    /// Holds and delays nobody.
    pub fn open(&self) {
        self.first.set(NOWHERE, NOWHERE);
        self.second.set(NOWHERE, NOWHERE);
        self.run.store(0, Ordering::SeqCst);
    }

    /// Begins the next run.
    pub fn begin(&self) {
        self.first.begin();
        self.second.begin();
        self.looked.store(0, Ordering::SeqCst);
        if self.run.load(Ordering::SeqCst) > 0 {
            self.run.fetch_add(1, Ordering::SeqCst);
        }
    }

    /// Has each shell yield where it passes, so often as the number of the run says.
    pub fn delay(&self) {
        self.run.store(1, Ordering::SeqCst);
    }

    fn wait(&self, shell: u32) {
        for _ in 0..delay(self.run.load(Ordering::SeqCst), shell) {
            thread::yield_now();
        }
    }

    /// Holds a shell at a time until another has come to a time of its own: `1 settles 0 settled`.
    pub fn hold(&self, line: &str) {
        let (at, rest) = read_place(line);
        let (until, _) = read_place(rest);
        let hold = if self.first.is_set() {
            &self.second
        } else {
            &self.first
        };
        hold.set(at, until);
    }

    /// When this is, of a shell that passes. Its first look is noted.
    fn when(&self, shell: u32, moment: Moment) -> When {
        match moment {
            Moment::BeforeLook => {
                let bit = bit_of(shell);
                let before = self.looked.fetch_or(bit, Ordering::SeqCst);
                if before & bit == 0 {
                    return When::Looks;
                }
                When::LooksAgain
            }
            Moment::BeforeSettle => When::Settles,
            Moment::Settled => When::Settled,
        }
    }

    /// Whether a hold had no shell that saw the other come.
    pub fn is_missed(&self) -> bool {
        self.first.is_missed() || self.second.is_missed()
    }
}

impl Gate for Door {
    fn pass<R: Wait>(&self, _rt: &R, shell: u32, _txn: u32, moment: Moment) {
        let place = place_of(shell, self.when(shell, moment));
        self.first.note(place);
        self.second.note(place);
        self.first.hold(place);
        self.second.hold(place);
        self.wait(shell);
    }
}
