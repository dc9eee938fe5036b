//! Gates that hold a call back, or end a session.

ghost use Rattle.std.specs.Prelude.{◌≡◌};

use gi_office::Gate;
use std::rt::Clock;
use std::sync::Wait;
use std::sync::atomic::{AtomicBool, Ordering};
use std::thread;
use std::time::Duration;

/// Holds the first call of session 1 until the first one of session 2 is answered, in turns of one
/// millisecond, and ends session 1 after 10,000 of them.
#[derive(Drop)]
pub struct SecondFirst<'a, C: Clock> {
    clock: &'a C,
    answered: AtomicBool,
}

impl<'a, C: Clock> SecondFirst<'a, C> {
    pub fn new(clock: &'a C) -> SecondFirst<'a, C> {
        SecondFirst {
            clock,
            answered: AtomicBool::new(false),
        }
    }

    /// Waits for the first call of session 2.
    fn is_answered(&self) -> bool {
        for _ in 0..10_000u32 {
            if self.answered.load(Ordering::SeqCst) {
                return true;
            }
            thread::sleep(self.clock, Duration::from_millis(1));
        }
        false
    }
}

impl<'a, C: Clock> Gate for SecondFirst<'a, C> {
    ghost may_go = { λ _ session call. Unit {0} };

    ghost may_end = { λ _ session call. (session ≡ 1) × (call ≡ 1) };

    fn hold<W: Wait>(&self, _rt: &W, session: usize, call: usize) -> bool {
        if session == 1 && call == 1 {
            self.is_answered()
        } else {
            true
        }
    }

    fn answered<W: Wait>(&self, _rt: &W, session: usize, call: usize) {
        if session == 2 && call == 1 {
            self.answered.store(true, Ordering::SeqCst);
        }
    }
}

/// Ends session 1 before its second call.
#[derive(Drop)]
pub struct FirstOnce;

impl Gate for FirstOnce {
    ghost may_go = { λ _ session call. ¬ ((session ≡ 1) × (call ≡ 2)) };

    ghost may_end = { λ _ session call. (session ≡ 1) × (call ≡ 2) };

    fn hold<W: Wait>(&self, _rt: &W, session: usize, call: usize) -> bool {
        session != 1 || call != 2
    }

    fn answered<W: Wait>(&self, _rt: &W, _session: usize, _call: usize) {}
}
