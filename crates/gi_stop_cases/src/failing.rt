ghost use Rattle.std.specs.Prelude.{◌≡◌, ◌+◌};
ghost use Rattle.sqlite_disk.specs.Disk.{CountsFault};

use sqlite_disk::{Disk, Tally};
use std::io;

/// A disk that fails at one of its writes, changing nothing, and goes on.
#[derive(Drop)]
pub struct FailsOnce<D: Disk> {
    inner: D,
    /// How many writes are still made before that one; `None` after it.
    before: Option<u64>,
    failed: u64,
}

impl<D: Disk> FailsOnce<D> {
    /// A disk that fails after so many writes.
    pub fn new(inner: D, before: u64) -> FailsOnce<D> {
        FailsOnce {
            inner,
            before: Some(before),
            failed: 0,
        }
    }

    /// Whether the write that fails is over.
    pub fn has_failed(&self) -> bool {
        self.before.is_none()
    }
}

impl<D: Disk> Disk for FailsOnce<D> {
    ghost seen = { λ f. D.Disk.seen f.inner };

    ghost may_leave = { λ f. D.Disk.may_leave f.inner };

    ghost is_usable = { λ f. D.Disk.is_usable f.inner };

    ghost faults = { λ f. D.Disk.faults f.inner + f.failed };

    ghost is_clean = { λ f. D.Disk.is_clean f.inner };

    ghost tally_of = { λ f. D.Disk.tally_of f.inner };

    ghost key_of = { λ f. D.Disk.key_of f.inner };

    ghost is_fair = { λ f. D.Disk.is_fair f.inner };

    ghost is_rotten = { λ f. D.Disk.is_rotten f.inner };

    ghost is_mixing = { λ f. D.Disk.is_mixing f.inner };

    ghost fair_if_clean = { λ f. D.Disk.fair_if_clean f.inner };

    ghost seen_may_stay = { λ f. D.Disk.seen_may_stay f.inner };

    fn mixes(&self) -> bool {
        self.inner.mixes()
    }

    fn key(&self) -> u64 {
        self.inner.key()
    }

    fn tally(&self) -> Tally {
        self.inner.tally()
    }

    fn may_be_used(&self) -> bool {
        self.inner.may_be_used()
    }

    fn len(&mut self) -> io::Result<usize> {
        self.inner.len()
    }

    fn read_at(&mut self, at: usize, buf: &mut [u8]) -> io::Result<()> {
        self.inner.read_at(at, buf)
    }

    fn read_checked(&mut self, key: u64, want: u64, at: usize, buf: &mut [u8]) -> io::Result<()> {
        self.inner.read_checked(key, want, at, buf)
    }

    fn write_at(&mut self, at: usize, bytes: &[u8]) -> io::Result<()> {
        match self.before {
            Some(0) => {
                self.before = None;
                self.failed = self.failed.saturating_add(1);
                Err(io::Error::other("this write fails"))
            }
            Some(before) => {
                self.before = Some(before - 1);
                self.inner.write_at(at, bytes)
            }
            None => self.inner.write_at(at, bytes),
        }
    }

    fn set_len(&mut self, len: usize) -> io::Result<()> {
        self.inner.set_len(len)
    }

    fn sync(&mut self) -> io::Result<()> {
        self.inner.sync()
    }
}
