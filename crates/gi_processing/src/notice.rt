ghost use Rattle.std.specs.Prelude.{◌≡◌, IfNone};
ghost use Rattle.gi_processing.specs.HoursLeft.{left_by};
ghost use Rattle.gi_processing.specs.Kept.{notice_key};
ghost use Rattle.gi_processing.specs.Recording.{IsNotice, has_hours, is_over as is_over_of, notice_refusal};

use crate::hours_left::Thousandths;
use crate::notice_fault::NoticeFault;
use crate::notice_key::NoticeKey;
use gi_day::{DayFrame, GasDay};
use gi_pairs::Direction;

/// The greatest per-mille number: nothing is cut.
pub const MOST_PERMILLE: u16 = 1000;

/// How many thousandths of the firm and of the interruptible quantity of each contract of a gas
/// day and direction are available in the hours from `first` to `last`, numbered from 1.
#[derive(Clone, Copy, Debug, PartialEq, Eq)]
pub struct Notice {
    pub day: GasDay,
    pub direction: Direction,
    /// The first hour, from 1.
    pub first: u8,
    /// The last hour, at most the number of the gas day's hours.
    pub last: u8,
    /// From 0 to 1000 thousandths.
    pub firm: u16,
    /// From 0 to 1000 thousandths.
    pub interruptible: u16,
}

impl Notice {
    pub(crate) fn left(&self) -> Thousandths
        ensures { result ≡ left_by self.now }
    {
        Thousandths {
            firm: self.firm,
            interruptible: self.interruptible,
        }
    }

    pub(crate) fn key(&self) -> NoticeKey
        ensures { result ≡ notice_key self.now.day self.now.direction }
    {
        NoticeKey {
            day: self.day,
            direction: self.direction,
        }
    }

    fn is_within(&self, hours: u8) -> bool
        ensures { result ≡ has_hours hours self.now }
    {
        1 <= self.first && self.first <= self.last && self.last <= hours
    }

    fn is_over(&self) -> bool
        ensures { result ≡ is_over_of self.now }
    {
        self.firm > MOST_PERMILLE || self.interruptible > MOST_PERMILLE
    }

    /// Why it is refused, if it is, under the frame of its day: `NoticeRange` where not
    /// 1 <= first <= last <= the day's hours, then `PermilleRange`.
    #[tactic(auto, unfolding(crate::specs::Recording::notice_refusal))]
    pub fn fault(&self, frame: &DayFrame) -> Option<NoticeFault>
        requires { frame.now ≡ self.now.day }
        ensures value { result ≡ notice_refusal self.now }
        ensures in_range { IfNone result (IsNotice self.now) }
    {
        if !self.is_within(frame.hours()) {
            return Some(NoticeFault::NoticeRange);
        }
        if self.is_over() {
            return Some(NoticeFault::PermilleRange);
        }
        None
    }
}
