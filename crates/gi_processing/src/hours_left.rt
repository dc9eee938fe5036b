ghost use Rattle.std.specs.Prelude.{◌≡◌, ℕ};
ghost use Rattle.gi_processing.specs.HoursLeft.{CutsHours, left_at, left_under, whole};
ghost use Rattle.gi_processing.specs.Recording.{IsNotice};

use crate::notice::{MOST_PERMILLE, Notice};

/// How many thousandths of both quantities of a contract are available in an hour.
#[derive(Clone, Copy)]
pub struct Thousandths {
    pub firm: u16,
    pub interruptible: u16,
}

impl Thousandths {
    /// Nothing is cut.
    pub const WHOLE: Thousandths = Thousandths {
        firm: MOST_PERMILLE,
        interruptible: MOST_PERMILLE,
    };

    /// What the notice leaves, if there is one, and all where there is none.
    pub fn under(notice: &Option<Notice>) -> Thousandths
        ensures { result ≡ left_under notice.now }
    {
        match notice {
            Some(notice) => notice.left(),
            None => Thousandths::WHOLE,
        }
    }
}

/// What notices leave of each hour of a gas day and direction: all of it where none covers the hour.
#[derive(Clone, Copy)]
pub(crate) struct HoursLeft {
    hours: [Thousandths; 25],
}

impl HoursLeft {
    pub(crate) fn new() -> HoursLeft
        ensures { (hour : ℕ) → left_at result.hours hour ≡ whole }
    {
        HoursLeft {
            hours: [Thousandths::WHOLE; 25],
        }
    }

    pub(crate) fn cut(self, notice: &Notice) -> HoursLeft
        requires { IsNotice notice.now }
        ensures { CutsHours notice.now self.hours result.hours }
    {
        let left = notice.left();
        let mut hours = self.hours;
        for hour in notice.first..notice.last + 1 {
            hours[usize::from(hour) - 1] = left;
        }
        HoursLeft { hours }
    }

    pub(crate) fn at(&self, hour: u8) -> Thousandths
        ensures { result ≡ left_at self.now.hours hour }
    {
        if hour == 0 {
            return Thousandths::WHOLE;
        }
        match self.hours.get(usize::from(hour) - 1) {
            Some(left) => *left,
            None => Thousandths::WHOLE,
        }
    }
}
