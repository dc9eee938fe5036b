ghost use Rattle.std.specs.Prelude.{◌≡◌};
ghost use Rattle.gi_schedule.specs.Lines.{flow_text, initiating_of, matching_of};

use gi_day::GasDay;
use gi_pairs::{Code, Direction, Pair};

/// Which way gas goes.
#[derive(Clone, Copy)]
pub enum Flow {
    /// In one direction.
    Gross(Direction),
    /// What goes out of the initiating operator's system, less what comes into it.
    Net,
}

impl Flow {
    /// `IM`, `MI` or `net`.
    pub fn as_str(self) -> &'static str
        ensures { result.now ≡ flow_text self }
    {
        match self {
            Flow::Gross(direction) => direction.as_str(),
            Flow::Net => "net",
        }
    }
}

/// A line of a schedule: a gas day, the number of the cycle in force, which way, for which pair, the
/// number of the hour from 1, and the quantity in kWh/h. A total of all pairs has no pair. One of a
/// whole day has no cycle and no hour, and its quantity is in kWh.
#[derive(Clone, Copy)]
pub struct ScheduleLine {
    pub day: GasDay,
    pub cycle: Option<u8>,
    pub flow: Flow,
    pub pair: Option<Pair>,
    pub hour: Option<u8>,
    pub quantity: i64,
}

impl ScheduleLine {
    /// The portfolio at the initiating operator, where the line is of one pair.
    pub(crate) fn initiating(&self) -> Option<Code>
        ensures { result ≡ initiating_of self.now }
    {
        match self.pair {
            Some(pair) => Some(pair.initiating),
            None => None,
        }
    }

    /// The portfolio at the matching operator, where the line is of one pair.
    pub(crate) fn matching(&self) -> Option<Code>
        ensures { result ≡ matching_of self.now }
    {
        match self.pair {
            Some(pair) => Some(pair.matching),
            None => None,
        }
    }
}
