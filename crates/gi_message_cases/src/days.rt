//! Gas days, their hours and cycles.

use crate::order::order_of;
use gi_calls::{Answer, Fault, Subject, Words};
use gi_day::{Calendar, CalendarFault, DayFault, DayFrame, GasDay, NoSuchCycle};

/// The calls of the subject `days`: the calendar of the last `new`, and the frame of the last
/// `frame`.
#[derive(Drop)]
pub struct Days {
    calendar: Option<Calendar>,
    frame: Option<DayFrame>,
}

/// `read TEXT`, the rest of the line.
fn read(given: &str, text: &mut Answer) -> bool {
    match GasDay::read(given) {
        Ok(day) => text.show(day),
        Err(fault) => text.show(fault),
    }
    true
}

/// `compare DAY DAY`.
fn compare(mut words: Words<'_>, text: &mut Answer) -> bool {
    let (Some(left), Some(right)) = (words.day(), words.day()) else {
        return false;
    };
    text.add(order_of(left, right));
    true
}

/// `names`: the refusals of each kind.
fn names(text: &mut Answer) -> bool {
    let (format, range) = (DayFault::DayText, DayFault::DayRange);
    text.show(format);
    text.word(range);
    text.end_line();
    let (zone, length) = (CalendarFault::ZoneRefused, CalendarFault::DayLength);
    let memory = CalendarFault::OutOfMemory;
    text.show(zone);
    text.word(length);
    text.word(memory);
    text.end_line();
    text.show(NoSuchCycle);
    text.end_line();
    true
}

/// `cycle_start CYCLE ..`: the answers for these cycles.
fn cycle_start(frame: DayFrame, words: Words<'_>, text: &mut Answer) -> bool {
    for word in words.rest().split(' ') {
        let Ok(cycle) = word.parse::<u8>() else {
            return false;
        };
        text.value(&frame.cycle_start(cycle));
    }
    true
}

/// `first_hour CYCLE ..`: the answers for these cycles.
fn first_hour(frame: DayFrame, words: Words<'_>, text: &mut Answer) -> bool {
    for word in words.rest().split(' ') {
        let Ok(cycle) = word.parse::<u8>() else {
            return false;
        };
        text.value(&frame.first_hour(cycle));
    }
    true
}

/// `due MOMENT LAST`, the last being `none` or a cycle.
fn due(frame: DayFrame, mut words: Words<'_>, text: &mut Answer) -> bool {
    let Some(moment) = words.moment() else {
        return false;
    };
    let last = match words.next() {
        "none" => None,
        word => match word.parse::<u8>() {
            Ok(cycle) => Some(cycle),
            Err(_) => return false,
        },
    };
    match frame.due(moment, last) {
        Some(cycle) => text.show(cycle),
        None => text.add("none"),
    }
    true
}

/// Adds a frame: its day, its hours and how many cycles it has.
fn add_frame(frame: &DayFrame, text: &mut Answer) {
    text.add("day");
    text.word(frame.day());
    text.add(" hours");
    text.word(frame.hours());
    text.add(" cycles");
    text.word(frame.cycle_count());
}

impl Days {
    pub fn new() -> Days {
        Days {
            calendar: None,
            frame: None,
        }
    }

    /// `new`: the calendar.
    fn make(&mut self, text: &mut Answer) -> bool {
        match Calendar::new() {
            Ok(calendar) => {
                self.calendar = Some(calendar);
                text.add("ok");
            }
            Err(fault) => text.show(fault),
        }
        true
    }

    /// `frame DAY`.
    fn frame(&mut self, mut words: Words<'_>, text: &mut Answer) -> bool {
        let (Some(calendar), Some(day)) = (&self.calendar, words.day()) else {
            return false;
        };
        match calendar.frame(day) {
            Ok(frame) => {
                add_frame(&frame, text);
                self.frame = Some(frame);
            }
            Err(fault) => text.show(fault),
        }
        true
    }

    /// `copy DAY`: whether a copy of the calendar gives the same frame.
    fn copy(&self, mut words: Words<'_>, text: &mut Answer) -> Result<bool, Fault> {
        let (Some(calendar), Some(day)) = (&self.calendar, words.day()) else {
            return Ok(false);
        };
        let Ok(again) = calendar.copy() else {
            return Err(Fault::OutOfMemory);
        };
        let same = again.frame(day) == calendar.frame(day);
        text.add(if same { "same" } else { "other" });
        Ok(true)
    }

    /// The calls of a frame.
    fn on_frame(&self, mut words: Words<'_>, text: &mut Answer) -> bool {
        let Some(frame) = self.frame else {
            return false;
        };
        match words.next() {
            "cycle_start" => cycle_start(frame, words, text),
            "first_hour" => first_hour(frame, words, text),
            "due" => due(frame, words, text),
            _ => false,
        }
    }
}

impl Subject for Days {
    fn answer(&mut self, _: &HostRuntime, call: &str, text: &mut Answer) -> Result<bool, Fault> {
        let mut words = Words::of(call);
        match words.next() {
            "read" => Ok(read(words.rest(), text)),
            "compare" => Ok(compare(words, text)),
            "names" => Ok(names(text)),
            "new" => Ok(self.make(text)),
            "frame" => Ok(self.frame(words, text)),
            "copy" => self.copy(words, text),
            _ => Ok(self.on_frame(Words::of(call), text)),
        }
    }
}
