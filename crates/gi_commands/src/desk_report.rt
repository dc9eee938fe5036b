use gi_command_line::{Format, LineFormat, ReportKind};
use gi_day::GasDay;
use gi_explanations::Question;
use gi_schedule::Wanted;

/// Of which gas day a page is.
#[derive(Clone, Copy)]
pub struct PageDay {
    pub day: GasDay,
}

/// What is told of a side's desk: a list, of which a schedule, cuts and changes are narrowed so, what a
/// quantity comes from, or the page of a gas day.
#[derive(Clone, Copy)]
pub enum DeskReport {
    Listed(ReportKind, Format, Wanted),
    Explanation(Question, LineFormat),
    Page(PageDay),
}
