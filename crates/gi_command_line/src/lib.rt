//! The words of a command line: the commands that the program knows, what their help teaches, and what is asked for.
#![tactic(auto)]

mod commands;
mod expected;
mod laws;
mod numbers;
mod request;
mod sessions;
mod wait;
mod words;

pub use expected::ExpectedFacts;
pub use laws::{
    hours_is_taken, match_is_taken, office_is_taken, page_is_taken, serve_is_taken,
    simulate_is_taken,
};
pub use request::{
    Audit, BookFile, BookFiles, BookQuestion, DayPage, Explanation, Format, LineFormat, Mistake,
    NamedQuantity, Narrowing, OfficeRun, Report, ReportKind, Request, Service, Task, format_named,
    kind_named, line_format_named,
};
pub use sessions::Sessions;
pub use wait::WaitSeconds;
pub use words::requested;
