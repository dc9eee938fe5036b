//! What holds of all words. These functions do nothing; their clauses are the laws.
ghost use Rattle.gi_command_line.specs.Laws.{AboutBookIsTaken, AboutBookNeedsAFile, AuditFormatIsTaken, AuditFormatIsWrong, AuditInWordsIsTaken, AuditIsTaken, AuditNeedsBothBooks, BookInWordsIsTaken, BookIsTaken, BookNeedsItsPoint, DryRunIsTaken, DryRunNeedsBooks, ExpectedIsItsText, ExpectedIsNamed, ExpectedIsTaken, ExpectedIsWrong, ExplainFormatIsTaken, ExplainFormatIsWrong, ExplainIsTaken, ExplainNeedsACycle, ExplainNeedsAnHour, ExplainedBookIsTaken, FormatIsTaken, HourIsMissing, HoursIsTaken, HoursNeedADay, MatchIsTaken, NarrowingIsTaken, NarrowingIsWrong, OfficeClockIsTaken, OfficeInWordsIsTaken, OfficeIsOfNoSide, OfficeIsTaken, OfficeNeedsASide, OfficeNeedsItsBook, OfficeNeedsItsPoint, OfficeStrictIsTaken, OfficeWaitIsTaken, OfficeWaitIsWrong, OldDryRunIsTaken, OldInMemoryIsTaken, OldIsTaken, PageIsTaken, PageNeedsADay, PageNeedsItsPoint, PageOfABookIsTaken, PlainAboutBookIsTaken, PlainExplainIsTaken, ReportIsTaken, ReportNeedsASide, ServeIsTaken, ServeStrictIsTaken, SimulateIsTaken, StrictIsTaken, TraceIsTaken, WaitIsItsText, WaitIsNamed, WaitIsTaken, WaitIsWrong};

/// The program's name, alone or with the word `match`, is a right command line, and asks for `match`.
pub fn match_is_taken()
    ensures { MatchIsTaken }
{}

/// So is the program's name with the word `hours` and a word that starts as a day around the range
/// does, and it asks for that day; without one, the day is missing.
pub fn hours_is_taken()
    ensures taken { HoursIsTaken }
    ensures needs_a_day { HoursNeedADay }
{}

/// So is the program's name with the word `serve`, and it asks for two sessions, for books in memory,
/// which no one waits for, for no old ones, for no dry run, and not strictly; with `--wait`, for a wait of these seconds, with
/// `--old`, for old books alone, with `--dry-run`, for a dry run, which without books is a wrong command line, and with `--strict`,
/// strictly. Each number of seconds has one text, and what is none is a wrong command line.
pub fn serve_is_taken()
    ensures plain { ServeIsTaken }
    ensures waits { WaitIsTaken }
    ensures needs_seconds { WaitIsWrong }
    ensures named { WaitIsNamed }
    ensures text { WaitIsItsText }
    ensures old { OldIsTaken }
    ensures old_in_memory { OldInMemoryIsTaken }
    ensures dry { DryRunIsTaken }
    ensures dry_of_old { OldDryRunIsTaken }
    ensures dry_needs_books { DryRunNeedsBooks }
    ensures strict { ServeStrictIsTaken }
{}

/// So is the program's name with the word `simulate`, which asks for no trace, and not strictly; with `--trace`
/// behind it, which asks for one; and with `--strict`, which asks strictly.
pub fn simulate_is_taken()
    ensures plain { SimulateIsTaken }
    ensures traced { TraceIsTaken }
    ensures strict { StrictIsTaken }
{}

/// So is the program's name with the word `office`, a side, its book's file and its point, which asks for
/// just that office, for no wait, by no clock, and not strictly; with `--wait`, for a wait of these seconds, with
/// `--clock`, by the machine's clock, and with `--strict`, strictly. A side or seconds that are
/// none are a wrong command line; without the side, the book or the point, that is missing.
pub fn office_is_taken()
    ensures taken { OfficeIsTaken }
    ensures waits { OfficeWaitIsTaken }
    ensures by_clock { OfficeClockIsTaken }
    ensures strict { OfficeStrictIsTaken }
    ensures in_words { OfficeInWordsIsTaken }
    ensures of_no_side { OfficeIsOfNoSide }
    ensures needs_seconds { OfficeWaitIsWrong }
    ensures needs_a_side { OfficeNeedsASide }
    ensures needs_its_book { OfficeNeedsItsBook }
    ensures needs_its_point { OfficeNeedsItsPoint }
{}

/// So is the program's name with the word `report`, a kind and a side, which asks for that report of a
/// script, as text; with `--format`, in that format; with `--book` and `--point`, of the book in that file.
/// With `--day` and `--portfolio`, a schedule, cuts or changes of these; another report of them is a wrong
/// command line. Without a side, the side is missing; a book without its point is a wrong command line.
pub fn report_is_taken()
    ensures plain { ReportIsTaken }
    ensures format { FormatIsTaken }
    ensures book { BookIsTaken }
    ensures in_words { BookInWordsIsTaken }
    ensures narrowed { NarrowingIsTaken }
    ensures not_narrowed { NarrowingIsWrong }
    ensures needs_a_side { ReportNeedsASide }
    ensures needs_its_point { BookNeedsItsPoint }
{}

/// So is the program's name with the word `explain` and the seven words of a quantity, behind `--` whatever
/// its portfolios and its day begin with; with `--book` and `--point`, by the book in that file; with `--format`,
/// in that format, else as text. A cycle, an hour or a format that is none is a wrong command line; without an hour,
/// the hour is missing.
pub fn explain_is_taken()
    ensures of_script { ExplainIsTaken }
    ensures of_book { ExplainedBookIsTaken }
    ensures plain { PlainExplainIsTaken }
    ensures format { ExplainFormatIsTaken }
    ensures needs_a_cycle { ExplainNeedsACycle }
    ensures needs_an_hour { ExplainNeedsAnHour }
    ensures needs_a_format { ExplainFormatIsWrong }
    ensures missing { HourIsMissing }
{}

/// So is the program's name with the word `page`, a side and a gas day, behind `--` whatever that begins with,
/// which asks for the page of a script; with `--book` and `--point`, of the book in that file. Without a day, the
/// day is missing; a book without its point is a wrong command line.
pub fn page_is_taken()
    ensures plain { PageIsTaken }
    ensures of_book { PageOfABookIsTaken }
    ensures needs_a_day { PageNeedsADay }
    ensures needs_its_point { PageNeedsItsPoint }
{}

/// So is the program's name with the word `audit`, both books' files and their point, which asks for the
/// audit of just these, as text; with `--format`, in that format. A format that is none is a wrong command line;
/// without one book, that is missing.
pub fn audit_is_taken()
    ensures taken { AuditIsTaken }
    ensures in_words { AuditInWordsIsTaken }
    ensures format { AuditFormatIsTaken }
    ensures needs_a_format { AuditFormatIsWrong }
    ensures needs_both { AuditNeedsBothBooks }
{}

/// So is the program's name with the word `book` and a file, behind `--` whatever its name begins with,
/// which asks for what the book in it is; with `--expect`, for its first facts too: a number, a colon
/// and a digest name just these, in one text. What names none is a wrong command line; without a file,
/// that is missing.
pub fn book_is_taken()
    ensures taken { AboutBookIsTaken }
    ensures expected { ExpectedIsTaken }
    ensures plain { PlainAboutBookIsTaken }
    ensures needs_facts { ExpectedIsWrong }
    ensures needs_a_file { AboutBookNeedsAFile }
    ensures named { ExpectedIsNamed }
    ensures text { ExpectedIsItsText }
{}
