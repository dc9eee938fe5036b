//! The commands that the program knows, their words and options, and what their help teaches.
ghost use Rattle.std.specs.Prelude.{◌≡◌, IfOk, false, true};
ghost use Rattle.clap.specs.Words.{App, app_of, new_app, rule_of, with_rule, with_subcommand};
ghost use Rattle.gi_command_line.specs.CommandLine.{flag as flag_rule, named, needed as needed_rule, option as option_rule, the_audit, the_book, the_explain, the_hours, the_match, the_office, the_page, the_program, the_report, the_serve, the_simulate, with_book as with_book_rules, with_hour as with_hour_rules, with_narrowing as with_narrowing_rules, with_pair as with_pair_rules, word as word_rule};

use clap::{Arg, ArgAction, Command};
use std::alloc::{AllocError, Global};

const STRICT: &str = "Exit status 1 where anything is refused";

const PROGRAM_HELP: &str = "\
With no command `match` is meant. A fault is one line on standard error,
`gi_dispatch: ` and its name (a wrong command line is told in more words), and
nothing on standard output, unless memory or a writer fails, an office that
runs gives up, offices or books do not agree, books close no cycle, or a book
is not as expected.

Exit status: 0 done, 1 refused input, a reader or writer that failed, offices
or books that do not agree, books that close no cycle, a book that is not as
expected, or with --strict a step that was refused, 2 wrong command line, 3 a
book that is none, is another's, is missing, is in use, lost facts or failed, 4
want of memory.

Examples: dispatch match < examples/match.txt
          dispatch hours 2026-01-15
          dispatch simulate --trace < examples/day.script
          dispatch office I --book day-I.db --point BORDER-1 < requests
          dispatch report confirmed I < examples/day.script
          dispatch explain I A B IM 2026-01-15 35 24 < examples/day.script
          dispatch page I 2026-01-15 < examples/day.script > day.html
          dispatch audit --initiating day-I.db --matching day-M.db \\
            --point BORDER-1
          dispatch book day-I.db
          dispatch serve < scenarios/serve/plain_exchange.script
          dispatch help Stale

`dispatch help NAME` tells what a fault, a refusal or an abbreviation asks of
its reader, and `dispatch help COMMAND` is `dispatch COMMAND --help`. Where
standard error is a terminal, a fault tells the same behind its line, and where
it is; `dispatch --verbose COMMAND` tells where it is in any case.";

const HOURS_HELP: &str = "\
DAY is a gas day from 2000-01-01 to 2199-12-31, written YYYY-MM-DD. It starts
at 06:00 Central European time, and has 23 or 25 hours where the clock changes
before it ends (on the Saturday). Standard output gets one line with the number
of its hours and cycles, and one for each nomination cycle: its number, its
start in UTC, and the first hour that it covers (it covers all later hours
too). Standard input is not read.

Faults, the first of: DayText (not YYYY-MM-DD of a date of the calendar),
DayRange (a date outside the range), Write.";

const MATCH_HELP: &str = "\
Standard input has two lines of JSON: the initiating operator's DELORD, and the
matching operator's own processed table in the form of a DELORD. Standard
output gets one line, the DELRES: for each portfolio pair, direction and hour
the lower of the two quantities, in kWh/h.

Faults, the first of: Read, TooLarge (over 67,108,864 bytes), Lines (not two
lines), `order: ` or `own: ` with what is wrong with that line (Parts where it
is one part of several), ShapeDiffers (another point, day, cycle or hours),
Write.";

const SIMULATE_HELP: &str = "\
Standard input is a script: both operators' desks and the carriers between
them, step by step. Its first line is `point CODE`, and each further one, with
SIDE `I` or `M`, is one of

  SIDE contract PORTFOLIO DAY DIRECTION FIRM INTERRUPTIBLE    kWh/h in each hour
  SIDE notice DAY DIRECTION FIRST LAST FIRM INTERRUPTIBLE     hours; per mille
  SIDE submit BODY              a NOMINT, to the end of the line
  SIDE close DAY CYCLE [RULE]   1 or 2; 2 where it is left out
  SIDE resend DAY CYCLE
  SIDE halt
  SIDE save COUNT               the next COUNT unsaved facts
  SIDE deliver NUMBER           that packet of the other side
  SIDE restart KEEP             from the first KEEP facts
  SIDE carry                    what the carrier gives to SIDE
  plan SIDE MOVES               pass, drop, repeat, hold

By rule 1 a portfolio's lines share what is available to it all alike, by rule
2 those of lower priority numbers come first.

Standard output gets a line for each step: the number of the script's line, the
side, and what came of it. Two lines with what each side holds come last. With
--trace, lines that begin with two spaces follow a step's: what a carrier did
with a message, as `  pass DELORD 2026-01-15 35`, and one for each packet that
the step let out, as `  -> M DELORD 2026-01-15 35` to the other side or `  -> B
NOMRES 2026-01-15 35 A IM 24: 7` to a portfolio, with its counterparty,
direction, first hour and quantities in kWh/h. With --strict, where no fault
comes and a step was refused, the exit status is 1, and the last line on
standard error tells how many were, as `3 refused`.

Faults, the first of: Read, TooLarge (over 67,108,864 bytes), Point (no first
line `point CODE`), `line N: Unreadable`, before any step; then Write. Where
memory runs out in a step, the lines of those before it are written.";

const OFFICE_HELP: &str = "\
One operator's office, of SIDE `I` or `M`, which runs as long as standard input
has lines. FILE is its book, an SQLite database, which is made where it is not
there, and CODE is the interconnection point that it is of. With --wait a book
that another process has open is tried again for SECONDS (0 to 3600; 0 where no
number is given) before it is Busy. Each line of standard input is a request: a
call, in the words that a script has behind its SIDE, or a query. With --clock
a line `due MOMENT` comes beside these each minute, the first one at once, by
the machine's clock.

  contract PORTFOLIO DAY DIRECTION FIRM INTERRUPTIBLE    kWh/h in each hour
  notice DAY DIRECTION FIRST LAST FIRM INTERRUPTIBLE     hours; per mille
  submit BODY                     a NOMINT, to the end of the line
  deliver BODY                    a message of the other operator, likewise
  close DAY CYCLE [RULE]          1 or 2; 2 where it is left out
  resend DAY CYCLE
  halt
  due MOMENT                      closes what is due at YYYY-MM-DDTHH:MMZ (UTC)
  outgoing N                      what the facts from number N on let out
  facts
  report KIND                     open or confirmed
  report KIND [DAY [PORTFOLIO]]   schedule, cut or changes
  explain INITIATING MATCHING DIRECTION DAY CYCLE HOUR

Standard output gets one JSON object a line, compact and with its keys in byte
order. Each line of standard input is answered, in their order:

  {\"answer\":\"recorded\",\"fact\":2,\"line\":4}
  {\"answer\":\"refused\",\"line\":6,\"name\":\"Stale 2\",\"portfolio\":\"A\"}

The answer of a call is `recorded` or `repeat`, with the number of the fact;
`kept`, for one of several parts of a message of the other operator, with how
many are kept and how many there are; `resent`; `stopped`; or `refused`, with
the name of what is wrong, and with the portfolio where a submission could be
read. A line that is no request, or is cut off before its line feed, is refused
as Unreadable, and one of more than 16,777,472 bytes as TooLarge; the office
runs on. Each message that is let out is a packet, to a portfolio or to the
other operator, `peer`:

  {\"fact\":2,\"message\":{..},\"to\":\"A\"}

It comes behind the answer of its fact. No `recorded`, no `closed` and no
packet is written before its fact stands in the book. A query is answered of
what stands there. `due` closes in order each cycle that has started, while
neither it nor a later one of its day is closed, of the gas days from the one
before MOMENT's to two after it; how many these are is told, and then what each
came to. A reader that died goes on by `outgoing`, from the last fact of which
it saw a packet. At the end of standard input all is saved, the book is closed,
and a last line tells how many facts it has, how many are saved, and how many
cycles are confirmed. With --strict, where no fault comes and an answer was
`refused`, the exit status is 1, and the last line on standard error tells how
many were, as `3 refused`.

Faults, the first of: CodeText (CODE is no code); Head, Store, Version, Gap N,
Damaged N, Lost N, OtherBook SIDE POINT, BadFact N or Busy, as `serve` tells
them of one book; then, behind the lines of what was done, Read, Write, Store
X (a save failed by fault X; what was saved before is written), Office X or
Marked X (a turn was not made, or its mark was refused), SeatFull (a halted
office has noted 4,000,000 calls), Unsaved or Unsettled (which no run should
meet), OutOfMemory, or Store (the book could not be closed).

Exit status: 0 done, 1 CodeText, Read, Write, Office X, Marked X, an office
that gave up, or with --strict an answer `refused`, 2 wrong command line, 3 any
other fault of the book, 4 want of memory.

Example: dispatch office I --book day-I.db --point BORDER-1 < requests";

const REPORT_HELP: &str = "\
KIND is `open` (closed cycles that are not confirmed), `confirmed` (confirmed
quantities in kWh/h, hour by hour), `refused` (how many submissions of each
portfolio were refused), `schedule` (what is in force for each hour, with
totals), `cut` (where a pair gets less than was nominated) or `changes` (what
each confirmed cycle changed of what was in force before it), and SIDE is `I`
or `M`. --day and --portfolio narrow the last three. FORMAT is `text` in
columns, `csv` with a header line, or `json` with an object a line. Standard
input is a script as for `simulate`, whose steps are made and not told. With
--book and --point the side's desk is read from its book instead, standard
input is not read, and `refused` has no lines.

Faults: CodeText (the portfolio is no code), DayText or DayRange (DAY is no gas
day); then those of `simulate`. With a book, the first of: CodeText (CODE is no
code), Head (what stands beside it as its head is none), Store (the file is not
there, is no database, or cannot be read), Version (no book, as an empty file),
Gap N or Damaged N (a row is missing or broken), Lost N (the book lacks facts
of the N that its head tells), OtherBook SIDE POINT (it is theirs), BadFact N
(no desk records fact N after those before it), Write. The book is read from a
copy in memory: no file is made or changed, and another command may have it
open.";

const EXPLAIN_HELP: &str = "\
What one quantity comes from at SIDE, `I` or `M`: that of the initiating
operator's portfolio INITIATING and the matching one's MATCHING, in DIRECTION
(`IM` or `MI`), on the gas day DAY (YYYY-MM-DD), in nomination cycle CYCLE (0
to 36) and in hour HOUR (1 to 25). Standard output gets lines in an order that
is always the same, with the numbers of the facts: what was asked, the
nomination, the contract and the notice that count, what is available, what
lines of lower priority numbers leave of that (left out where the cycle is
closed by rule 1), the sums of what is nominated, the processed quantity by its
formula, the closing that froze it, the other side's quantity, the lower of
both, whether that is confirmed, and whom it was told. FORMAT is `text`, or
`json` with an object for each of these lines. Standard input is a script as
for `report`; with --book and --point the side's desk is read from its book
instead.

Faults, the first of: CodeText (INITIATING or MATCHING is no code), DayText or
DayRange, as for `hours`; then those of `report`.";

const PAGE_HELP: &str = "\
The gas day DAY (YYYY-MM-DD) of SIDE, `I` or `M`, as one HTML page for people:
what was nominated, what each operator processed and what is in force, in
charts by direction, in tables by hour and by pair; what was cut, and by whom;
and how far each nomination cycle is. The page loads nothing and has no script;
it is dated by the number of the side's facts, since no clock is asked.
Standard input is a script as for `report`; with --book and --point the side's
desk is read from its book instead.

Faults, the first of: DayText or DayRange, as for `hours`; then those of
`report`.

Example: dispatch page I 2026-01-15 < examples/day.script > day.html";

const AUDIT_HELP: &str = "\
Compares the books of both operators, as an outsider would: it trusts neither,
and makes each side's desk from its facts. The books have to be of one moment,
when no office runs. Standard output gets a line for each cycle that either has
closed: agreed, with the sum of its confirmed quantities by direction in kWh;
open at I or at both; or what differs, with the numbers of the facts, the first
row and hour, and both quantities. The last line is `agreed` (a cycle is, and
none differs) or `open` (cycles are closed, none is agreed, and none differs),
with exit status 0; or `empty` (neither has closed a cycle) or `differs at DAY
CYCLE` for the first cycle that differs, with exit status 1. FORMAT is `text`,
or `json` with an object for each line. Standard input is not read.

Faults, the first of: CodeText (CODE is no code); what is told of the
initiating operator's book as for `report`, then of the matching one's; BadFact
N of the one, then of the other; Write; Differs or Empty, once the lines are
written.";

const BOOK_HELP: &str = "\
What the book in FILE is. Standard output gets seven lines, such as these,
always in this order:

  owner I BORDER-1   its side and point; `?` of an older program's book
  facts 152          how many facts are saved
  digest 3f..        SHA-256, chained from fact to fact: 64 of 0-9 and a-f
  closed 12          how many cycles are closed
  confirmed 11       how many of them are confirmed
  room 999848 62     how many more facts, and portfolios, the book takes
  log 4120           bytes of the log beside it, FILE-wal; 0 without rows

A book only grows, so its first N facts keep their digest, whatever comes
behind them. With --expect the first N (0 to 1000000, with no zero in front)
have to be there and to have this DIGEST: note what `facts` and `digest` tell,
and ask for it later, or of a copy. Standard input is not read. The book is
read from a copy in memory: no file is made or changed, and another command may
have it open.

Faults, the first of: Head, Store, Version, Gap N, Damaged N, Lost N or BadFact
N, as for `report`; Write; Unexpected (there are fewer than N facts, or they
have another digest), after the lines.

Exit status: 0 done, 1 Unexpected or Write, 2 wrong command line, 3 any other
fault of the book, 4 want of memory.

Example: dispatch book day-I.db";

const SERVE_HELP: &str = "\
Standard input is a script as for `simulate`, without `save`, `deliver` and
`restart` lines: two running offices save by themselves, and only what the
carriers give is delivered. Each longest run of `submit` lines is a batch,
which N sessions of each office (1 to 8, 2 where no number is given) make at
the same time, each portfolio by one of them. The offices go on with the books
in the files PREFIX-I.db and PREFIX-M.db, which are both made where there is
neither; with no PREFIX, the books are in memory. With --old none is made, and
both have to be there. With --wait a book that another process has open is
tried again for SECONDS (0 to 3600; 0 where no number is given) before it is
Busy. Without --books both have no effect. A book of version 1 becomes one of
version 2, which older programs refuse. With --dry-run, which needs --books,
the offices go on with copies of the books in memory: no file is made or
changed, and what is told is what would be without it. A book that is in use
is then read as it stands, and --wait has no effect.

Standard output gets a line for each step, with no numbers of facts: the number
of the script's line, the side, and what came of it. It is written once that is
saved. Then come two lines with what each side holds, and three that tell
whether each office's records agree with its desk, and the two offices with each
other. With --strict, where no fault comes and a step was refused, the exit
status is 1, and the last line on standard error tells how many were, as
`3 refused`.

Faults, the first of: Read, TooLarge, Point, `line N: Unreadable`, as for
`simulate`; MissingBook I or M (it is not there, and the other side's has facts
or cannot be read, or --old is given); what is told of a copy of I's book as
for `report`, and then of M's; TwoPasts DAY CYCLE (the books differ, as `audit`
tells it: exit status 1). Up to here nothing is made or changed. Then, for the
book of I and then for that of M, Busy (another process has it open), or what
is told of it as it is opened; then Write or what a running office could not
do, whichever comes first, told after the lines of what was done before; and
Store, where a book could not be closed.";

fn word<'a>(alloc: Global, name: &'a str, help: &'a str) -> Arg<'a>
    ensures rule { rule_of result ≡ word_rule name.entry.now }
    ensures local { result.global ≡ false }
{
    Arg::new(alloc, name).required(true).help(help)
}

fn option<'a>(alloc: Global, name: &'a str, value: &'a str, help: &'a str) -> Arg<'a>
    ensures rule { rule_of result ≡ option_rule name.entry.now }
    ensures local { result.global ≡ false }
{
    Arg::new(alloc, name)
        .long(name)
        .value_name(value)
        .help(help)
}

fn needed<'a>(alloc: Global, name: &'a str, value: &'a str, help: &'a str) -> Arg<'a>
    ensures rule { rule_of result ≡ needed_rule name.entry.now }
    ensures local { result.global ≡ false }
{
    option(alloc, name, value, help).required(true)
}

fn flag<'a>(alloc: Global, name: &'a str, help: &'a str) -> Arg<'a>
    ensures rule { rule_of result ≡ flag_rule name.entry.now }
    ensures local { result.global ≡ false }
{
    Arg::new(alloc, name)
        .long(name)
        .action(ArgAction::SetTrue)
        .help(help)
}

// What goes wrong in a command is handed on with it and not by `?`, and a command is made where the
// program is not, since on each way out what goes out of scope is checked field by field.

/// The command with this argument too.
fn with_arg<'a>(
    command: Result<Command<'a>, AllocError>,
    arg: Arg<'a>,
) -> Result<Command<'a>, AllocError>
    requires local { arg.global ≡ false }
    ensures { (app : App) → IfOk command.entry (λ it. app_of it ≡ app) → IfOk result (λ with. app_of with ≡ with_rule app (rule_of arg.entry)) }
{
    match command {
        Ok(command) => command.arg(arg),
        Err(error) => {
            drop(arg);
            Err(error)
        }
    }
}

/// Adds the words of a portfolio pair and a direction.
fn with_pair<'a>(
    alloc: Global,
    command: Result<Command<'a>, AllocError>,
) -> Result<Command<'a>, AllocError>
    ensures { (app : App) → IfOk command.entry (λ it. app_of it ≡ app) → IfOk result (λ with. app_of with ≡ with_pair_rules app) }
{
    let command = with_arg(
        command,
        word(alloc, "INITIATING", "The initiating operator's portfolio"),
    );
    let command = with_arg(
        command,
        word(alloc, "MATCHING", "The matching operator's portfolio"),
    );
    with_arg(command, word(alloc, "DIRECTION", "IM or MI"))
}

/// Adds the words of a gas day, a cycle and an hour.
fn with_hour<'a>(
    alloc: Global,
    command: Result<Command<'a>, AllocError>,
) -> Result<Command<'a>, AllocError>
    ensures { (app : App) → IfOk command.entry (λ it. app_of it ≡ app) → IfOk result (λ with. app_of with ≡ with_hour_rules app) }
{
    let command = with_arg(command, word(alloc, "DAY", "The gas day"));
    let command = with_arg(
        command,
        word(alloc, "CYCLE", "The nomination cycle, 0 to 36"),
    );
    with_arg(
        command,
        word(alloc, "HOUR", "The hour of the gas day, 1 to 25"),
    )
}

/// Adds the options that narrow a report.
fn with_narrowing<'a>(
    alloc: Global,
    command: Result<Command<'a>, AllocError>,
) -> Result<Command<'a>, AllocError>
    ensures { (app : App) → IfOk command.entry (λ it. app_of it ≡ app) → IfOk result (λ with. app_of with ≡ with_narrowing_rules app) }
{
    let day = "The gas day of a schedule, of cuts or of changes";
    let command = with_arg(command, option(alloc, "day", "DAY", day));
    let portfolio = "The portfolio, at either operator, of these";
    with_arg(command, option(alloc, "portfolio", "CODE", portfolio))
}

/// Adds the options of a book.
fn with_book<'a>(
    alloc: Global,
    command: Result<Command<'a>, AllocError>,
) -> Result<Command<'a>, AllocError>
    ensures { (app : App) → IfOk command.entry (λ it. app_of it ≡ app) → IfOk result (λ with. app_of with ≡ with_book_rules app) }
{
    let command = with_arg(
        command,
        option(
            alloc,
            "book",
            "FILE",
            "The side's book, in place of a script",
        ),
    );
    with_arg(
        command,
        option(alloc, "point", "CODE", "The point that the book is of"),
    )
}

/// A command with its help.
fn with_help<'a>(
    alloc: Global,
    name: &'a str,
    about: &'a str,
    help: &'a str,
) -> Result<Command<'a>, AllocError>
    ensures { IfOk result (λ it. app_of it ≡ new_app name.entry.now) }
{
    Ok(Command::new(alloc, name).about(about).after_help(help))
}

fn match_command<'a>(alloc: Global) -> Result<Command<'a>, AllocError>
    ensures { IfOk result (λ it. app_of it ≡ the_match) }
{
    with_help(
        alloc,
        "match",
        "Answers an order with the lesser of two tables",
        MATCH_HELP,
    )
}

fn hours_command<'a>(alloc: Global) -> Result<Command<'a>, AllocError>
    ensures { IfOk result (λ it. app_of it ≡ the_hours) }
{
    let command = with_help(
        alloc,
        "hours",
        "Tells the hours and cycles of a gas day",
        HOURS_HELP,
    );
    with_arg(command, word(alloc, "DAY", "The gas day"))
}

fn simulate_command<'a>(alloc: Global) -> Result<Command<'a>, AllocError>
    ensures { IfOk result (λ it. app_of it ≡ the_simulate) }
{
    let command = with_help(
        alloc,
        "simulate",
        "Makes the steps of a script at both operators' desks",
        SIMULATE_HELP,
    );
    let trace = "Tells also what moved in each step";
    let command = with_arg(command, flag(alloc, "trace", trace));
    with_arg(command, flag(alloc, "strict", STRICT))
}

fn office_command<'a>(alloc: Global) -> Result<Command<'a>, AllocError>
    ensures { IfOk result (λ it. app_of it ≡ the_office) }
{
    let command = with_help(
        alloc,
        "office",
        "Runs one operator's office, a request a line",
        OFFICE_HELP,
    );
    let command = with_arg(command, word(alloc, "SIDE", "I or M"));
    let book = "The side's book, which is made where it is not there";
    let command = with_arg(command, needed(alloc, "book", "FILE", book));
    let point = "The point that the office is of";
    let command = with_arg(command, needed(alloc, "point", "CODE", point));
    let clock = "Closes what is due by the machine's clock";
    let command = with_arg(command, flag(alloc, "clock", clock));
    let seconds = "How long a book in use is tried again, 0 to 3600";
    let command = with_arg(command, option(alloc, "wait", "SECONDS", seconds));
    with_arg(command, flag(alloc, "strict", STRICT))
}

fn report_command<'a>(alloc: Global) -> Result<Command<'a>, AllocError>
    ensures { IfOk result (λ it. app_of it ≡ the_report) }
{
    let command = with_help(
        alloc,
        "report",
        "Tells what a side holds after a script, or in its book",
        REPORT_HELP,
    );
    let command = with_arg(
        command,
        word(
            alloc,
            "KIND",
            "open, confirmed, refused, schedule, cut or changes",
        ),
    );
    let command = with_arg(command, word(alloc, "SIDE", "I or M"));
    let format = "text, csv or json; text where none is named";
    let command = with_arg(command, option(alloc, "format", "FORMAT", format));
    let command = with_narrowing(alloc, command);
    with_book(alloc, command)
}

fn explain_command<'a>(alloc: Global) -> Result<Command<'a>, AllocError>
    ensures { IfOk result (λ it. app_of it ≡ the_explain) }
{
    let command = with_help(
        alloc,
        "explain",
        "Tells what one quantity comes from, after a script or in a book",
        EXPLAIN_HELP,
    );
    let command = with_arg(command, word(alloc, "SIDE", "I or M"));
    let command = with_pair(alloc, command);
    let command = with_hour(alloc, command);
    let format = "text or json; text where none is named";
    let command = with_arg(command, option(alloc, "format", "FORMAT", format));
    with_book(alloc, command)
}

fn page_command<'a>(alloc: Global) -> Result<Command<'a>, AllocError>
    ensures { IfOk result (λ it. app_of it ≡ the_page) }
{
    let command = with_help(
        alloc,
        "page",
        "Writes a gas day of a side as an HTML page",
        PAGE_HELP,
    );
    let command = with_arg(command, word(alloc, "SIDE", "I or M"));
    let command = with_arg(command, word(alloc, "DAY", "The gas day"));
    with_book(alloc, command)
}

fn audit_command<'a>(alloc: Global) -> Result<Command<'a>, AllocError>
    ensures { IfOk result (λ it. app_of it ≡ the_audit) }
{
    let command = with_help(alloc, "audit", "Compares both operators' books", AUDIT_HELP);
    let command = with_arg(
        command,
        needed(
            alloc,
            "initiating",
            "FILE",
            "The initiating operator's book",
        ),
    );
    let command = with_arg(
        command,
        needed(alloc, "matching", "FILE", "The matching operator's book"),
    );
    let command = with_arg(
        command,
        needed(alloc, "point", "CODE", "The point that the books are of"),
    );
    let format = "text or json; text where none is named";
    with_arg(command, option(alloc, "format", "FORMAT", format))
}

fn book_command<'a>(alloc: Global) -> Result<Command<'a>, AllocError>
    ensures { IfOk result (λ it. app_of it ≡ the_book) }
{
    let command = with_help(alloc, "book", "Tells what a book in a file is", BOOK_HELP);
    let command = with_arg(command, word(alloc, "FILE", "The book"));
    let expect = "The number of its first facts, and their digest";
    with_arg(command, option(alloc, "expect", "N:DIGEST", expect))
}

fn serve_command<'a>(alloc: Global) -> Result<Command<'a>, AllocError>
    ensures { IfOk result (λ it. app_of it ≡ the_serve) }
{
    let command = with_help(
        alloc,
        "serve",
        "Runs both offices by a script, each with sessions of its own",
        SERVE_HELP,
    );
    let command = with_arg(
        command,
        option(alloc, "sessions", "N", "The sessions of each office"),
    );
    let books = "The sides' books, PREFIX-I.db and PREFIX-M.db";
    let command = with_arg(command, option(alloc, "books", "PREFIX", books));
    let wait = "How long a book in use is tried again, 0 to 3600";
    let command = with_arg(command, option(alloc, "wait", "SECONDS", wait));
    let old = "Takes books that are there, and makes none";
    let command = with_arg(command, flag(alloc, "old", old));
    let dry_run = "Leaves the books as they are, and runs over copies";
    let command = with_arg(command, flag(alloc, "dry-run", dry_run));
    with_arg(command, flag(alloc, "strict", STRICT))
}

/// The program with this command too.
fn with<'a>(
    program: Command<'a>,
    command: Result<Command<'a>, AllocError>,
) -> Result<Command<'a>, AllocError>
    ensures { (sub : App) → IfOk command.entry (λ it. app_of it ≡ sub) → sub.top.is_plain ≡ true
        → IfOk result (λ with. app_of with ≡ with_subcommand (app_of program.entry) sub.top) }
{
    match command {
        Ok(command) => program.subcommand(command),
        Err(error) => {
            drop(program);
            Err(error)
        }
    }
}

fn with_match<'a>(alloc: Global, program: Command<'a>) -> Result<Command<'a>, AllocError>
    ensures { IfOk result (λ with. app_of with ≡ with_subcommand (app_of program.entry) the_match.top) }
{
    with(program, match_command(alloc))
}

fn with_hours<'a>(alloc: Global, program: Command<'a>) -> Result<Command<'a>, AllocError>
    ensures { IfOk result (λ with. app_of with ≡ with_subcommand (app_of program.entry) the_hours.top) }
{
    with(program, hours_command(alloc))
}

fn with_simulate<'a>(alloc: Global, program: Command<'a>) -> Result<Command<'a>, AllocError>
    ensures { IfOk result (λ with. app_of with ≡ with_subcommand (app_of program.entry) the_simulate.top) }
{
    with(program, simulate_command(alloc))
}

fn with_office<'a>(alloc: Global, program: Command<'a>) -> Result<Command<'a>, AllocError>
    ensures { IfOk result (λ with. app_of with ≡ with_subcommand (app_of program.entry) the_office.top) }
{
    with(program, office_command(alloc))
}

fn with_report<'a>(alloc: Global, program: Command<'a>) -> Result<Command<'a>, AllocError>
    ensures { IfOk result (λ with. app_of with ≡ with_subcommand (app_of program.entry) the_report.top) }
{
    with(program, report_command(alloc))
}

fn with_explain<'a>(alloc: Global, program: Command<'a>) -> Result<Command<'a>, AllocError>
    ensures { IfOk result (λ with. app_of with ≡ with_subcommand (app_of program.entry) the_explain.top) }
{
    with(program, explain_command(alloc))
}

fn with_page<'a>(alloc: Global, program: Command<'a>) -> Result<Command<'a>, AllocError>
    ensures { IfOk result (λ with. app_of with ≡ with_subcommand (app_of program.entry) the_page.top) }
{
    with(program, page_command(alloc))
}

fn with_audit<'a>(alloc: Global, program: Command<'a>) -> Result<Command<'a>, AllocError>
    ensures { IfOk result (λ with. app_of with ≡ with_subcommand (app_of program.entry) the_audit.top) }
{
    with(program, audit_command(alloc))
}

fn with_book_command<'a>(alloc: Global, program: Command<'a>) -> Result<Command<'a>, AllocError>
    ensures { IfOk result (λ with. app_of with ≡ with_subcommand (app_of program.entry) the_book.top) }
{
    with(program, book_command(alloc))
}

fn with_serve<'a>(alloc: Global, program: Command<'a>) -> Result<Command<'a>, AllocError>
    ensures { IfOk result (λ with. app_of with ≡ with_subcommand (app_of program.entry) the_serve.top) }
{
    with(program, serve_command(alloc))
}

fn named_program<'a>(alloc: Global) -> Command<'a>
    ensures { app_of result ≡ named }
{
    Command::new(alloc, "dispatch")
        .version("0.1.0")
        .about("The dispatch offices of two adjacent gas transmission operators")
        .after_help(PROGRAM_HELP)
}

/// Adds the commands that make steps at desks.
fn with_desks<'a>(alloc: Global, program: Command<'a>) -> Result<Command<'a>, AllocError>
    ensures { IfOk result (λ with. app_of with ≡ with_subcommand (with_subcommand (app_of program.entry) the_simulate.top) the_office.top) }
{
    let program = with_simulate(alloc, program)?;
    with_office(alloc, program)
}

/// Adds the commands about what a side holds.
fn with_sides<'a>(alloc: Global, program: Command<'a>) -> Result<Command<'a>, AllocError>
    ensures { IfOk result (λ with. app_of with ≡ with_subcommand (with_subcommand (with_subcommand (app_of program.entry) the_report.top) the_explain.top) the_page.top) }
{
    let program = with_report(alloc, program)?;
    let program = with_explain(alloc, program)?;
    with_page(alloc, program)
}

/// Adds the commands about books.
fn with_books<'a>(alloc: Global, program: Command<'a>) -> Result<Command<'a>, AllocError>
    ensures { IfOk result (λ with. app_of with ≡ with_subcommand (with_subcommand (app_of program.entry) the_audit.top) the_book.top) }
{
    let program = with_audit(alloc, program)?;
    with_book_command(alloc, program)
}

pub fn commands<'a>(alloc: Global) -> Result<Command<'a>, AllocError>
    ensures { IfOk result (λ program. app_of program ≡ the_program) }
{
    let program = named_program(alloc);
    let program = with_match(alloc, program)?;
    let program = with_hours(alloc, program)?;
    let program = with_desks(alloc, program)?;
    let program = with_sides(alloc, program)?;
    let program = with_books(alloc, program)?;
    with_serve(alloc, program)
}
