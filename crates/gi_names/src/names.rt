/// Each name and word that the program prints, with what it means, whose rule it is and what its reader is to do: entries in the order of
/// their bytes, which a number sign parts.
pub const NAMES: &str = "\
# ACKNOW
  The message by which an operator tells a portfolio that its nomination is
  recorded and saved. It names the point, the portfolio, the gas day and the
  version.
  Rule: the message name is of Edig@s; its content and meaning are this
  program's.
  Do: An operator hands it to the portfolio. A shipper who has none submits the
  same nomination again.

# AlreadyClosed
  The cycle that was to be closed is closed here already. Its frozen quantities
  never change, and nothing is recorded.
  Rule: this program's.
  Do: Nothing, where the closing was asked again. 'resend' lets its messages
  out again, and later nominations count for a later cycle.

# BadFact FACT
  No desk of this side and point records the book's fact of this number after
  those before it, or it is the 1,000,001st. No desk is made of the book, and
  nothing is recorded.
  Rule: this program's.
  Do: Look whether FILE, side and point belong together. Else put back a good
  copy of FILE, with FILE-wal and FILE-head.

# BatchSize
  A row of a book was to take no fact, or more than 64. It would be printed as
  'Store BatchSize', and no run should meet it.
  Rule: this program's.
  Do: Tell whoever maintains the program.

# Busy
  Another process has the book open: another 'serve' or 'office', or a sqlite3.
  No step is made.
  Rule: this program's: a book has one writer at a time.
  Do: Let the other process end, or give --wait SECONDS, by which the book is
  tried again for so long.

# Calendar FAULT
  The calendar does not give the hours of a gas day; FAULT is DayLength or
  ZoneRefused. No run meets either. A call so refused would record nothing, and
  a command would end.
  Rule: this program's.
  Do: Tell whoever maintains the program.

# CodeText
  A point or a portfolio among the words of the command line is no code. No
  book is opened and no script is read. In a script such a word makes the line
  'Point' or 'Unreadable', in a message it is 'Field KEY'.
  Rule: this program's: a code has 1 to 16 of A to Z, 0 to 9 and '-'.
  Do: Write the code as it was agreed, in capital letters and without blanks.

# CommandLine
  A word of the command line is not text (it is not UTF-8). Any other wrong
  command line is told in more words; the exit status is 2 in both cases, and
  nothing is done.
  Rule: this program's.
  Do: Type the words anew. 'dispatch --help' lists the commands.

# Conflict [VERSION]
  With a number: the nomination has the version in force, VERSION, but its
  lines, their order or their priorities are others. Without one: the delivered
  message has another table than the one that the cycle met here. Nothing is
  recorded.
  Rule: this program's.
  Do: A shipper submits a change under a higher version. An operator lets both
  books be compared by 'dispatch audit'.

# DELORD
  The order: the initiating operator's processed quantities of a closed cycle.
  It is let out to the matching operator once the closing is saved. Each line
  of 'match' has this form, too.
  Rule: the message name is of Edig@s; that it is sent is of Regulation (EU)
  2015/703; its content is this program's.
  Do: Bring it to the matching operator's office, as 'deliver', once that has
  closed the cycle.

# DELRES
  The response: the matching operator's processed quantities of a cycle, and
  the confirmed ones. It is let out to the initiating operator once the meeting
  is saved.
  Rule: the message name is of Edig@s; that confirmed quantities are sent back
  is of Regulation (EU) 2015/703; its content is this program's.
  Do: Bring it to the initiating operator's office, as 'deliver'.

# Damaged ROW
  The row of this number in the book is neither a fact nor an array of 2 to 64
  facts, or its number is below the one that comes next. The book is not taken,
  and not changed.
  Rule: this program's.
  Do: Put back a good copy of FILE with the FILE-wal and FILE-head that belong
  to it.

# DayLength
  A gas day has no whole 23, 24 or 25 hours. It would be printed as 'Calendar
  DayLength', and no run meets it.
  Rule: this program's.
  Do: Tell whoever maintains the program.

# DayOver
  The last cycle of the nomination's gas day is closed here, so nothing is
  taken for that day any more, not even a repeat. Nothing is recorded.
  Rule: this program's; when re-nomination may end is of Regulation (EU)
  312/2014, Article 15.
  Do: Nominate for a later gas day. What is confirmed stands.

# DayRange
  A gas day on the command line lies before 2000-01-01 or after 2199-12-31.
  Nothing is read. In a script the line is 'Unreadable', in a message it is
  'Field day'.
  Rule: this program's.
  Do: Name a gas day of that range.

# DayText
  A gas day on the command line is no date of the calendar written YYYY-MM-DD.
  Nothing is read. In a script the line is 'Unreadable', in a message it is
  'Field day'.
  Rule: this program's.
  Do: Write it as 2026-01-15, with all zeros.

# Differs
  'audit' has found a cycle of which the two books do not tell the same table.
  Its lines are written, the last one with the first such cycle, and the exit
  status is 1.
  Rule: this program's.
  Do: Look whether an office ran while the books were read or copied. Else both
  operators compare the facts that the lines name.

# DirectionText
  A word is neither IM nor MI. No command prints this name: a wrong command
  line says it in words, a script's line is 'Unreadable', and a message 'Field
  direction'.
  Rule: this program's.
  Do: Write IM or MI, in capital letters.

# Duplicate
  Two rows of a table are of one pair and direction. No command prints this
  name: such a message is 'Field processed' or 'Field confirmed'.
  Rule: this program's.
  Do: Have the message sent with one row for each pair and direction.

# DuplicateLine
  Two lines of the nomination are of one counterparty and direction, whatever
  their priorities. Nothing is recorded.
  Rule: this program's.
  Do: Make one line of the two, and submit the nomination again.

# EIC
  The Energy Identification Code: 16 characters that name a party, an area or a
  point of the energy market. A code here has 1 to 16 of A to Z, 0 to 9 and
  '-', so an EIC can stand for a portfolio or a point.
  Rule: the EIC is of ENTSO-E; what a code is here is this program's, and check
  characters are not checked.

# Empty
  Neither of the two books of 'audit' closes a cycle, so nothing was compared.
  The line 'empty' is written, and the exit status is 1.
  Rule: this program's.
  Do: Look whether these are the right files. New books are empty until a cycle
  is closed.

# Field KEY
  The first key of a message that is missing or wrong; it may stand in one of
  its lines or rows. An array is named itself where it is none, has too many
  rows, an element that is no object, or two rows of one pair and direction.
  Nothing is recorded. It is printed behind 'Message', 'order:' or 'own:'.
  Rule: this program's JSON profile of the Edig@s messages.
  Do: Put that key right as FORMATS tells it, and send the message again.

# Full
  The desk has 1,000,000 facts and records no more. Nothing is recorded. A way
  between two offices is full at 4,096 messages, too, but a further one is then
  lost without this name: 'simulate --trace' says 'lost'.
  Rule: this program's.
  Do: Begin a new pair of books with a later gas day, and keep the old pair for
  its own days until their cycles are confirmed.

# Gap NUMBER
  The fact of this number comes next in the book, and the next row has a higher
  one: facts are missing. The book is not taken, and not changed.
  Rule: this program's.
  Do: Put back a good copy of FILE with the FILE-wal and FILE-head that belong
  to it.

# Halted
  The desk is halted, as by 'halt', and refuses every call; a running office
  refuses queries, too. Nothing is recorded. What is saved stays.
  Rule: this program's.
  Do: End the input and start the office anew: it is not halted then. In a
  script of 'simulate' use 'restart'.

# Head
  What stands in FILE-head beside the book is no head, a line with a number of
  facts and their digest. The book is not taken, and nothing is changed.
  Rule: this program's.
  Do: Ask a copy of FILE and FILE-wal without it by 'dispatch book COPY
  --expect N:DIGEST', with what was noted. If that is good, remove FILE-head:
  the next 'serve' or 'office' makes it anew.

# HourCount
  A line of the nomination has not just one quantity for each hour of its gas
  day. A day has 24 hours, or 23 or 25 where the clock changes before it ends.
  Nothing is recorded.
  Rule: this program's; the gas day is of Regulation (EU) 312/2014.
  Do: 'dispatch hours DAY' tells how many hours the day has. Submit the
  nomination with as many quantities in each line.

# HourRange
  The hours of a table are not 1 <= first <= last <= 25. No command prints this
  name: such a message is 'Field first' or 'Field last'.
  Rule: this program's.
  Do: Have the message sent with the hours that the cycle covers.

# I
  The initiating operator, which sends its processed quantities first (DELORD),
  and its side of the point.
  Rule: the role is of Regulation (EU) 2015/703; the letter is this program's.

# IM
  The direction out of the initiating operator's system into the matching
  operator's. It is matched apart from MI.
  Rule: this program's.

# KeepsTooFew SAVED
  A 'restart' in a script would keep fewer facts than the SAVED ones that are
  saved. Both offices stay as they were.
  Rule: this program's: what is saved is never given up.
  Do: Keep at least SAVED facts.

# KeepsTooMany FACTS
  A 'restart' in a script would keep more facts than the FACTS that the desk
  has. Both offices stay as they were.
  Rule: this program's.
  Do: Keep at most FACTS facts.

# LifeBroken FACT
  Two runs of one office do not join: the later one does not begin with the
  fact of this number as the earlier one left it, or, with 0, is of another
  point. No command prints this name.
  Rule: this program's.
  Do: Hold the book against what was noted, by 'dispatch book FILE --expect
  N:DIGEST'.

# Lines
  Standard input of 'match' does not have just two lines. Nothing is written.
  Rule: this program's.
  Do: Give the order on the first line and the own table on the second, each
  whole on one line, and nothing behind them.

# Lost NUMBER
  FILE-head tells NUMBER facts, and the book has fewer, has others among the
  first so many, or is not there: an older copy, a log (FILE-wal) that is
  damaged or missing, or a new file beside an old head. Nothing is written.
  Rule: this program's.
  Do: Put back FILE, FILE-wal and FILE-head that belong together. For a new
  beginning take the old FILE-head and FILE-wal away.

# M
  The matching operator, which compares both tables and answers (DELRES), and
  its side of the point. It confirms first.
  Rule: the role is of Regulation (EU) 2015/703; the letter is this program's.

# MI
  The direction out of the matching operator's system into the initiating
  operator's. It is matched apart from IM.
  Rule: this program's.

# Marked REFUSAL
  Facts stand in the book, and the desk refused the mark of one as saved, by
  REFUSAL. No run should meet it. It ends the run with status 1, or 4 for
  OutOfMemory; what stands in the book is saved.
  Rule: this program's.
  Do: Start again over the same book, where all its facts count as saved.
  'outgoing N' or 'resend' lets out again what they let out.

# Message FAULT
  What was submitted or delivered is no message. FAULT is TooLarge, NotJson,
  UnknownKind or Field KEY, each of which has an entry of its own. Nothing is
  recorded.
  Rule: this program's JSON profile of the Edig@s messages.
  Do: Put right what FAULT names, and send the message again.

# MissingBook SIDE
  Of the two books of 'serve' that of SIDE is not there or has no table of a
  book's, and the other one has facts or cannot be read, or --old is given.
  Nothing is made or changed.
  Rule: this program's.
  Do: Look at PREFIX, and put the missing file back with what stood beside it.
  Both are made where neither is there and --old is not given.

# NOMINT
  The nomination or re-nomination: all lines of one portfolio for one gas day,
  each with a counterparty, a direction and a quantity in kWh/h for each hour.
  It has a version; with no lines it withdraws what was nominated.
  Rule: the message name is of Edig@s; nominating is of Regulation (EU)
  312/2014, Articles 14 and 15; its content is this program's.

# NOMRES
  The message by which an operator tells a portfolio its confirmed quantities
  of a cycle, by counterparty, direction and hour, in kWh/h. It is let out once
  the meeting is saved.
  Rule: the message name is of Edig@s; that users are told is of Regulation
  (EU) 2015/703; its content is this program's.
  Do: Hand it to the portfolio.

# NoSuchCycle
  The gas day does not have the cycle that was to be closed: a day has the
  cycles from 0 to 34, 35 or 36. Nothing is recorded.
  Rule: this program's; the cycles are of Regulation (EU) 312/2014, Articles 14
  and 15.
  Do: 'dispatch hours DAY' lists the cycles of the day.

# NoSuchPacket
  A 'deliver NUMBER' in a script names a packet that the other side has not let
  out to this one. Both offices stay as they were.
  Rule: this program's.
  Do: Count the other side's packets to this one from 1; 'simulate --trace'
  shows them.

# NotAFact
  A text is no fact. No command prints this name: a row of a book with such a
  text is 'Damaged ROW'.
  Rule: this program's.
  Do: See 'Damaged'.

# NotAPair
  The two offices are of two interconnection points. It would be printed as
  'reconciled NotAPair', and no run of 'serve' should meet it, since both are
  of the script's point.
  Rule: this program's.
  Do: Tell whoever maintains the program.

# NotClosed
  Of a delivered message: its cycle is not closed here yet, and the message is
  not kept. Of 'resend': no closing of the cycle is saved here. Nothing is
  recorded, and nothing is let out.
  Rule: this program's.
  Do: Close the cycle here. Then deliver the message again, or have the other
  operator send it again by 'resend'.

# NotJson
  The text of a message is no JSON or not UTF-8: cut off, nested over 127 deep,
  or with a number such as 1e400. Nothing is recorded. It is printed behind
  'Message', 'order:' or 'own:'.
  Rule: this program's.
  Do: Send the message whole, on one line.

# NotLoaded
  A book was to be written before it was loaded, or after it had failed. It
  would be printed as 'Store NotLoaded', and no run should meet it.
  Rule: this program's.
  Do: Start again over the same book, and tell whoever maintains the program.

# NotLocal
  A delivery was asked as a call of a side's own. No command prints this name:
  a script's 'deliver' and 'carry' bring what the other side let out.
  Rule: this program's.
  Do: Tell whoever maintains the program.

# NotNext NUMBER
  The next fact has this number. As 'Marked NotNext NUMBER' it is the next that
  the desk marks as saved; as 'Store NotNext NUMBER' the next that the book
  takes, which then has other facts than its office. It ends the run, and no
  run should meet it.
  Rule: this program's.
  Do: Look whether something else wrote the book, and start again over it.

# NotTheLesser ROW
  A DELRES confirms other quantities than the lower of I's frozen ones and M's
  processed ones in it; ROW is the first confirmed row that differs, from 1,
  over all parts. I records nothing.
  Rule: the lesser rule of Regulation (EU) 2015/703; the check is this
  program's.
  Do: Ask the matching operator, and let both books be compared by 'dispatch
  audit'.

# NoticeRange
  The hours of a notice are not 1 <= FIRST <= LAST <= the hours of its gas day
  (23, 24 or 25). Nothing is recorded.
  Rule: this program's.
  Do: Give the notice again with hours of that day.

# Office FAULT
  A turn that saves could not be made, by SeatFull or OutOfMemory. It ends the
  run with status 1, or 4 for OutOfMemory. What was saved before stands; the
  rest may be lost.
  Rule: this program's.
  Do: Start again over the same book, and ask again what was not answered.

# OtherBook SIDE POINT
  The book is that of SIDE at POINT, and not of the side and point for which it
  was named. It is not taken, and not changed.
  Rule: this program's.
  Do: Name the right FILE, side or point.

# OtherFact
  The fact that was to be marked as saved is not the desk's next one. It would
  be printed as 'Marked OtherFact', and no run should meet it.
  Rule: this program's.
  Do: Tell whoever maintains the program.

# OutOfMemory
  Memory ran out, and the command ends with status 4. What was saved stands,
  told or not; what was only recorded may be lost. 'simulate' writes the lines
  of the steps before.
  Rule: this program's.
  Do: Free memory, and run the same again over the same books.

# OutOfOrder CYCLE
  A later cycle of the gas day is closed here, the last one with the number
  CYCLE, so this one can be closed no more. Nothing is recorded.
  Rule: this program's.
  Do: Nothing: it stays skipped, and nominations count for the next cycle that
  is closed.

# PartDiffers PART
  The order or the response is part PART of several, and does not fit the parts
  that are kept of its cycle: these are of another number of parts, or this one
  is kept with other rows. Nothing is recorded or kept. An honest peer sends no
  such part.
  Rule: this program's.
  Do: Ask the other operator to send its messages again. Where a wrong part was
  kept, start this office again: by that nothing is kept.

# Parts
  A line of 'match' ('order: Parts', 'own: Parts') is one part of several, and
  only a whole DELORD is taken there. Nothing is written.
  Rule: this program's.
  Do: Give the whole table in one message.

# PartsOverlap
  The last missing part of an order or a response has come, and a pair and
  direction stands in two of the parts. Nothing is recorded; the other parts
  stay kept.
  Rule: this program's.
  Do: Ask the other operator to look at what was sent. Where a wrong part was
  kept, start this office again, and let all parts be sent again.

# PermilleRange
  One of the two per-mille numbers of a notice is over 1000. Nothing is
  recorded.
  Rule: this program's.
  Do: Give the notice again with numbers from 0 to 1000; 1000 leaves all.

# PlanLength
  A plan of a carrier has not 1 to 1,000 moves. No command prints this name:
  such a line of a script is 'Unreadable'.
  Rule: this program's.
  Do: Name 1 to 1,000 moves.

# Point
  The first line of the script that is not empty is not 'point' and a code, or
  there is none. No step is made, and no book is opened.
  Rule: this program's.
  Do: Begin the script with a line such as 'point BORDER-1': no comment before
  it, one blank in it, no carriage return at its end.

# QuantityRange
  A quantity is not from 0 to 999,999,999,999 kWh/h. No command prints this
  name: a script's line is 'Unreadable', and a message 'Field hours'.
  Rule: this program's.
  Do: Give a quantity of that range.

# Read
  Standard input could not be read to its end. A command that reads all of it
  does nothing; a running office has answered the lines of its steps before. It
  also ends by this at 1,073,741,824 queries, or after some 16 million steps
  once it is halted.
  Rule: this program's.
  Do: See what feeds the input, and run again.

# SeatCount
  An office was to have no seat, or more than 16. No command prints this name,
  since 'serve' takes 1 to 8 sessions.
  Rule: this program's.
  Do: Tell whoever maintains the program.

# SeatFull
  4,000,000 calls are noted of a seat of an office. 'serve' prints it as
  'refused SeatFull' of a step, records nothing and goes on; it ends 'office',
  which meets it only once halted. As 'Office SeatFull' it ends a run whose
  saving meets it.
  Rule: this program's.
  Do: Start a new run over the same books, and ask again what was refused.

# ShapeDiffers
  Of a delivered message: its table is for other hours than the cycle that is
  frozen here; nothing is recorded. Of 'match': the two lines are for another
  point, gas day, cycle or hours; nothing is written.
  Rule: this program's.
  Do: Ask the other operator for the message of that cycle.

# SideText
  A word is neither I nor M. No command prints this name: a wrong command line
  says it in words, and a script's line is 'Unreadable'.
  Rule: this program's.
  Do: Write I or M, in capital letters.

# Stale VERSION
  The nomination's version is below VERSION, the one in force for its portfolio
  and gas day. Nothing is recorded, and VERSION stays in force.
  Rule: this program's; that the last document received counts is of Regulation
  (EU) 312/2014, Articles 14 and 15.
  Do: If the change is still wanted, submit it with a version above VERSION.

# Store [FAULT]
  Alone: a book's file is not there, is no database, has a broken page, a
  second hard link or an open journal, may not be read or written, or could not
  be closed. With FAULT: a save of a running office failed by it ('Store
  Store': the disk failed), which ends the run; what was saved stands.
  Rule: this program's.
  Do: Put name, rights, room or disk right, and run the same again.

# Stranger SIDE PLACE
  Call PLACE at SIDE, from 1, was the delivery of a message that no saved fact
  of the other side lets out. 'serve' prints it behind 'reconciled', with
  status 1, and no run should meet it.
  Rule: this program's.
  Do: Keep both books as they are, and let them be compared by 'dispatch
  audit'.

# TooLarge
  Too many bytes: over 67,108,864 of standard input, where nothing is done;
  over 16,777,216 of a message, behind 'Message', 'order:' or 'own:'; or over
  16,777,472 of a line of a running office, which runs on. Nothing is recorded.
  Rule: this program's.
  Do: Part the script or the input in two. A message has to be shorter.

# TooManyLines
  The nomination has more than 64 lines. Nothing is recorded.
  Rule: this program's.
  Do: Submit at most 64 lines for a portfolio and gas day: put them together,
  or use another portfolio.

# TooManyPortfolios
  The contract would be of a 65th portfolio of this side, all gas days
  together. Nothing is recorded.
  Rule: this program's.
  Do: Use a portfolio that has a contract, or begin a new pair of books with a
  later gas day.

# TooManyRows
  The last missing part of an order or a response has come, and all parts have
  more than 4,096 processed rows, or more than 8,192 confirmed ones. Nothing is
  recorded; the other parts stay kept. (A single message of so many rows is
  'Field processed' or 'Field confirmed'.)
  Rule: this program's.
  Do: Ask the other operator to look at what was sent.

# TwoPasts DAY CYCLE
  The two books of 'serve' tell different tables, first of this cycle: one was
  put back from an older copy, or belongs to another past. No step is made, and
  the exit status is 1.
  Rule: this program's.
  Do: 'dispatch audit' tells what differs. Put the right file back, with what
  stood beside it.

# UnequalHours
  A row of a table has not one quantity for each hour that the table covers. No
  command prints this name: such a message is 'Field hours'.
  Rule: this program's.
  Do: Have the message sent with last - first + 1 quantities in each row.

# Unexpected
  The book has fewer facts than --expect names, or its first so many have
  another digest. Its lines are written, and the exit status is 1.
  Rule: this program's.
  Do: Look at N and DIGEST. If they are as noted, this is another book or an
  older copy: put the right one back.

# UnknownKind
  A message is no JSON object, or its key 'kind' is not NOMINT, ACKNOW, NOMRES,
  DELORD or DELRES. Nothing is recorded. It is printed behind 'Message',
  'order:' or 'own:'.
  Rule: this program's JSON profile of the Edig@s messages.
  Do: Put 'kind' right, in capital letters, and send the message again.

# UnknownPortfolio
  No contract of the nomination's portfolio for its gas day is recorded here,
  in either direction. Nothing is recorded.
  Rule: this program's.
  Do: The operator records the contract; then the nomination is submitted
  again.

# Unreadable
  'line NUMBER: Unreadable': line NUMBER of the script, from 1 with the empty
  ones, is no instruction ('serve' takes no 'save', 'deliver' or 'restart'); no
  step is made. In a running office it refuses a line that is no request or has
  no line feed; the desk is not asked, and the office runs on.
  Rule: this program's.
  Do: Look for a wrong word, two blanks, a comment or a carriage return.

# Unsaved
  A running office has recorded a fact and not saved it, and gives up with
  status 1. What was answered with a fact is saved; no run should meet this.
  Rule: this program's.
  Do: Start again over the same book, and ask again what was not answered.

# Unsettled SEAT PLACE
  What the seat of this number noted of its calls is not what its office did:
  first at PLACE, or 0 where the seat is missing. 'serve' prints it behind
  'settled SIDE'; the exit status is 1, and no run should meet it.
  Rule: this program's.
  Do: Keep the books as they are, and tell whoever maintains the program.

# Version
  The file is a database, but no book that this program takes: other tables or
  columns, another version than 1 or 2, or not one owner. A command that only
  reads says so of an empty file, too. It is not changed.
  Rule: this program's.
  Do: Look at the name of FILE. A book of a newer program needs that program.

# Write
  Standard output could not be written; how much went out is not told. 'serve'
  and 'office' may have done and saved the work, and of 'serve' it stands in
  the place of what ended the run. The exit status is 1.
  Rule: this program's.
  Do: Make room or mend the reader, look at the books, and read again by
  'report' or 'outgoing N'.

# WrongKind
  The message is of another kind than is wanted: 'submit' takes a NOMINT,
  'deliver' a DELORD at M and a DELRES at I, and each line of 'match' is a
  DELORD ('order: WrongKind', 'own: WrongKind'). Nothing is recorded.
  Rule: this program's.
  Do: Bring the message where it belongs.

# WrongPoint
  The nomination, or the delivered message, is for another interconnection
  point than this office. Nothing is recorded.
  Rule: this program's.
  Do: Put 'point' right, or send it to the office of that point.

# ZoneRefused
  The rule of the clock for gas days was not taken. It would be printed as
  'Calendar ZoneRefused', and no run meets it.
  Rule: this program's.
  Do: Tell whoever maintains the program.

# agreed
  Of a cycle in 'audit': both sides have confirmed it, and nothing differs; the
  sums by direction follow, in kWh. As the last line: some cycle is agreed, and
  none differs.
  Rule: this program's.

# available
  What a portfolio's contract leaves it in a direction and hour after a notice,
  in kWh/h: firm and interruptible, each times its per-mille number, divided by
  1000 and rounded down. 0 where no contract stands.
  Rule: this program's.

# both
  In 'open at both': neither side has confirmed the cycle. In 'report cut': the
  side's own capacity and the other operator have cut the quantity.
  Rule: this program's.

# capacity
  In 'report cut': the side's own contract and notice have cut the quantity,
  and not the other operator.
  Rule: this program's.

# closed
  Later nominations do not count for the cycle: the side's processed quantities
  for it are frozen. 'office' answers so of a cycle that was due; 'closed FACT'
  in 'audit' names the fact.
  Rule: this program's; the cycles are of Regulation (EU) 312/2014, Articles 14
  and 15.

# confirmed
  The quantity of a cycle, pair, direction and hour, in kWh/h, that is the
  lower of the two that both sides froze. A side has confirmed a cycle once its
  meeting with the other side's table is saved; it never changes then.
  Rule: the lesser rule of Regulation (EU) 2015/703; that only saved facts
  count is this program's.

# cut
  How much less is confirmed for a pair, direction and hour than the side's
  portfolio nominated, in kWh/h, and whether the own capacity, the other
  operator (peer) or both cut it.
  Rule: this program's.

# differs
  In 'audit': a table that one side has met is not the one that the other has
  written. The line names the facts and the first row and hour; the last line
  names the first such cycle.
  Rule: this program's.
  Do: See 'Differs'.

# drop
  A carrier's move: the message that waits first is taken and lost.
  Rule: this program's.

# due
  A cycle is due at a moment by which it has started, while neither it nor a
  later one of its gas day is closed. 'office' answers with how many are, and
  closes them.
  Rule: this program's; when cycles start is of Regulation (EU) 312/2014,
  Articles 14 and 15.

# empty
  The last line of 'audit' where neither book closes a cycle.
  Rule: this program's.
  Do: See 'Empty'.

# ended
  The last line of 'office': all lines of its input are answered. It tells how
  many facts there are, how many are saved, and how many cycles are confirmed.
  Rule: this program's.
  Do: Look at the exit status, too: 0 says that the book is closed.

# firm
  The part of a contract in kWh/h that is not interruptible; in a notice the
  per-mille number that is left of it.
  Rule: this program's.

# frozen
  The cycle is closed at this side, so its processed quantities for it never
  change; in 'report open' it has not met the other side's table. 'frozen fact
  N rule 2' names the closing and its rule.
  Rule: the basis of matching is of Regulation (EU) 2015/703; that it is frozen
  is this program's.
  Do: Have the other side close the cycle, and 'resend' it at the initiating
  side.

# hold
  A carrier's move: the message that waits first is put behind all others, and
  nothing is delivered.
  Rule: this program's.

# in force
  Of a nomination: the last one recorded of its portfolio and gas day, whole.
  Of a quantity: what the last confirmed cycle of the gas day that covers the
  hour confirmed, 0 where it has no row for the pair and direction.
  Rule: Regulation (EU) 312/2014, Articles 14 and 15; that a refused document
  changes nothing is this program's.

# interruptible
  The part of a contract in kWh/h that the operator may interrupt; in a notice
  the per-mille number that is left of it.
  Rule: this program's.

# kept [HAVE]
  One of several parts of the other side's order or response is kept, and
  'simulate' tells how many of its cycle are then. Once none is missing they
  are taken as one message. A part that is kept already changes nothing. What
  is kept is in memory alone: a restart drops it.
  Rule: this program's.
  Do: Nothing, where the other parts come. Else have the other side 'resend'
  the cycle.

# lost
  In a trace: the packet found 4,096 messages waiting on its way, and is gone.
  Rule: this program's.
  Do: Carry what waits, and 'resend' the cycle.

# lower
  In 'explain': the lower of the side's processed quantity and the other
  side's, in kWh/h.
  Rule: the lesser rule of Regulation (EU) 2015/703.

# met
  The side has recorded the other side's table for a cycle beside its own
  frozen one. Once that fact is saved the cycle is confirmed. In 'audit', 'met
  N' names the fact, or what was read there, in kWh/h.
  Rule: the exchange is of Regulation (EU) 2015/703; the fact is this
  program's.

# net
  In 'report schedule': the total of IM less that of MI, which may be negative.
  Rule: this program's.

# no WORD
  In 'explain': 'no line': the nomination has none for the counterparty and
  direction, or none is in force; 'no contract': none stands; 'no one': no
  portfolio is told the quantity.
  Rule: this program's.

# none
  In 'explain': no nomination is in force, no contract or notice stands, or
  there is no line that could have a priority.
  Rule: this program's.

# not WORD
  'not closed', 'not met', 'not saved': the cycle is not closed at that side,
  has not met the other side's table, or that meeting is not saved, so nothing
  is confirmed. 'hour not covered': the cycle does not cover the hour, and 0 is
  processed.
  Rule: this program's.

# nothing
  The step made nothing: there was no fact to save, or the carrier gave no
  message.
  Rule: this program's.

# ok
  Behind 'settled I', 'settled M' and 'reconciled': nothing differs. Else the
  name of the fault stands there.
  Rule: this program's.

# open
  A closed cycle that is not confirmed. In 'audit': nothing differs, and I has
  not confirmed it ('open at I'), or neither has ('open at both'); as the last
  line: none is agreed, and none differs.
  Rule: this program's.
  Do: For a cycle that both have closed: 'resend' it at I, and bring the DELORD
  to M and the DELRES to I. Else close it first.

# order (before a FAULT)
  The first line of the input of 'match', the initiating operator's DELORD, is
  wrong. FAULT is that of a message, WrongKind or Parts. Nothing is written.
  Rule: this program's.
  Do: See the entry of FAULT.

# own (before a FAULT)
  The second line of the input of 'match', the matching operator's own table,
  is wrong. FAULT is that of a message, WrongKind or Parts. Nothing is written.
  Rule: this program's.
  Do: See the entry of FAULT.

# pass
  A carrier's move: the message that waits first is delivered.
  Rule: this program's.

# peer
  The other operator. A packet to 'peer' is for it; in 'explain' it is its
  processed quantity; in 'report cut' it has cut the quantity, and not the own
  capacity.
  Rule: this program's.
  Do: Hand packets to 'peer' to the other operator's office, as 'deliver'.

# priority
  A number from 1 to 9 of a nomination's line, 5 where it has none. Where too
  little is available, lines of lower numbers come first in a cycle closed by
  rule 2.
  Rule: this program's.

# processed
  What an operator makes of a nomination and the contract for an hour, in
  kWh/h, and the basis of matching: all of it where it fits what is available,
  else a part.
  Rule: the term is of Regulation (EU) 2015/703; the formula is this program's.

# reconciled RESULT
  Whether all that was delivered to either office of 'serve' was let out by the
  other: 'ok', or the name of the fault.
  Rule: this program's.

# recorded [FACT]
  The call is taken, as the fact of that number. 'simulate' prints it before it
  is saved; 'office' and 'serve' tell it once it is saved.
  Rule: this program's.

# reduced
  In JSON of 'explain': more was nominated than is available or left to the
  line's priority, so a part is processed.
  Rule: this program's.

# refused NAME
  The call is refused by NAME, which has an entry of its own. Nothing is
  recorded, and nothing that was before changes.
  Rule: this program's.
  Do: See the entry of NAME.

# repeat [FACT]
  The call says again what the fact of that number says; nothing new is
  recorded. Where that fact is saved, its ACKNOW or DELRES goes out again. In a
  trace it is a carrier's move: a copy is delivered, and the message stays.
  Rule: this program's.

# resent [PACKETS]
  All that the saved closing and meeting of the cycle let out has been let out
  again, in so many packets to the other side and to portfolios.
  Rule: this program's.

# restarted FACTS
  The desk has started again from its first so many facts, all of which count
  as saved.
  Rule: this program's.

# rule
  How a closing shares what is available: by rule 1 all lines of a portfolio
  alike, by rule 2 those of lower priority numbers first.
  Rule: this program's.

# saved [FACT]
  The fact is on the store, where a restart keeps it, and what it lets out has
  left. Only saved facts count as confirmed, acknowledged or told.
  Rule: this program's.

# settled SIDE RESULT
  Whether the records that the seats of an office of 'serve' kept of their
  calls are what the office did: 'ok', or the name of the fault.
  Rule: this program's.

# stopped
  The desk is halted by the call. Each further one is refused as 'Halted'.
  Rule: this program's.

# told
  A portfolio's confirmed quantities were let out to it in a NOMRES. It does
  not say that the message arrived. In 'explain' the portfolio stands behind
  it.
  Rule: that users are told is of Regulation (EU) 2015/703; that only saved
  facts count is this program's.

# unreadable
  In a trace: the bytes on their way are no message. No desk lets such bytes
  out.
  Rule: this program's.

# unsaved
  In 'report open': the cycle has met the other side's table, and that fact is
  not saved, so it is not confirmed.
  Rule: this program's.
  Do: Save it: in a script of 'simulate' or 'report' by 'save'.

# within
  In 'explain': all that is nominated fits what is available, or left to the
  line's priority, and is processed.
  Rule: this program's.
";
