//! What holds of all messages. These functions do nothing; their clauses are the laws.

ghost use Rattle.gi_messages.specs.Laws.{IsOneMessage, MissesKind, NamesFirstKey, ReadsSpelling, IsWritableExactly, WritesMessage, RoundTrips, TextsAreShort};

/// A JSON value stands for one message at most.
pub fn one_message()
    ensures { IsOneMessage }
{}

/// Bytes are read as the message that they spell, and as no other.
pub fn reads_spelling()
    ensures { ReadsSpelling }
{}

/// A refused field is the first of its kind that has no value; in rows and lines it is that of the
/// first element that is none. `UnknownKind` comes exactly where no kind is named.
pub fn names_first_key()
    ensures key { NamesFirstKey }
    ensures kind { MissesKind }
{}

/// A message is writable exactly where its point, portfolio and counterparties are codes, its day a
/// gas day, its version from 1 to 999,999,999, the priorities of its lines from 1 to 9, its cycle
/// from 0 to 36 and its quantities in range; where a NOMRES covers hours 1 <= first <= last <= 25
/// and its lines are for them, it is one of 66 parts at most, a processed table has at most 4,096
/// rows, each table of one of several parts at most 1,000, and a confirmed table is for the same
/// hours.
pub fn writable_exactly()
    ensures { IsWritableExactly }
{}

/// What is written for a message stands for it.
pub fn writes_message()
    ensures { WritesMessage }
{}

/// A message that is written is read back, where its text is not too large.
pub fn round_trip()
    ensures { RoundTrips }
{}

/// A message that can be written, with at most 33,280 lines, and each line of a nomination with at
/// most 25 quantities, has a text of at most 16 MiB.
pub fn texts_are_short()
    ensures { TextsAreShort }
{}
