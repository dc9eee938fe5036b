//! What holds of all histories of a desk. These functions do nothing; their clauses are the laws.

ghost use Rattle.gi_desk.specs.Laws.{ClosesOnce, ConfirmsForGood, ConfirmsThroughRestarts, FreezesForGood, FrontsAreLegal, KeepsTheHighestVersion, LetsOutForGood, MatchesForGood, MeetsOnce, OnlyAppends, OrdersOnlyOfCycles, RecordsWhatCallsRecord, RefusalsChangeNothing, SaysOnlyWhatIsSaved, SendsWholeTables, StaysLegal, VersionsRise, WritesMessages};

/// No later fact changes what a fact lets out.
pub fn lets_out_for_good()
    ensures { LetsOutForGood }
{}

/// No later fact changes the frozen quantities of a closed cycle.
pub fn freezes_for_good()
    ensures { FreezesForGood }
{}

/// No later fact changes a cycle that met its peer's table.
pub fn matches_for_good()
    ensures { MatchesForGood }
{}

/// Of facts that a desk would record in turn, one at most closes a cycle.
pub fn closes_once()
    ensures { ClosesOnce }
{}

/// One at most meets it, and that one stands after the closing.
pub fn meets_once()
    ensures { MeetsOnce }
{}

/// Of facts that a desk would record in turn, the versions of the nominations of a portfolio and gas
/// day rise.
pub fn versions_rise()
    ensures { VersionsRise }
{}

/// Of facts that a desk would record in turn, the nomination in force has the highest version of all
/// that were taken of its portfolio and gas day.
pub fn keeps_the_highest_version()
    ensures { KeepsTheHighestVersion }
{}

/// A call adds one fact at the end at most, saves one more at most, and unsaves none.
pub fn only_appends()
    ensures { OnlyAppends }
{}

/// A refused call changes nothing and lets nothing out.
pub fn refusals_change_nothing()
    ensures { RefusalsChangeNothing }
{}

/// Every packet of a reply is what a saved fact lets out.
pub fn says_only_what_is_saved()
    ensures { SaysOnlyWhatIsSaved }
{}

/// The peer is written to only of a cycle that was closed or met.
pub fn orders_only_of_cycles()
    ensures { OrdersOnlyOfCycles }
{}

/// From facts that a desk would record in turn a call leads to such facts.
pub fn stays_legal()
    ensures { StaysLegal }
{}

/// The first so many of facts that a desk would record in turn are such facts too.
pub fn fronts_are_legal()
    ensures { FrontsAreLegal }
{}

/// What is once confirmed of a cycle no call changes.
pub fn confirms_for_good()
    ensures { ConfirmsForGood }
{}

/// What is once confirmed of a cycle no restart changes that keeps the saved facts.
pub fn confirms_through_restarts()
    ensures { ConfirmsThroughRestarts }
{}

/// What a call records may come next; where all of a desk can be written, and a fact too, some call
/// records the fact that may come next.
pub fn records_what_calls_record()
    ensures { RecordsWhatCallsRecord }
{}

/// Every packet that a fact lets out is the text of a message that can be written, in at most 16 MiB.
pub fn writes_messages()
    ensures { WritesMessages }
{}

/// The orders of a cycle carry its frozen table, and its responses that and the confirmed one, each
/// message with the rows that follow those of the one before.
pub fn sends_whole_tables()
    ensures { SendsWholeTables }
{}
