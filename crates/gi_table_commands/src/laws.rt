//! What holds of all inputs. The function does nothing; its clauses are the laws.
ghost use Rattle.gi_table_commands.specs.Laws.{HasNoAnswer, HasOneAnswer, HasOneFault};

use gi_messages::reads_spelling;

/// Want of memory aside, an input has one answer at most, none where it is refused, and one fault
/// at most.
pub fn one_outcome()
    ensures answer { HasOneAnswer }
    ensures refused { HasNoAnswer }
    ensures fault { HasOneFault }
{
    reads_spelling();
}
