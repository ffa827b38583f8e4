//! What sending ends owe, by the definitions alone.

ghost use Rattle.vx_exchange_ends.specs.Closing.{FaultCutsShort, LastShips};
ghost use Rattle.vx_exchange_ends.specs.Parts.{PartStaysAsRowsCome, PartStaysWithLess, PartStaysWithoutLast, BegunStaysAsRowsCome, BegunStaysWithoutLast, FaultStops};
ghost use Rattle.vx_exchange_ends.specs.Rounds.{TurnsAreDealt};

/// Fault behind packets of a prefix makes a stream that is cut short.
pub fn fault_cuts_short()
    ensures { FaultCutsShort }
{}

/// Last behind all that the rows send makes a whole one.
pub fn last_ships()
    ensures { LastShips }
{}

/// Rows in turn go to one consumer each.
pub fn turns_are_dealt()
    ensures { TurnsAreDealt }
{}

/// Packets of a prefix of some rows are packets of a prefix of these and more.
pub fn part_stays_as_rows_come()
    ensures { PartStaysAsRowsCome }
{}

/// So are fewer of these packets.
pub fn part_stays_with_less()
    ensures { PartStaysWithLess }
{}

/// So is all but the last packet for a consumer.
pub fn part_stays_without_last()
    ensures { PartStaysWithoutLast }
{}

/// Law: `BeganSending` is monotone in the accepted rows.
pub fn begun_stays_as_rows_come()
    ensures { BegunStaysAsRowsCome }
{}

/// Law: `BeganSending` still holds without the last packet for a consumer.
pub fn begun_stays_without_last()
    ensures { BegunStaysWithoutLast }
{}

/// A task that has begun is stopped by Fault on each port.
pub fn fault_stops()
    ensures { FaultStops }
{}
