//! Short lists of calls on new connections, worked to their answers.
#![tactic(auto)]

ghost use Rattle.worked_cases.specs.Cases.{WorkedCases};

use connection_ports::small_room;
use connection_words::small_connection;

/// The worked cases follow from the definitions that the contracts of the calls cite.
pub fn worked_cases()
    ensures { WorkedCases }
{
    small_connection();
    small_room();
}
