ghost use Rattle.connection_words.specs.Laws.{PlacesAreApart, QueueOrder, OthersAllStay, Sizes};

/// The parts of a connection do not meet, and all lie within its words.
pub fn places_apart()
    ensures { PlacesAreApart }
{}

/// A push appends to the entries of a queue, a pop takes the first, and neither touches another place.
pub fn queue_order()
    ensures { QueueOrder }
{}

/// A push and a pop leave every other queue, the header, every state, every size and every mark as they were.
pub fn others_stay()
    ensures { OthersAllStay }
{}

/// How many words a small connection needs, and how many the largest.
pub fn small_connection()
    ensures { Sizes }
{}
