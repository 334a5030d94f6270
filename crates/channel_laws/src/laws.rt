ghost use Rattle.channel_laws.specs.Calls.{State};
ghost use Rattle.channel_laws.specs.Moves.{CallsMove};
ghost use Rattle.channel_laws.specs.Laws.{RefusalsLeave, OthersAllStay, OwnChannelDecides};

/// A refused call leaves everything as it was, but for the two that find a value that names no used chunk.
pub fn refusals_leave()
    ensures { RefusalsLeave }
{}

/// Which values join and leave the queues of a channel, which sizes and marks change, and how the counter does.
pub fn calls_move_values()
    ensures { (t : State) → CallsMove t }
{}

/// A call changes nothing outside its own channel: not the condition, nor how many words and counters there are, nor
/// any word or counter of another channel.
pub fn other_channels_stay()
    ensures { OthersAllStay }
{}

/// What a call answers, and what it leaves on its channel, depends on that channel and the header alone.
pub fn answers_depend_on_own_channel()
    ensures { OwnChannelDecides }
{}
