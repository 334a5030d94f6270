ghost use Rattle.std.specs.Prelude.{◌≡◌};
ghost use Rattle.zero_copy_connection.specs.Numbers.{channel_number};
ghost use Rattle.zero_copy_connection.specs.Answers.{answer_of, flag, number};
ghost use Rattle.zero_copy_connection.specs.Receiving.{has_data_answer, borrow_count_answer};

use crate::ChannelError;
use crate::common::open_channel;
use connection_ports::BorrowCounters;
use dynamic_storage::DynamicStorage;

/// Whether a value waits to be received on a channel.
pub fn has_data<S: DynamicStorage>(storage: &S, channel: u64) -> Result<bool, ChannelError>
    ensures { answer_of flag channel_number result ≡ has_data_answer (S.DynamicStorage.condition storage.now) (S.DynamicStorage.words storage.now) channel }
{
    let opened = open_channel(storage, channel)?;
    Ok(opened.submission().len(storage) > 0)
}

/// How many values are borrowed on a channel.
pub fn borrow_count<S: DynamicStorage>(
    storage: &S,
    counters: &BorrowCounters,
    channel: u64,
) -> Result<u64, ChannelError>
    ensures { answer_of number channel_number result ≡ borrow_count_answer (S.DynamicStorage.condition storage.now) (S.DynamicStorage.words storage.now) counters.now.counts channel }
{
    let _ = open_channel(storage, channel)?;
    Ok(counters.counts[channel as usize])
}
