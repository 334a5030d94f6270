ghost use Rattle.std.specs.Prelude.{◌≡◌};

use crate::performing::{perform_on, pointer_offset};
use crate::{Answer, Refusal};
use connection_ports::{BorrowCounters, Builder, ChannelState, Port, PortToken, close};
use connection_words::Settings;
use dynamic_storage::DynamicStorage;
use script::call::{Call, StateWord};
use storage_backings::ProcessLocal;
use zero_copy_connection::{borrow_count, has_data, receive, reclaim, release, try_send};

/// What a script holds between its calls: the builder of its ports, those it created and the counters.
pub struct Session {
    builder: Builder,
    sender: Option<PortToken>,
    receiver: Option<PortToken>,
    // Beside the receiver's token, so that both tokens are held alike.
    counters: BorrowCounters,
}

/// Spends a token over a storage that has no connection, where a close changes nothing.
fn retire(held: Option<PortToken>) {
    if let Some(token) = held {
        let mut nowhere = ProcessLocal::new();
        let _ = close(&mut nowhere, token);
    }
}

impl Default for Session {
    ghost use Rattle.session.specs.Holding.{HoldsNoPort};

    ghost is_default = { HoldsNoPort };

    /// The settings are those of the Rust's builder.
    fn default() -> Session {
        Session {
            builder: Builder {
                settings: Settings {
                    buffer_size: 4,
                    max_borrowed_samples_per_channel: 4,
                    number_of_samples_per_segment: 8,
                    number_of_segments: 1,
                    number_of_channels: 1,
                    enable_safe_overflow: false,
                },
                initial_channel_state: ChannelState::open(),
            },
            sender: None,
            receiver: None,
            counters: BorrowCounters::new(),
        }
    }
}

impl Session {
    ghost use Rattle.session.specs.Holding.{HoldsNoPort};

    /// The default session.
    pub fn new() -> Session
        ensures { HoldsNoPort result }
    {
        Session::default()
    }

    /// Performs one call of a script.
    pub fn perform<S: DynamicStorage>(&mut self, storage: &mut S, call: Call) -> Answer
        ensures { S.DynamicStorage.outside storage.new ≡ S.DynamicStorage.outside storage.old }
    {
        self.try_perform(storage, call)
            .unwrap_or_else(Answer::Refused)
    }

    // Whether the port is held is asked before the calls on a channel; `perform_on` is public, and serves what needs no port.
    fn try_perform<S: DynamicStorage>(
        &mut self,
        storage: &mut S,
        call: Call,
    ) -> Result<Answer, Refusal>
        ensures { S.DynamicStorage.outside storage.new ≡ S.DynamicStorage.outside storage.old }
    {
        match call {
            Call::Settings(settings, state) => self.set(settings, state),
            Call::Create(port) => self.create(storage, port),
            Call::Close(port) => self.close_port(storage, port),
            Call::Send { .. } | Call::Reclaim(_) if self.sender.is_none() => Ok(Answer::NoPort),
            Call::Receive(_)
            | Call::Release(_, _, _)
            | Call::HasData(_)
            | Call::BorrowCount(_)
            | Call::Counters
                if self.receiver.is_none() => Ok(Answer::NoPort),
            Call::Counters => Ok(Answer::Counters),
            _ => self.transfer(storage, call),
        }
    }

    /// The calls on a channel, whose port is held. Any other is one on the storage alone.
    fn transfer<S: DynamicStorage>(
        &mut self,
        storage: &mut S,
        call: Call,
    ) -> Result<Answer, Refusal>
        ensures { S.DynamicStorage.outside storage.new ≡ S.DynamicStorage.outside storage.old }
    {
        match call {
            Call::Send {
                offset,
                segment,
                size,
                channel,
            } => {
                let value = pointer_offset(offset, segment);
                let evicted = try_send(storage, value, size, channel)?;
                Ok(evicted.map_or(Answer::Ok, Answer::Evicted))
            }
            Call::Reclaim(channel) => Ok(reclaim(storage, channel)?.into()),
            Call::Receive(channel) => {
                let value = receive(storage, &mut self.counters, channel)?;
                Ok(value.into())
            }
            Call::Release(offset, segment, channel) => {
                let value = pointer_offset(offset, segment);
                release(storage, &mut self.counters, value, channel)?;
                Ok(Answer::Ok)
            }
            Call::HasData(channel) => Ok(has_data(storage, channel)?.into()),
            Call::BorrowCount(channel) => {
                let count = borrow_count(storage, &self.counters, channel)?;
                Ok(Answer::Count(count))
            }
            _ => Ok(perform_on(storage, call)),
        }
    }

    fn set(&mut self, settings: Settings, state: StateWord) -> Result<Answer, Refusal> {
        let initial_channel_state = match state {
            StateWord::Number(value) => ChannelState::new(value)?,
            StateWord::Closed => ChannelState::closed(),
        };
        self.builder = Builder {
            settings,
            initial_channel_state,
        };
        Ok(Answer::Ok)
    }

    /// Where the token of a port is held.
    fn slot(&mut self, port: Port) -> &mut Option<PortToken> {
        match port {
            Port::Sender => &mut self.sender,
            Port::Receiver => &mut self.receiver,
        }
    }

    /// Creates a port and holds its token. A token that was held already is spent.
    fn create<S: DynamicStorage>(&mut self, storage: &mut S, port: Port) -> Result<Answer, Refusal>
        ensures { S.DynamicStorage.outside storage.new ≡ S.DynamicStorage.outside storage.old }
    {
        // By port, since only a receiver has counters.
        let token = match port {
            Port::Sender => self.builder.create_sender(storage)?,
            Port::Receiver => {
                let (token, counters) = self.builder.create_receiver(storage)?;
                self.counters = counters;
                token
            }
        };
        retire(self.slot(port).replace(token));
        Ok(Answer::Ok)
    }

    fn close_port<S: DynamicStorage>(
        &mut self,
        storage: &mut S,
        port: Port,
    ) -> Result<Answer, Refusal>
        ensures { S.DynamicStorage.outside storage.new ≡ S.DynamicStorage.outside storage.old }
    {
        let Some(token) = self.slot(port).take() else {
            return Ok(Answer::NoPort);
        };
        Ok(Answer::State(close(storage, token)?))
    }

    /// The borrow counters of the channels that the settings ask for.
    pub fn counters(&self) -> &[u64] {
        let channels = self.builder.settings.raised().number_of_channels.min(64);
        &self.counters.counts[..channels as usize]
    }

    /// Closes the ports that are still held.
    pub fn close_all<S: DynamicStorage>(&mut self, storage: &mut S)
        ensures { S.DynamicStorage.outside storage.new ≡ S.DynamicStorage.outside storage.old }
    {
        let _ = self.close_port(storage, Port::Sender);
        let _ = self.close_port(storage, Port::Receiver);
    }

    /// Ends the session. Ports that are still held are given up.
    pub fn abandon(self) {
        let Session {
            builder: _,
            sender,
            receiver,
            counters: _,
        } = self;
        retire(sender);
        retire(receiver);
    }
}
