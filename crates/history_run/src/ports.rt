ghost use Rattle.std.specs.Prelude.{◌≡◌, replicate, IfOk};
ghost use Rattle.dynamic_storage.specs.declared.condition.Condition.TheVariants.{Absent};
ghost use Rattle.connection_words.specs.Settings.{raised};
ghost use Rattle.connection_ports.specs.declared.port.Port.TheVariants as port;
ghost use Rattle.connection_ports.specs.Numbers.{creation_number, refused_by};
ghost use Rattle.connection_ports.specs.Creation.{creation_refusal};
ghost use Rattle.connection_ports.specs.Tokens.{Open};
ghost use Rattle.history_run.specs.Ran.{OpenedTo};

use crate::Ports;
use connection_ports::{BorrowCounters, Builder, Port, ZeroCopyCreationError};
use dynamic_storage::DynamicStorage;

/// Creates both ports over an absent storage, one after the other.
pub(crate) fn create_ports<S: DynamicStorage>(
    storage: &mut S,
    first: Port,
    builder: &Builder,
) -> Result<Ports, ZeroCopyCreationError>
    requires { S.DynamicStorage.condition storage.old ≡ Absent }
    ensures answer { refused_by creation_number result ≡ creation_refusal first (raised builder.now.settings) (S.DynamicStorage.condition storage.old) (S.DynamicStorage.words storage.old) }
    ensures leaves { OpenedTo (refused_by creation_number result) first builder.now.settings builder.now.initial_channel_state.0 (S.DynamicStorage.condition storage.old) (S.DynamicStorage.words storage.old) (S.DynamicStorage.condition storage.new) (S.DynamicStorage.words storage.new) }
    ensures ports { IfOk result (λ ports. Open port.Sender ports.sender × Open port.Receiver ports.receiver × (ports.counters.counts ≡ replicate 64 0)) }
    ensures outside { S.DynamicStorage.outside storage.new ≡ S.DynamicStorage.outside storage.old }
{
    let one = builder.create(storage, first)?;
    let Ok(other) = builder.create(storage, first.other()) else {
        unreachable()
    };
    let counters = BorrowCounters::new();
    match first {
        Port::Sender => Ok(Ports {
            sender: one,
            receiver: other,
            counters,
        }),
        Port::Receiver => Ok(Ports {
            sender: other,
            receiver: one,
            counters,
        }),
    }
}
