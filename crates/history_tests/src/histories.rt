use blocking_send::{BackpressureToReceiverAction, FixedAction};
use connection_ports::{Builder, ChannelState, Port, close};
use connection_words::Settings;
use dynamic_storage::{Condition, DynamicStorage};
use history_lists::{Lists, lists_of};
use history_run::{Answer, Call, Ports, Run, run_history};
use shm_allocator::PointerOffset;
use std::alloc::Global;
use std::process::Abort;
use storage_backings::ProcessLocal;

fn small() -> Builder {
    Builder {
        settings: Settings {
            buffer_size: 1,
            max_borrowed_samples_per_channel: 1,
            number_of_samples_per_segment: 8,
            number_of_segments: 1,
            number_of_channels: 1,
            enable_safe_overflow: true,
        },
        initial_channel_state: ChannelState::open(),
    }
}

fn send(offset: u64) -> Call<FixedAction> {
    Call::Send {
        value: PointerOffset::new(offset),
        sample_size: 64,
        channel: 0,
    }
}

fn begin(offset: u64) -> Call<FixedAction> {
    Call::Begin {
        id: 0,
        value: PointerOffset::new(offset),
        sample_size: 64,
        channel: 0,
        strategy: BackpressureToReceiverAction::Retry,
        budget: 1,
    }
}

// What the calls answer on a new connection, whose ports are closed then.
fn answers_to(
    rt: &impl Abort,
    heap: Global,
    first: Port,
    calls: &[Call<FixedAction>],
) -> Vec<Answer> {
    let mut storage = ProcessLocal::new();
    let made = run_history(heap, &mut storage, first, &small(), calls);
    let Ok(
        Run {
            ports: Ports {
                sender,
                receiver,
                counters: _,
            },
            waits: _,
            answers,
        },
    ) = made
    else {
        panic!(rt; "the history was not made");
    };
    let _ = close(&mut storage, sender);
    let _ = close(&mut storage, receiver);
    assert!(rt; matches!(storage.condition(), Condition::Absent));
    answers
}

fn lists_after(
    rt: &impl Abort,
    heap: Global,
    calls: &[Call<FixedAction>],
    answers: &[Answer],
) -> Lists {
    let Ok(lists) = lists_of(heap, calls, answers, 0) else {
        panic!(rt; "the lists were not made");
    };
    lists
}

fn sent(value: u64, evicted: Option<u64>) -> Answer {
    Answer::Sent {
        value,
        channel: 0,
        evicted,
    }
}

// The second send evicts the first, and one value may be on loan.
#[test]
fn evicted_and_on_loan(rt: HostRuntime) {
    let receive = Call::Receive { channel: 0 };
    let calls = [send(64), send(128), receive, receive];
    let answers = answers_to(&rt, rt.alloc(), Port::Sender, &calls);
    let wanted = [
        sent(16384, None),
        sent(32768, Some(16384)),
        Answer::Value(32768),
        Answer::Refused(40),
    ];
    assert_eq!(rt; answers.as_slice(), wanted.as_slice());
    let lists = lists_after(&rt, rt.alloc(), &calls, answers.as_slice());
    assert!(rt; lists.waiting.is_empty());
    assert!(rt; lists.on_loan.as_slice() == [32768].as_slice());
    assert!(rt; lists.returned.is_empty());
}

// A value goes to the receiver and back; without the reclaim it is among the returned.
#[test]
fn returned(rt: HostRuntime) {
    let release = Call::Release {
        value: PointerOffset::new(64),
        channel: 0,
    };
    let calls = [send(64), Call::Receive { channel: 0 }, release];
    let answers = answers_to(&rt, rt.alloc(), Port::Receiver, &calls);
    let wanted = [sent(16384, None), Answer::Value(16384), Answer::Nothing];
    assert_eq!(rt; answers.as_slice(), wanted.as_slice());
    let lists = lists_after(&rt, rt.alloc(), &calls, answers.as_slice());
    assert!(rt; lists.on_loan.is_empty());
    assert!(rt; lists.returned.as_slice() == [16384].as_slice());
}

// A pending send that finds room ends with its first step, and its value waits.
#[test]
fn sent_by_a_step(rt: HostRuntime) {
    let step = Call::Step {
        id: 0,
        policy: FixedAction(BackpressureToReceiverAction::Retry),
    };
    let calls = [begin(64), step];
    let answers = answers_to(&rt, rt.alloc(), Port::Sender, &calls);
    let wanted = [Answer::Begun, sent(16384, None)];
    assert_eq!(rt; answers.as_slice(), wanted.as_slice());
    let lists = lists_after(&rt, rt.alloc(), &calls, answers.as_slice());
    assert!(rt; lists.waiting.as_slice() == [16384].as_slice());
}
