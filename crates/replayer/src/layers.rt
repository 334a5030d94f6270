use dynamic_storage::DynamicStorage;
use script::call::{Call, Frame, Pile};
use session::{Answer, Session, list_words};
use std::io;
use storage_layers::{ByteSwapped, Window};

/// What is done once with a storage, which is handed back.
pub(crate) trait Visit {
    fn visit<S: DynamicStorage + Drop>(self, storage: S) -> io::Result<S>;
}

/// Performs a call and prints the answer.
pub(crate) struct Perform<'a> {
    pub(crate) rt: &'a HostRuntime,
    pub(crate) session: &'a mut Session,
    pub(crate) call: Call,
}

impl Visit for Perform<'_> {
    fn visit<S: DynamicStorage + Drop>(self, mut storage: S) -> io::Result<S> {
        let Perform { rt, session, call } = self;
        let answer = session.perform(&mut storage, call);
        match answer {
            Answer::List => {
                let words = list_words(rt.alloc(), &storage)?;
                print_list(rt, words.as_slice())?;
            }
            Answer::Counters => print_list(rt, session.counters())?,
            _ => println!(rt; "{answer}")?,
        }
        Ok(storage)
    }
}

/// Closes the ports that are still held at the end of a script.
pub(crate) struct CloseAll<'a> {
    pub(crate) session: &'a mut Session,
}

impl Visit for CloseAll<'_> {
    fn visit<S: DynamicStorage + Drop>(self, mut storage: S) -> io::Result<S> {
        let CloseAll { session } = self;
        session.close_all(&mut storage);
        Ok(storage)
    }
}

/// Visits a window of a storage, where there is one.
struct Windowed<V> {
    frame: Option<Frame>,
    inner: V,
}

impl<V: Visit> Visit for Windowed<V> {
    fn visit<S: DynamicStorage + Drop>(self, storage: S) -> io::Result<S> {
        let Windowed { frame, inner } = self;
        match frame {
            Some(frame) => {
                let window = Window::new(storage, frame.place, frame.count);
                Ok(inner.visit(window)?.into_below())
            }
            None => inner.visit(storage),
        }
    }
}

/// Visits a storage with the bytes of each word reversed, where that is asked for.
// The flag is the script's, which has no value with it.
struct Swapped<V> {
    swapped: bool,
    inner: V,
}

impl<V: Visit> Visit for Swapped<V> {
    fn visit<S: DynamicStorage + Drop>(self, storage: S) -> io::Result<S> {
        let Swapped { swapped, inner } = self;
        if swapped {
            Ok(inner.visit(ByteSwapped::new(storage))?.into_below())
        } else {
            inner.visit(storage)
        }
    }
}

/// Visits a backing with its layers over it.
pub(crate) fn visit_through<B: DynamicStorage + Drop, V: Visit>(
    backing: B,
    pile: &Pile,
    inner: V,
) -> io::Result<B> {
    let upper = Windowed {
        frame: pile.upper,
        inner,
    };
    let swapped = Swapped {
        swapped: pile.swapped,
        inner: upper,
    };
    let lower = Windowed {
        frame: pile.lower,
        inner: swapped,
    };
    lower.visit(backing)
}

fn print_list(rt: &HostRuntime, words: &[u64]) -> io::Result<()> {
    print!(rt; "list")?;
    for word in words {
        print!(rt; " {word}")?;
    }
    println!(rt; "")
}
