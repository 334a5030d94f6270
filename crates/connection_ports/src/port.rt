ghost use Rattle.std.specs.Prelude.{◌≡◌, true};

/// One of the two ports of a connection.
#[derive(Clone, Copy, Debug, PartialEq, Eq)]
pub enum Port {
    Sender,
    Receiver,
}

/// How a storage is entered.
// An answer of its own, so that the fault of a storage that is not entered goes up by `?`.
#[derive(Clone, Copy, Debug, PartialEq, Eq)]
pub(crate) enum Entry {
    /// Nobody has used it yet.
    SetUp,
    /// A connection stands in it.
    Join,
}

/// What a creation hands out: the right and the duty to close a port. It holds no storage, and it can be let go only once
/// it was closed.
// The flag is what a drop requires; of a type that is no Drop nothing would say what is owed.
#[derive(Debug, PartialEq, Eq)]
pub struct PortToken {
    pub(crate) port: Port,
    pub(crate) spent: bool,
}

impl Drop for PortToken {
    fn drop(self)
        requires { self.spent ≡ true }
    {
        let PortToken { port: _, spent: _ } = self;
    }
}
