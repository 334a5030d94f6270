/// The script that runs where none is given.
pub(crate) const STORY: &[u8] =
    b"# A connection in borrowed bytes, in a window whose words have their bytes reversed.
storage bytes 400 swapped window 2 30
condition
# Two channels, one segment of four samples, a buffer of two that overflows and one borrowed: 40 words.
settings 2 1 4 1 2 1 0
create sender
# A buffer of one, one channel: 22 words. There is one sender, and the receiver has to agree on the settings.
settings 1 1 4 1 1 1 0
create sender
create sender
settings 1 1 9 1 1 1 0
create receiver
settings 1 1 4 1 1 1 0
create receiver
condition
# Payloads of 64 bytes: the first waits, and the second evicts it.
send 0 0 64 0
has_data 0
send 64 0 64 0
# It is received, and no other one while it is borrowed.
receive 0
borrow_count 0
send 128 0 64 0
receive 0
# It goes back to the sender, which can send it again.
release 64 0 0
receive 0
send 64 0 64 0
reclaim 0
send 64 0 64 0
reclaim 0
words
counters
# The last port to close leaves the storage absent.
close sender
close receiver
condition
";
