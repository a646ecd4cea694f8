// A stream number, a transaction number and a timestamp are three types.

// Milliseconds from an epoch that the peers don't share; it wraps.
#[derive(Clone, Copy, Debug, PartialEq, Eq)]
pub struct RtmpTimestamp(pub u32);

// The number of a message stream.
#[derive(Clone, Copy, Debug, PartialEq, Eq)]
pub struct StreamNumber(pub u32);

// The number under which a request was sent.
#[derive(Clone, Copy, Debug, PartialEq, Eq)]
pub struct TransactionNumber(pub u32);
