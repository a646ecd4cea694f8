// How a stream that is published is kept by the server.
#[derive(Clone, Copy, Debug, PartialEq, Eq)]
pub enum PublishRequestType {
    // not recorded
    Live,
    // recorded to a new file
    Record,
    // appended to a file
    Append,
}
