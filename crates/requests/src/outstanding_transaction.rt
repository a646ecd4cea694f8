// What a request was sent for. Its text, an app name or a stream key, stands beside it in its place.
use messages::PublishRequestType;

#[derive(Debug, PartialEq, Eq, Clone, Copy)]
pub enum TransactionPurpose {
    PlayRequest,
    PublishRequest(PublishRequestType),
}

#[derive(Debug, PartialEq, Eq, Clone, Copy)]
pub enum OutstandingTransaction {
    ConnectionRequested,
    CreateStream(TransactionPurpose),
}
