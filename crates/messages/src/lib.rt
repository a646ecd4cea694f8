// Message bodies by type, read: what a body says, with the places of its texts and values.
#![tactic(auto)]

mod amf0_command;
mod amf0_data;
mod ids;
mod kind;
mod message_payload;
mod on_status;
mod protocol_control;
mod publish_request_type;
mod rejection;
mod rtmp_message;
mod stream_metadata;
mod user_control;

pub use ids::{RtmpTimestamp, StreamNumber, TransactionNumber};
pub use message_payload::to_rtmp_message;
pub use on_status::{OnStatus, on_status_code};
pub use publish_request_type::PublishRequestType;
pub use rejection::description;
pub use rtmp_message::{
    Argument, Command, CommandName, DataMessage, PeerBandwidthLimitType, RtmpMessage,
    UserControlEvent,
};
pub use stream_metadata::{StreamMetadata, read_metadata};
