// The bodies that a client sends, each written from the start of a lent output. A text's length has to fit AMF0's 2 bytes; only the
// session calls these, and its texts have at most 255: they lie in so many bytes, or were tested for it. A type for texts below 2 ^ 16 bytes
// would be no plainer than `length .. < 2 ^ 16`, as each name that stands here as a literal would have to be wrapped.
#![tactic(auto)]

mod commands;
mod controls;
mod metadata_body;
mod properties;

pub use commands::{
    write_connect, write_create_stream, write_delete_stream, write_play, write_publish,
};
pub use controls::{write_acknowledgement, write_ping_request, write_ping_response, write_sizes};
pub use metadata_body::write_metadata;
