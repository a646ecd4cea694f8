// What both programs read from a case for a body of metadata or a publish.
use crate::cursor::Given;
use messages::{PublishRequestType, StreamMetadata};

// 0 live, 1 record, and any other append.
pub fn publish_type(b: u8) -> PublishRequestType {
    match b {
        0 => PublishRequestType::Live,
        1 => PublishRequestType::Record,
        _ => PublishRequestType::Append,
    }
}

// A single, by its pattern.
fn single(pattern: u32) -> f32 {
    numbers::narrow(numbers::widen_bits(pattern))
}

// Eleven bytes say which fields are there, and one that isn't given says no; then come nine numbers of 4 bytes, the fourth the pattern of a
// single, and stereo. Whether the encoder is there is answered beside the others: its place is left to the caller.
pub fn metadata(given: &mut Given<'_>) -> (StreamMetadata, bool) {
    let flags = given.up_to(11);
    let is_there = |i: usize| flags.get(i).is_some_and(|b| *b != 0);
    let mut number = |i: usize| {
        let n = given.number().unwrap_or(0);
        is_there(i).then_some(n)
    };
    let fields = StreamMetadata {
        video_width: number(0),
        video_height: number(1),
        video_codec_id: number(2),
        video_frame_rate: number(3).map(single),
        video_bitrate_kbps: number(4),
        audio_codec_id: number(5),
        audio_bitrate_kbps: number(6),
        audio_sample_rate: number(7),
        audio_channels: number(8),
        audio_is_stereo: is_there(9).then_some(given.byte() == Some(1)),
        encoder: None,
    };
    (fields, is_there(10))
}
