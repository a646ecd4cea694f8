// The verbs, and the words for what is published.
ghost use Rattle.std.specs.Prelude.{◌≡◌};
ghost use Rattle.script.specs.Verbs.{verb_of, publish_type};

use messages::PublishRequestType;

#[derive(Clone, Copy, Debug, PartialEq, Eq)]
pub(crate) enum Verb {
    Bytes,
    Msg,
    Connect,
    Play,
    Publish,
    StopPlayback,
    StopPublishing,
    Ping,
    Video,
    Audio,
    Metadata,
    Open,
    Space,
}

const VERBS: [(&[u8], Verb); 13] = [
    (b"bytes", Verb::Bytes),
    (b"msg", Verb::Msg),
    (b"connect", Verb::Connect),
    (b"play", Verb::Play),
    (b"publish", Verb::Publish),
    (b"stop_playback", Verb::StopPlayback),
    (b"stop_publishing", Verb::StopPublishing),
    (b"ping", Verb::Ping),
    (b"video", Verb::Video),
    (b"audio", Verb::Audio),
    (b"metadata", Verb::Metadata),
    (b"open", Verb::Open),
    (b"space", Verb::Space),
];

pub(crate) fn verb_of(s: &[u8]) -> Option<Verb>
    ensures { result ≡ verb_of s.now }
{
    let (_, verb) = VERBS.iter().find(|(word, _)| octets::same(s, *word))?;
    Some(*verb)
}

const TYPES: [(&[u8], PublishRequestType); 3] = [
    (b"live", PublishRequestType::Live),
    (b"record", PublishRequestType::Record),
    (b"append", PublishRequestType::Append),
];

pub(crate) fn publish_type(s: &[u8]) -> Option<PublishRequestType>
    ensures { result ≡ publish_type s.now }
{
    let (_, kind) = TYPES.iter().find(|(word, _)| octets::same(s, *word))?;
    Some(*kind)
}
