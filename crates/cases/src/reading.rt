// Message bodies: what a body of a type says.
use crate::shown::{Shown, rate};
use amf0::Malformed;
use case_lines::{Digits, OrDash, OrWord};
use messages::{
    Argument, Command, CommandName, DataMessage, OnStatus, PeerBandwidthLimitType, RtmpMessage,
    StreamMetadata, UserControlEvent,
};
use std::io::Write;
use std::{fmt, io};

// A word and what follows it. The word goes out without the space behind it.
#[derive(Debug, PartialEq, Eq, Clone, Copy)]
struct Said<'a, T>(&'a str, T);

impl<T: fmt::Display> fmt::Display for Said<'_, T> {
    fn fmt<W: fmt::Write>(&self, f: &mut fmt::Formatter<W>) -> fmt::Result {
        write!(f, "{} {}", self.0, self.1)
    }
}

// A word that follows others goes out with its space.
impl fmt::Display for Shown<PeerBandwidthLimitType> {
    fn fmt<W: fmt::Write>(&self, f: &mut fmt::Formatter<W>) -> fmt::Result {
        f.write_str(match self.0 {
            PeerBandwidthLimitType::Hard => " hard",
            PeerBandwidthLimitType::Soft => " soft",
            PeerBandwidthLimitType::Dynamic => " dynamic",
        })
    }
}

impl fmt::Display for Shown<UserControlEvent> {
    fn fmt<W: fmt::Write>(&self, f: &mut fmt::Formatter<W>) -> fmt::Result {
        match self.0 {
            UserControlEvent::StreamBegin(x) => write!(f, "{}", Said("begin", x.0)),
            UserControlEvent::StreamEof(x) => write!(f, "{}", Said("eof", x.0)),
            UserControlEvent::StreamDry(x) => write!(f, "{}", Said("dry", x.0)),
            UserControlEvent::SetBufferLength { stream, length } => {
                write!(f, "{} {length}", Said("buffer", stream.0))
            }
            UserControlEvent::StreamIsRecorded(x) => write!(f, "{}", Said("recorded", x.0)),
            UserControlEvent::PingRequest(t) => write!(f, "{}", Said("ping", t.0)),
            UserControlEvent::PingResponse(t) => write!(f, "{}", Said("pong", t.0)),
        }
    }
}

impl fmt::Display for Shown<CommandName> {
    fn fmt<W: fmt::Write>(&self, f: &mut fmt::Formatter<W>) -> fmt::Result {
        f.write_str(match self.0 {
            CommandName::Result => "command result",
            CommandName::Error => "command error",
            CommandName::OnStatus => "command onstatus",
            CommandName::Other => "command other",
        })
    }
}

impl fmt::Display for Shown<Argument> {
    fn fmt<W: fmt::Write>(&self, f: &mut fmt::Formatter<W>) -> fmt::Result {
        match self.0 {
            Argument::Number(bits) => write!(f, " number {}", Digits(bits, 16)),
            Argument::Object => f.write_str(" object"),
            Argument::Other => f.write_str(" other"),
        }
    }
}

impl fmt::Display for Shown<OnStatus> {
    fn fmt<W: fmt::Write>(&self, f: &mut fmt::Formatter<W>) -> fmt::Result {
        match self.0 {
            OnStatus::PlayStart => f.write_str(" play"),
            OnStatus::PublishStart => f.write_str(" publish"),
            OnStatus::Other(place) => write!(f, "{}", Said(" other", Shown(place))),
        }
    }
}

// The code follows where the command is an onStatus with an object as its first argument.
fn command<W: Write>(to: &mut W, c: Command, body: &[u8]) -> io::Result<()> {
    let (name, place) = (Shown(c.name), Shown(c.name_at));
    let first = OrWord(c.first.map(Shown), " absent");
    let (number, object, args) = (Digits(c.number, 16), c.object, c.args);
    write!(to, "{name} {place} {number} {object} {args}{first}")?;
    if let (CommandName::OnStatus, Some(Argument::Object)) = (c.name, c.first) {
        let code = messages::on_status_code(body, args);
        write!(to, "{}", OrWord(code.map(Shown), " invalid"))?;
    }
    Ok(())
}

fn fields<W: Write>(to: &mut W, m: StreamMetadata) -> io::Result<()> {
    write!(
        to,
        "{}{}{}{}{}{}{}{}{}{}",
        OrDash(m.video_width),
        OrDash(m.video_height),
        OrDash(m.video_codec_id),
        OrDash(m.video_frame_rate.map(rate)),
        OrDash(m.video_bitrate_kbps),
        OrDash(m.audio_codec_id),
        OrDash(m.audio_bitrate_kbps),
        OrDash(m.audio_sample_rate),
        OrDash(m.audio_channels),
        OrDash(m.audio_is_stereo.map(u8::from))
    )?;
    match m.encoder {
        Some(place) => write!(to, " {},{}", place.start, place.len),
        None => write!(to, " -"),
    }
}

fn show<W: Write>(to: &mut W, m: RtmpMessage, body: &[u8]) -> io::Result<()> {
    match m {
        RtmpMessage::Unknown => write!(to, "unknown"),
        RtmpMessage::Abort(n) => write!(to, "{}", Said("abort", n)),
        RtmpMessage::Acknowledgement(n) => write!(to, "{}", Said("ack", n)),
        RtmpMessage::Amf0Command(c) => command(to, c, body),
        RtmpMessage::Amf0Data(DataMessage::OnMetaData(at)) => {
            write!(to, "{}", Said("metadata", at))?;
            fields(to, messages::read_metadata(body, at))
        }
        RtmpMessage::Amf0Data(DataMessage::Other) => write!(to, "data"),
        RtmpMessage::AudioData => write!(to, "audio"),
        RtmpMessage::SetChunkSize(n) => write!(to, "{}", Said("chunk", n)),
        RtmpMessage::SetPeerBandwidth { size, limit } => {
            write!(to, "{}{}", Said("bandwidth", size), Shown(limit))
        }
        RtmpMessage::UserControl(e) => write!(to, "{}", Shown(e)),
        RtmpMessage::VideoData => write!(to, "video"),
        RtmpMessage::WindowAcknowledgement(n) => write!(to, "{}", Said("window", n)),
    }
}

// The first byte is the message's type; the body follows.
pub fn case<W: Write>(to: &mut W, given: &[u8]) -> io::Result<()> {
    match given {
        [kind, body @ ..] => match messages::to_rtmp_message(*kind, body) {
            Ok(m) => show(to, m, body),
            Err(Malformed) => write!(to, "malformed"),
        },
        [] => Ok(()),
    }
}

// All 65,536 events of type 4, with as many more bytes as are given: how many are well formed.
pub fn events<W: Write>(to: &mut W, given: &[u8], space: &mut [u8]) -> io::Result<()> {
    let Some(body) = space.get_mut(..given.len().saturating_add(2)) else {
        return Ok(());
    };
    let mut count = 0u64;
    for e in 0..=u16::MAX {
        body[..2].copy_from_slice(&e.to_be_bytes());
        if let Ok(RtmpMessage::UserControl(_)) = messages::to_rtmp_message(4, body) {
            count += 1;
        }
    }
    write!(to, "{count}")
}
