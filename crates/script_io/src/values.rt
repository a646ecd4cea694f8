// The values of events, each a field behind a tab. Texts and AMF0 values are the bytes of their places in the message's body.
use crate::output::Output;
use messages::StreamMetadata;
use octets::Span;
use session::ClientSessionEvent;
use std::io;
use std::num::f32_to_bits_with_nan;

impl Output<'_> {
    fn number_field(&mut self, n: u32) -> io::Result<()> {
        self.put(b"\t")?;
        self.number(u64::from(n))
    }

    fn bytes_field(&mut self, bytes: &[u8]) -> io::Result<()> {
        self.put(b"\t")?;
        self.digits(bytes)
    }

    // A text that may be absent, and is empty then.
    fn text_field(&mut self, place: Option<Span>, body: &[u8]) -> io::Result<()> {
        match place {
            None => self.put(b"\t"),
            Some(place) => self.bytes_field(place.part_of(body)),
        }
    }

    // A picture or a sound: its time, and the whole body.
    fn media(&mut self, time: u32, body: &[u8]) -> io::Result<()> {
        self.number_field(time)?;
        self.bytes_field(body)
    }

    // The Number of a command as 16 digits, its object, and the arguments to the body's end.
    fn command(&mut self, pattern: u64, object: usize, args: usize, body: &[u8]) -> io::Result<()> {
        self.bytes_field(&pattern.to_be_bytes())?;
        self.bytes_field(octets::part(body, object, args.saturating_sub(object)))?;
        self.bytes_field(octets::part(body, args, body.len()))
    }

    fn whole(&mut self, name: &[u8], value: Option<u32>) -> io::Result<()> {
        if let Some(n) = value {
            self.put(name)?;
            self.number(u64::from(n))?;
        }
        Ok(())
    }

    // Its pattern as 8 digits. That of a NaN is document 01's, whichever the compiled code holds.
    fn frame_rate(&mut self, value: Option<f32>) -> io::Result<()> {
        if let Some(x) = value {
            self.put(b"\tframerate=")?;
            self.digits(&f32_to_bits_with_nan(x).to_be_bytes())?;
        }
        Ok(())
    }

    fn stereo(&mut self, value: Option<bool>) -> io::Result<()> {
        match value {
            Some(true) => self.put(b"\tstereo=1"),
            Some(false) => self.put(b"\tstereo=0"),
            None => Ok(()),
        }
    }

    fn encoder(&mut self, place: Option<Span>, body: &[u8]) -> io::Result<()> {
        if let Some(place) = place {
            self.put(b"\tencoder=")?;
            self.digits(place.part_of(body))?;
        }
        Ok(())
    }

    // The fields that are there, as NAME=VALUE in document 01's order.
    fn metadata(&mut self, m: StreamMetadata, body: &[u8]) -> io::Result<()> {
        self.whole(b"\twidth=", m.video_width)?;
        self.whole(b"\theight=", m.video_height)?;
        self.whole(b"\tvideocodecid=", m.video_codec_id)?;
        self.frame_rate(m.video_frame_rate)?;
        self.whole(b"\tvideodatarate=", m.video_bitrate_kbps)?;
        self.whole(b"\taudiocodecid=", m.audio_codec_id)?;
        self.whole(b"\taudiodatarate=", m.audio_bitrate_kbps)?;
        self.whole(b"\taudiosamplerate=", m.audio_sample_rate)?;
        self.whole(b"\taudiochannels=", m.audio_channels)?;
        self.stereo(m.audio_is_stereo)?;
        self.encoder(m.encoder, body)
    }

    pub(crate) fn values(&mut self, raised: ClientSessionEvent, body: &[u8]) -> io::Result<()> {
        match raised {
            ClientSessionEvent::ConnectionRequestAccepted
            | ClientSessionEvent::PlaybackRequestAccepted
            | ClientSessionEvent::PublishRequestAccepted => Ok(()),
            ClientSessionEvent::ConnectionRequestRejected(text) => self.text_field(text, body),
            ClientSessionEvent::StreamMetadataReceived(m) => self.metadata(m, body),
            ClientSessionEvent::VideoDataReceived(time)
            | ClientSessionEvent::AudioDataReceived(time) => self.media(time.0, body),
            ClientSessionEvent::UnhandleableAmf0Command {
                name,
                number,
                object,
                args,
            } => {
                self.bytes_field(name.part_of(body))?;
                self.command(number, object, args, body)
            }
            ClientSessionEvent::UnknownTransactionResultReceived {
                number,
                object,
                args,
            } => self.command(number, object, args, body),
            ClientSessionEvent::UnhandleableOnStatusCode(code) => {
                self.bytes_field(code.part_of(body))
            }
            ClientSessionEvent::AcknowledgementReceived(n) => self.number_field(n),
            ClientSessionEvent::PingResponseReceived(time) => self.number_field(time.0),
        }
    }
}
