// The settings of a session.
ghost use Rattle.std.specs.Prelude.{◌≡◌, true};
ghost use Rattle.requests.specs.Texts.{text_sound};
ghost use Rattle.session.specs.Record.{default_config, texts_sound};

use requests::Text;

// A tc_url that is configured may be empty.
#[derive(Clone, Copy, Debug, PartialEq, Eq)]
pub struct ClientSessionConfig {
    pub flash_version: Text,
    pub playback_buffer_length_ms: u32,
    pub window_ack_size: u32,
    pub chunk_size: u32,
    pub tc_url: Option<Text>,
}

// Whether the text is plainly sound: it has at most sixteen bytes, and the sixteen that lie there are below 80. No array is copied for that.
pub(crate) fn is_short(text: &Text) -> bool
    ensures { result ≡ true → text_sound text.now ≡ true }
{
    text.len <= 16 && text.bytes[..16].iter().all(|b| *b < 0x80)
}

impl ClientSessionConfig {
    pub fn new() -> ClientSessionConfig
        ensures { result ≡ default_config }
    {
        ClientSessionConfig {
            flash_version: Text::new(b"WIN 23,0,0,207"),
            playback_buffer_length_ms: 2000,
            window_ack_size: 2500000,
            chunk_size: 4096,
            tc_url: None,
        }
    }

    // Whether the texts are such as opening accepts; a tc_url counts if one is configured.
    pub(crate) fn texts_sound(&self) -> bool
        ensures { result ≡ texts_sound self.now }
    {
        self.flash_version.sound()
            && match &self.tc_url {
                None => true,
                Some(url) => url.sound(),
            }
    }
}
