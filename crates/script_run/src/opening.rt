// A session opened with the settings that a line names.
ghost use Rattle.std.specs.Prelude.{◌≡◌};
ghost use Rattle.session.specs.Record.{open_of};
ghost use Rattle.script_run.specs.Asked.{url_at, config_of, opened};

use crate::told::{Came, Ran, apart};
use octets::Span;
use requests::Text;
use script::Settings;
use session::{ClientSession, ClientSessionConfig};

// The text at a place of the line, where there is one.
fn url_at(s: &[u8], text: Option<Span>) -> Option<Text>
    ensures { result ≡ url_at s.now text }
{
    text.map(|at| Text::new(at.part_of(s)))
}

#[tactic(auto, unfolding(crate::specs::Asked::config_of))]
pub(crate) fn config(s: &[u8], settings: Settings) -> ClientSessionConfig
    ensures { result ≡ config_of s.now settings }
{
    ClientSessionConfig {
        flash_version: Text::new(settings.flash.part_of(s)),
        playback_buffer_length_ms: settings.buffer,
        window_ack_size: settings.window,
        chunk_size: settings.chunk,
        tc_url: url_at(s, settings.url),
    }
}

// A new session in the old one's place. The old one stays where opening is refused.
#[tactic(auto, unfolding(crate::specs::Asked::opened))]
pub(crate) fn open(session: ClientSession, config: ClientSessionConfig) -> Ran
    ensures { result ≡ opened session (open_of config) }
{
    let called = ClientSession::new(config);
    if called.outcome.is_err() {
        return apart(session, Ok(Came::Answer(called.outcome)));
    }
    Ran::from(called)
}
