// Notices: an onStatus message with a code.
ghost use Rattle.std.specs.Prelude.{◌≡◌, ℕ, Bool, List, [], ◌∷◌, drop};
ghost use Rattle.messages.specs.Notice.{code_at};
ghost use Rattle.session.specs.Calls.{raises, one};
ghost use Rattle.session.specs.Plan.{go, in_order, unless_stage};
ghost use Rattle.session.specs.Record.{with_progress};
ghost use Rattle.session.specs.Message.{noticed};
ghost use Rattle.session.specs.Comes.{Comes, called};

use crate::errors::ClientSessionError;
use crate::events::ClientSessionEvent;
use crate::record::ClientSession;
use crate::result::{Outcome, raised};
use crate::state::ClientState;
use messages::{OnStatus, RtmpTimestamp};

impl ClientSession {
    // A Start notice: `awaited` says whether the stage is the one that waits for it, and `state` is the stage after it.
    fn started(
        &mut self,
        awaited: bool,
        state: ClientState,
        event: ClientSessionEvent,
    ) -> Result<Outcome, ClientSessionError>
        ensures { (at : ClientState → Bool) (old : List ℕ) → awaited ≡ at self.old.progress.state → Comes self.old (in_order (unless_stage at self.old ∷ []) (go (one (raises event)) (with_progress self.old state self.old.progress.active))) old (called result self.new) old }
    {
        if !awaited {
            return Err(ClientSessionError::SessionInInvalidState(self.progress.state));
        }
        self.progress.state = state;
        Ok(raised(event))
    }

    // The code stands in the value at `args`, the first argument.
    pub(crate) fn handle_on_status_command(
        &mut self,
        args: usize,
        body: &[u8],
    ) -> Result<Outcome, ClientSessionError>
        ensures { (clock : RtmpTimestamp) (old : List ℕ) → Comes self.old (noticed self.old clock body.now (code_at body.now (drop args body.now))) old (called result self.new) old }
    {
        let Some(code) = messages::on_status_code(body, args) else {
            return Err(ClientSessionError::InvalidOnStatusArguments);
        };
        match code {
            OnStatus::PlayStart => {
                let awaited = self.progress.state.is_play_requested();
                let event = ClientSessionEvent::PlaybackRequestAccepted;
                self.started(awaited, ClientState::Playing, event)
            }
            OnStatus::PublishStart => {
                let awaited = self.progress.state.is_publish_requested();
                let event = ClientSessionEvent::PublishRequestAccepted;
                self.started(awaited, ClientState::Publishing, event)
            }
            OnStatus::Other(place) => {
                Ok(raised(ClientSessionEvent::UnhandleableOnStatusCode(place)))
            }
        }
    }
}
