// Stage (document 01), its number, and the tests of it.
ghost use Rattle.std.specs.Prelude.{◌≡◌};
ghost use Rattle.session.specs.Numbers.{stage_number, stage_of};
ghost use Rattle.session.specs.Plan.{is_disconnected, is_connected, is_play, is_publish, is_publishing};
ghost use Rattle.session.specs.Message.{is_play_requested, is_publish_requested};

#[derive(Clone, Copy, Debug, PartialEq, Eq)]
pub enum ClientState {
    // not connected to an application on the server yet
    Disconnected,
    Connected,
    // playback was requested, and its Start notice hasn't come
    PlayRequested,
    Playing,
    // publishing was requested, and its Start notice hasn't come
    PublishRequested,
    Publishing,
}

// The number of a stage: its place in the mission's order.
impl From<ClientState> for u8 {
    ghost from_gives = { λ s n. n ≡ stage_number s };

    fn from(state: ClientState) -> u8 {
        state as u8
    }
}

// A number that no stage has.
#[derive(Clone, Copy, Debug, PartialEq, Eq)]
pub struct NoStage;

// The stage of that number.
impl TryFrom<u8> for ClientState {
    type Error = NoStage;

    ghost try_from_gives = { λ n r. r ≡ stage_of n };

    #[tactic(auto, unfolding(crate::specs::Numbers::stage_of))]
    fn try_from(number: u8) -> Result<Self, NoStage> {
        match number {
            0 => Ok(ClientState::Disconnected),
            1 => Ok(ClientState::Connected),
            2 => Ok(ClientState::PlayRequested),
            3 => Ok(ClientState::Playing),
            4 => Ok(ClientState::PublishRequested),
            5 => Ok(ClientState::Publishing),
            _ => Err(NoStage),
        }
    }
}

impl ClientState {
    pub(crate) fn is_disconnected(self) -> bool
        ensures { result ≡ is_disconnected self }
    {
        self == ClientState::Disconnected
    }

    pub(crate) fn is_connected(self) -> bool
        ensures { result ≡ is_connected self }
    {
        self == ClientState::Connected
    }

    // At which playback can be stopped, and pictures and sound come in.
    pub(crate) fn is_play(self) -> bool
        ensures { result ≡ is_play self }
    {
        matches!(self, ClientState::PlayRequested | ClientState::Playing)
    }

    // At which publishing can be stopped.
    pub(crate) fn is_publish(self) -> bool
        ensures { result ≡ is_publish self }
    {
        matches!(
            self,
            ClientState::PublishRequested | ClientState::Publishing
        )
    }

    pub(crate) fn is_publishing(self) -> bool
        ensures { result ≡ is_publishing self }
    {
        self == ClientState::Publishing
    }

    pub(crate) fn is_play_requested(self) -> bool
        ensures { result ≡ is_play_requested self }
    {
        self == ClientState::PlayRequested
    }

    pub(crate) fn is_publish_requested(self) -> bool
        ensures { result ≡ is_publish_requested self }
    {
        self == ClientState::PublishRequested
    }
}
