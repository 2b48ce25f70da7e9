//! The kinds of messages, and their numbers.

ghost use Rattle.std.specs.Prelude.{◌≡◌};
ghost use Rattle.desk_codec.specs.Spelling.{kind_number};
ghost use Rattle.desk_codec.specs.Reading.{kind_of_number, is_message_kind};

/// The number of `Prepare`.
pub const PREPARE: u8 = 1;
/// The number of `PrepareOk`.
pub const PREPARE_OK: u8 = 2;
/// The number of `Commit`.
pub const COMMIT: u8 = 3;
/// The number of `StartViewChange`.
pub const START_VIEW_CHANGE: u8 = 4;
/// The number of `DoViewChange`.
pub const DO_VIEW_CHANGE: u8 = 5;
/// The number of `StartView`.
pub const START_VIEW: u8 = 6;
/// The number of `GetState`.
pub const GET_STATE: u8 = 7;
/// The number of `NewState`.
pub const NEW_STATE: u8 = 8;

/// The kind of a message. Its number stands for it in a packet.
#[derive(Clone, Copy)]
pub(crate) enum MessageKind {
    Prepare,
    PrepareOk,
    Commit,
    StartViewChange,
    DoViewChange,
    StartView,
    GetState,
    NewState,
}

impl MessageKind {
    pub(crate) fn number(self) -> u8
        ensures { result ≡ kind_number self }
    {
        match self {
            MessageKind::Prepare => PREPARE,
            MessageKind::PrepareOk => PREPARE_OK,
            MessageKind::Commit => COMMIT,
            MessageKind::StartViewChange => START_VIEW_CHANGE,
            MessageKind::DoViewChange => DO_VIEW_CHANGE,
            MessageKind::StartView => START_VIEW,
            MessageKind::GetState => GET_STATE,
            MessageKind::NewState => NEW_STATE,
        }
    }

    /// The kind of a number, or `None` where no kind has it.
    #[tactic(auto, unfolding(crate::specs::Reading::kind_of_number))]
    pub(crate) fn of_number(number: u8) -> Option<MessageKind>
        ensures { result ≡ kind_of_number number }
    {
        match number {
            PREPARE => Some(MessageKind::Prepare),
            PREPARE_OK => Some(MessageKind::PrepareOk),
            COMMIT => Some(MessageKind::Commit),
            START_VIEW_CHANGE => Some(MessageKind::StartViewChange),
            DO_VIEW_CHANGE => Some(MessageKind::DoViewChange),
            START_VIEW => Some(MessageKind::StartView),
            GET_STATE => Some(MessageKind::GetState),
            NEW_STATE => Some(MessageKind::NewState),
            _ => None,
        }
    }
}

/// Whether a kind has the number.
pub fn is_message_kind(number: u8) -> bool
    ensures { result ≡ is_message_kind number }
{
    MessageKind::of_number(number).is_some()
}
