//! The verbs of commands.

ghost use Rattle.std.specs.Prelude.{◌≡◌};
ghost use Rattle.desk_types.specs.Numbers.{verb_number, verb_of_number};

/// The verb of a command. Its number stands for it in a spelling.
#[derive(Clone, Copy, Debug, PartialEq, Eq)]
pub enum Verb {
    Open,
    AddCall,
    Link,
    Unlink,
    Merge,
    Split,
    Clear,
    Reopen,
    Note,
    SignOn,
    SignOff,
    Assign,
    SetStatus,
    Release,
    StandBy,
    StandDown,
    Replace,
}

impl Verb {
    /// The number of the verb: 1 to 17.
    pub fn number(self) -> u8
        ensures { result ≡ verb_number self }
    {
        match self {
            Verb::Open => 1,
            Verb::AddCall => 2,
            Verb::Link => 3,
            Verb::Unlink => 4,
            Verb::Merge => 5,
            Verb::Split => 6,
            Verb::Clear => 7,
            Verb::Reopen => 8,
            Verb::Note => 9,
            Verb::SignOn => 10,
            Verb::SignOff => 11,
            Verb::Assign => 12,
            Verb::SetStatus => 13,
            Verb::Release => 14,
            Verb::StandBy => 15,
            Verb::StandDown => 16,
            Verb::Replace => 17,
        }
    }

    /// The verb of a number, or `None` where no verb has it.
    #[tactic(auto, unfolding(crate::specs::Numbers::verb_of_number))]
    pub fn of_number(number: u8) -> Option<Verb>
        ensures { result ≡ verb_of_number number }
    {
        match number {
            1 => Some(Verb::Open),
            2 => Some(Verb::AddCall),
            3 => Some(Verb::Link),
            4 => Some(Verb::Unlink),
            5 => Some(Verb::Merge),
            6 => Some(Verb::Split),
            7 => Some(Verb::Clear),
            8 => Some(Verb::Reopen),
            9 => Some(Verb::Note),
            10 => Some(Verb::SignOn),
            11 => Some(Verb::SignOff),
            12 => Some(Verb::Assign),
            13 => Some(Verb::SetStatus),
            14 => Some(Verb::Release),
            15 => Some(Verb::StandBy),
            16 => Some(Verb::StandDown),
            17 => Some(Verb::Replace),
            _ => None,
        }
    }
}
