// The words that the definitions and the code share.
#![tactic(auto)]

ghost use Rattle.std.specs.Prelude.{◌≡◌};
ghost use Rattle.rules.specs.Words.{number_of, identity_of, channel_of, Acts, Typed};
ghost use Rattle.rules.specs.Checks.{member};
ghost use Rattle.rules.specs.Table.{known};
ghost use Rattle.rules.specs.Reading.{to_modem, addressed};
ghost use Rattle.rules.specs.Bench.{bearer_proper};

// Object 01 of a command: its number, its type and its qualifier. Every response echoes them.
#[derive(Clone, Copy, PartialEq, Eq)]
pub struct Details {
    pub number: u8,
    pub kind: u8,
    pub qualifier: u8,
}

impl Details {
    // What a response echoes where a command has no details.
    pub const ZEROS: Details = Details {
        number: 0,
        kind: 0,
        qualifier: 0,
    };
}

// The results that a response tells, by the names of TS 102 223.
#[derive(Drop)]
pub struct Results {}

impl Results {
    pub const PERFORMED: u8 = 0x00;

    pub const PARTLY_UNDERSTOOD: u8 = 0x01;

    pub const MISSING_INFORMATION: u8 = 0x02;

    pub const MODIFIED: u8 = 0x07;

    pub const TIMER_CONTRADICTION: u8 = 0x24;

    pub const BEYOND_CAPABILITIES: u8 = 0x30;

    pub const TYPE_NOT_UNDERSTOOD: u8 = 0x31;

    pub const DATA_NOT_UNDERSTOOD: u8 = 0x32;

    pub const VALUES_MISSING: u8 = 0x36;

    pub const CHANNEL_PROBLEM: u8 = 0x3A;
}

// The causes of a problem, result 3A.
#[derive(Drop)]
pub struct Causes {}

impl Causes {
    pub const NO_CHANNEL: u8 = 0x01;

    pub const CHANNEL_CLOSED: u8 = 0x02;

    pub const CHANNEL_INVALID: u8 = 0x03;

    pub const SIZE_UNAVAILABLE: u8 = 0x04;

    pub const LEVEL_UNAVAILABLE: u8 = 0x06;
}

// The sizes that the paper sets, in bytes: the least buffer of a response, of an event and of a timer's envelope, and the most of a command, of data handed out and of a value that the bench writes.
#[derive(Drop)]
pub struct Limits {}

impl Limits {
    pub const RESPONSE: usize = 255;

    pub const EVENT: usize = 16;

    pub const ENVELOPE: usize = 14;

    pub const COMMAND: usize = 256;

    pub const DATA: usize = 237;

    pub const VALUE: usize = 241;
}

// The refusals R1 to R14 and R16 to R18, by their numbers.
#[derive(Clone, Copy, PartialEq, Eq)]
pub enum Refusal {
    ShortBuffer = 1,
    CommandSize = 2,
    NoChannel = 3,
    Unopened = 4,
    Unlinked = 5,
    Overfull = 6,
    UnfitRecord = 7,
    NoResponse = 8,
    Unreadable = 9,
    NoneWaits = 10,
    NoPlace = 11,
    Undersized = 12,
    Malformed = 13,
    ShortText = 14,
    Unmendable = 16,
    NoRecord = 17,
    WrongCount = 18,
}

impl Refusal {
    // The number that the paper gives the refusal.
    pub fn number(self) -> u8
        ensures { result ≡ number_of self }
    {
        self as u8
    }
}

// The types of commands that are served, by their bytes.
#[derive(Clone, Copy, PartialEq, Eq)]
pub enum CommandType {
    MoreTime = 0x02,
    SetUpEventList = 0x05,
    TimerManagement = 0x27,
    OpenChannel = 0x40,
    CloseChannel = 0x41,
    ReceiveData = 0x42,
    SendData = 0x43,
    GetChannelStatus = 0x44,
}

// A byte that is no type of the table.
#[derive(Clone, Copy, PartialEq, Eq)]
pub struct UnknownType;

impl TryFrom<u8> for CommandType {
    type Error = UnknownType;

    ghost try_from_gives = { Typed };

    fn try_from(kind: u8) -> Result<Self, UnknownType> {
        match kind {
            0x02 => Ok(CommandType::MoreTime),
            0x05 => Ok(CommandType::SetUpEventList),
            0x27 => Ok(CommandType::TimerManagement),
            0x40 => Ok(CommandType::OpenChannel),
            0x41 => Ok(CommandType::CloseChannel),
            0x42 => Ok(CommandType::ReceiveData),
            0x43 => Ok(CommandType::SendData),
            0x44 => Ok(CommandType::GetChannelStatus),
            _ => Err(UnknownType),
        }
    }
}

// What TIMER MANAGEMENT does with a timer.
#[derive(Clone, Copy, PartialEq, Eq)]
pub enum Action {
    Start,
    Stop,
    Ask,
    Nothing,
}

impl From<u8> for Action {
    ghost from_gives = { Acts };

    // The action of a qualifier is its two low bits.
    fn from(qualifier: u8) -> Self {
        match qualifier % 4 {
            0 => Action::Start,
            1 => Action::Stop,
            2 => Action::Ask,
            _ => Action::Nothing,
        }
    }
}

// The link of an open channel.
#[derive(Clone, Copy, PartialEq, Eq)]
pub enum Link {
    NotYet,
    Established,
    Dropped,
}

// What a channel carries: a stream of bytes, or datagrams that stay whole.
#[derive(Clone, Copy, PartialEq, Eq)]
pub enum Carries {
    Stream,
    Datagrams,
}

// The two ways of a channel: bytes from the radio for the card, and bytes from the card for the radio.
#[derive(Clone, Copy)]
pub enum Way {
    Receive,
    Send,
}

// The event list: whether 09, data available, and 0A, channel status, are listed.
#[repr(C)]
#[derive(Clone, Copy)]
pub struct Events {
    pub available: bool,
    pub status: bool,
}

// A time of a timer: hours, minutes and seconds.
#[derive(Clone, Copy, PartialEq, Eq)]
pub struct Time {
    pub hours: u16,
    pub minutes: u16,
    pub seconds: u16,
}

// How a walk over objects ends: at the end, or at the first fault.
#[derive(Clone, Copy)]
pub enum Ending {
    End,
    BadTag,
    BadLength,
    CutValue,
}

// What bytes from the front of a command are: so many are lacking at least; too long a command; or what they are can be told, a whole frame or what can never be one.
#[derive(Clone, Copy)]
pub enum Stage {
    Lacks(usize),
    Overlong,
    Decided,
}

// A channel, 1 to 7, as the radio and the statuses count it.
#[derive(Clone, Copy)]
pub struct ChannelNumber(pub u8);

// A device, as object 02 names it: 21 to 27 are the channels.
#[derive(Clone, Copy)]
pub struct DeviceIdentity(pub u8);

impl From<ChannelNumber> for DeviceIdentity {
    ghost from_gives = { λ n d. d ≡ identity_of n };

    // The identity by which the card names the channel: 20 plus its number.
    fn from(n: ChannelNumber) -> Self {
        DeviceIdentity(n.0.wrapping_add(0x20))
    }
}

impl From<DeviceIdentity> for ChannelNumber {
    ghost from_gives = { λ d n. n ≡ channel_of d };

    // The channel that the identity names: its number is the identity less 20.
    fn from(d: DeviceIdentity) -> Self {
        ChannelNumber(d.0.wrapping_sub(0x20))
    }
}

// Whether a value stands in a list.
pub fn lists(values: &[u8], value: u8) -> bool
    ensures { result ≡ member value values.now }
{
    values.contains(&value)
}

// Whether a type is one of the table.
pub fn is_known(kind: u8) -> bool
    ensures { result ≡ known kind }
{
    CommandType::try_from(kind).is_ok()
}

// Whether a command of a type goes to the modem itself; the others go to a channel.
fn to_modem(kind: u8) -> bool
    ensures { result ≡ to_modem kind }
{
    matches!(kind, 0x02 | 0x05 | 0x27 | 0x40 | 0x44)
}

// Step 8: whether a command of a type comes from the card, 81, and goes to the modem, 82, or to a channel, 21 to 27.
pub fn is_addressed(kind: u8, from: DeviceIdentity, to: DeviceIdentity) -> bool
    ensures { result ≡ addressed kind from to }
{
    if from.0 != 0x81 {
        return false;
    }
    if to_modem(kind) {
        return to.0 == 0x82;
    }
    if to.0 < 0x21 {
        return false;
    }
    to.0 <= 0x27
}

// Whether a bearer is such as the bench writes and reads: of type 02 with 6 bytes, or of type 03 with none.
#[tactic(auto, using(crate::proofs::Words::bearer_sized))]
pub fn fits_bearer(bearer: u8, parameters: &[u8]) -> bool
    ensures { result ≡ bearer_proper (record { kind = bearer; parameters = parameters.now }) }
{
    matches!((bearer, parameters.len()), (0x02, 6) | (0x03, 0))
}
