// The numbers of document 01 that every crate above uses: the refusals, the result codes of a connect response (Core Vol 3 Part A 4.23), and the least
// MTU and MPS. What each stands for is in specs/.
#![tactic(auto)]

ghost use Rattle.std.specs.Prelude.{◌≡◌};
ghost use Rattle.codes.specs.Codes.{result_number, result_of, refusal_number, result_in};

// The least MTU, and the least MPS, that a side of a channel may have (4.22, 4.23).
pub const SIZE_LEAST: u16 = 23;

// The result of a connect response.
#[derive(Clone, Copy, PartialEq, Eq)]
pub enum LeCreditConnResultCode {
    Success,
    SpsmNotSupported,
    NoResources,
    InsufficientAuthentication,
    InsufficientAuthorization,
    EncryptionKeyTooShort,
    InsufficientEncryption,
    InvalidSourceId,
    ScidAlreadyAllocated,
    UnacceptableParameters,
}

// What a call refuses with, in the order of document 01's table, and then of document 02.
#[derive(Clone, Copy, PartialEq, Eq)]
pub enum Refusal {
    BadTable,
    BadRoom,
    NoRoom,
    BadHandle,
    BadSpsm,
    BadSlot,
    InvalidChannelId,
    NotFound,
    InvalidValue,
    OutOfMemory,
    ChannelClosed,
    InsufficientSpace,
    NoChannelAvailable,
    Busy,
    Decode,
    NotSupported,
    ConnectError(LeCreditConnResultCode),
    Disconnected,
    ShortFrame,
    BadMps,
    QueueFull,
    Held,
    TooLong,
    JobOpen,
    WrongLength,
}

// The number on the air. (This and the other numbers are functions and not `From`s: contracts and pages call them by name.)
pub fn result_number(c: LeCreditConnResultCode) -> u16
    ensures { result ≡ result_number c }
{
    match c {
        LeCreditConnResultCode::Success => 0,
        LeCreditConnResultCode::SpsmNotSupported => 2,
        LeCreditConnResultCode::NoResources => 4,
        LeCreditConnResultCode::InsufficientAuthentication => 5,
        LeCreditConnResultCode::InsufficientAuthorization => 6,
        LeCreditConnResultCode::EncryptionKeyTooShort => 7,
        LeCreditConnResultCode::InsufficientEncryption => 8,
        LeCreditConnResultCode::InvalidSourceId => 9,
        LeCreditConnResultCode::ScidAlreadyAllocated => 10,
        LeCreditConnResultCode::UnacceptableParameters => 11,
    }
}

// The result code of a number on the air: 0, 2 and 4 to 11 have one.
#[tactic(auto, unfolding(crate::specs::Codes::result_of))]
pub fn result_of(n: u16) -> Option<LeCreditConnResultCode>
    ensures { result ≡ result_of n }
{
    match n {
        0 => Some(LeCreditConnResultCode::Success),
        2 => Some(LeCreditConnResultCode::SpsmNotSupported),
        4 => Some(LeCreditConnResultCode::NoResources),
        5 => Some(LeCreditConnResultCode::InsufficientAuthentication),
        6 => Some(LeCreditConnResultCode::InsufficientAuthorization),
        7 => Some(LeCreditConnResultCode::EncryptionKeyTooShort),
        8 => Some(LeCreditConnResultCode::InsufficientEncryption),
        9 => Some(LeCreditConnResultCode::InvalidSourceId),
        10 => Some(LeCreditConnResultCode::ScidAlreadyAllocated),
        11 => Some(LeCreditConnResultCode::UnacceptableParameters),
        _ => None,
    }
}

// The refusal's number on paper.
pub fn refusal_number(r: Refusal) -> u8
    ensures { result ≡ refusal_number r }
{
    match r {
        Refusal::BadTable => 1,
        Refusal::BadRoom => 2,
        Refusal::NoRoom => 3,
        Refusal::BadHandle => 4,
        Refusal::BadSpsm => 5,
        Refusal::BadSlot => 6,
        Refusal::InvalidChannelId => 7,
        Refusal::NotFound => 8,
        Refusal::InvalidValue => 9,
        Refusal::OutOfMemory => 10,
        Refusal::ChannelClosed => 11,
        Refusal::InsufficientSpace => 12,
        Refusal::NoChannelAvailable => 13,
        Refusal::Busy => 14,
        Refusal::Decode => 15,
        Refusal::NotSupported => 16,
        Refusal::ConnectError(_) => 17,
        Refusal::Disconnected => 18,
        Refusal::ShortFrame => 19,
        Refusal::BadMps => 20,
        Refusal::QueueFull => 21,
        Refusal::Held => 22,
        Refusal::TooLong => 23,
        Refusal::JobOpen => 24,
        Refusal::WrongLength => 25,
    }
}

// The result code's number that refusal 17 carries; 0 of every other.
#[tactic(auto, unfolding(crate::specs::Codes::result_in))]
pub fn result_in(r: Refusal) -> u16
    ensures { result ≡ result_in r }
{
    match r {
        Refusal::ConnectError(code) => result_number(code),
        _ => 0,
    }
}
