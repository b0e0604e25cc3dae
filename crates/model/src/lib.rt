// The session table and the paper's numbers, and the outcome of a check and of a call. What is right of them stands in specs/.
#![tactic(auto)]

ghost use Rattle.std.specs.Prelude.{◌≡◌};
ghost use Rattle.model.specs.Answer.{checked, answer_in};
ghost use Rattle.model.specs.Session.{session_of};

// Of paper 01's answers those that are written or read as numbers; those from BAD_GUEST on have no outcome bytes.
pub const OK: u8 = 0;

pub const ERR: u8 = 1;

pub const BADMSG: u8 = 2;

pub const BAD_GUEST: u8 = 16;

// Why a call is refused, each with its answer.
#[derive(Clone, Copy, Debug, PartialEq, Eq)]
pub enum Refusal {
    Error = 1,
    NotSupported = 3,
    InvalidSession = 4,
    NoSpace = 5,
    BadGuest = 16,
    NoOutcome = 17,
    BadStore = 18,
    BadFeature = 19,
    BadShares = 20,
    BadConfig = 21,
}

// A check that holds lets the call go on; one that does not refuses it.
pub fn check(holds: bool, refusal: Refusal) -> Result<(), Refusal>
    ensures { result ≡ checked holds refusal }
{
    if holds { Ok(()) } else { Err(refusal) }
}

// The number that a call answers: 0 where it is granted.
pub fn answer<T: Copy>(outcome: Result<T, Refusal>) -> u8
    ensures { result ≡ answer_in outcome }
{
    match outcome {
        Ok(_) => OK,
        Err(refusal) => refusal as u8,
    }
}

// The services. They, directions and algorithms are numbers in the code too: the definitions judge any number, which a slot or a request may hold.
pub const CIPHER: u32 = 0;

pub const HASH: u32 = 1;

pub const MAC: u32 = 2;

pub const AEAD: u32 = 3;

// What a control request's opcode is beside service · 256 where it creates a session.
pub const CREATE: u32 = 2;

// The directions of a cipher or AEAD.
pub const ENCRYPT: u32 = 1;

pub const DECRYPT: u32 = 2;

// The bytes of the key store.
pub const STORE_SIZE: usize = 16384;

// Document 001's virtio_crypto_config, field by field.
#[repr(C)]
#[derive(Clone, Copy)]
pub struct Config {
    pub status: u32,
    pub queues: u32,
    pub services: u32,
    pub ciphers: u32,
    pub ciphers2: u32,
    pub hashes: u32,
    pub macs: u32,
    pub macs2: u32,
    pub aeads: u32,
    pub cipherkey: u32,
    pub authkey: u32,
    pub reserved: u32,
    pub size: u64,
}

// What a create fixes. `result` is a hash or MAC result, or an AEAD tag.
#[derive(Clone, Copy)]
pub struct Session {
    pub service: u32,
    pub algo: u32,
    pub direction: u32,
    pub keylen: u32,
    pub result: u32,
    pub aad: u32,
}

// The lengths of a data request; `written` is what is written before the status.
#[derive(Clone, Copy)]
pub struct Lengths {
    pub iv: u32,
    pub source: u32,
    pub aad: u32,
    pub written: u32,
    pub result: u32,
}

// The readable variable parts of a data request.
#[derive(Clone, Copy)]
pub enum Field {
    Iv,
    Source,
    Aad,
}

// Where a part or key lies in the bytes that were lent.
#[repr(C)]
#[derive(Clone, Copy)]
pub struct Span {
    pub start: usize,
    pub size: usize,
}

// Bit s of the two words says that slot s is held: slots 0 to 63 by `low`, 64 to 127 by `high`.
#[repr(C)]
#[derive(Clone, Copy)]
pub struct Occupied {
    pub low: u64,
    pub high: u64,
}

// A session. The fields of a slot whose bit is clear mean nothing.
#[repr(C)]
#[derive(Clone, Copy)]
pub struct Slot {
    pub number: u64,
    pub aad: u32,
    pub owner: u8,
    pub service: u8,
    pub algo: u8,
    pub direction: u8,
    pub keylen: u8,
    pub result: u8,
}

// The session in a slot, held or not.
impl From<Slot> for Session {
    ghost from_gives = { λ slot session. session ≡ session_of slot };

    fn from(slot: Slot) -> Session {
        Session {
            service: u32::from(slot.service),
            algo: u32::from(slot.algo),
            direction: u32::from(slot.direction),
            keylen: u32::from(slot.keylen),
            result: u32::from(slot.result),
            aad: slot.aad,
        }
    }
}

// `reserve` and `cap` are the guest's shares, `last` the last session number given since its last attach.
#[repr(C)]
#[derive(Clone, Copy)]
pub struct Guest {
    pub attached: bool,
    pub reserve: u8,
    pub cap: u8,
    pub last: u64,
}

#[repr(C)]
#[derive(Clone, Copy)]
pub struct Table {
    pub config: Config,
    pub occupied: Occupied,
    pub slots: [Slot; 128],
    pub guests: [Guest; 8],
}
