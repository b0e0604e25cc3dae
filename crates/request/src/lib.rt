// The checks of the calls in paper 01's order. Each stage takes what its list of checks in the crate model takes, lengths and fields and no bytes,
// and tries that list in its order and words: the first check that fails refuses the call.
#![tactic(auto)]

ghost use Rattle.std.specs.Prelude.{◌≡◌, true, false, [], ◌∷◌, cond, ◌&&◌, ◌++◌, ◌+◌, ◌≤◌, eqb, leb, is_some, unwrap_or};
ghost use Rattle.model.specs.Bytes.{part};
ghost use Rattle.model.specs.Answer.{first_fail, answer_in};
ghost use Rattle.model.specs.Session.{no_session};
ghost use Rattle.model.specs.Setup.{config_ok, config_of, set_up_order, attach_checks};
ghost use Rattle.model.specs.Lens.{or_in};
ghost use Rattle.model.specs.Control.{asked, plain_create, service_of, creating, opcode_ok, create_part, place_checks, head_checks, session_checks, end_checks};
ghost use Rattle.model.specs.Data.{lengths, part_of, operation_ok, data_part, start_of, fits, suits, operation_checks, job_checks, key_checks, finish_checks, status};

use model::{
    AEAD, BADMSG, CIPHER, CREATE, Config, ERR, Field, HASH, Lengths, MAC, OK, Refusal, STORE_SIZE,
    Session, Span, check,
};

// The opcode of an AEAD decryption, whose verdict alone can be a wrong tag.
const AEAD_DECRYPT: u32 = 769;

// ---- fields, as document 001 lays them out

// The configuration's thirteen fields.
#[tactic(auto, unfolding(model::specs::Setup::config_of))]
pub fn config_of(b: &[u8]) -> Config
    ensures { result ≡ config_of b.now }
{
    Config {
        status: wire::le32(b, 0),
        queues: wire::le32(b, 4),
        services: wire::le32(b, 8),
        ciphers: wire::le32(b, 12),
        ciphers2: wire::le32(b, 16),
        hashes: wire::le32(b, 20),
        macs: wire::le32(b, 24),
        macs2: wire::le32(b, 28),
        aeads: wire::le32(b, 32),
        cipherkey: wire::le32(b, 36),
        authkey: wire::le32(b, 40),
        reserved: wire::le32(b, 44),
        size: wire::le64(b, 48),
    }
}

// The session that a create's fixed part asks for, by its service.
#[tactic(auto, using(crate::specs::Fields::asked_cipher, crate::specs::Fields::asked_hash, crate::specs::Fields::asked_mac, crate::specs::Fields::asked_aead))]
pub fn asked(r: &[u8]) -> Session
    ensures { result ≡ asked r.now }
{
    let service = wire::le32(r, 0) / 256;
    let second = wire::le32(r, 20);
    let third = wire::le32(r, 24);
    let none = Session {
        service,
        algo: wire::le32(r, 16),
        direction: 0,
        keylen: 0,
        result: 0,
        aad: 0,
    };
    match service {
        CIPHER => Session {
            direction: third,
            keylen: second,
            ..none
        },
        HASH => Session {
            result: second,
            ..none
        },
        MAC => Session {
            keylen: third,
            result: second,
            ..none
        },
        _ => Session {
            service: AEAD,
            direction: wire::le32(r, 32),
            keylen: second,
            result: third,
            aad: wire::le32(r, 28),
            ..none
        },
    }
}

// A cipher's op_type is 1. It stands 64 bytes from the start of a create and of a data request.
pub fn is_plain(r: &[u8]) -> bool
    ensures { result ≡ plain_create r.now }
{
    match wire::le32(r, 0) / 256 {
        CIPHER => wire::le32(r, 64) == 1,
        _ => true,
    }
}

// The lengths of a data request's fixed part, by its service.
#[tactic(auto, using(crate::specs::Fields::lengths_cipher, crate::specs::Fields::lengths_aead, crate::specs::Fields::lengths_digest))]
pub fn lengths(r: &[u8]) -> Lengths
    ensures { result ≡ lengths r.now }
{
    let service = wire::le32(r, 0) / 256;
    let first = wire::le32(r, 24);
    let second = wire::le32(r, 28);
    let third = wire::le32(r, 32);
    match service {
        CIPHER => Lengths {
            iv: first,
            source: second,
            aad: 0,
            written: third,
            result: 0,
        },
        AEAD => Lengths {
            iv: first,
            source: third,
            aad: second,
            written: wire::le32(r, 36),
            result: wire::le32(r, 40),
        },
        _ => Lengths {
            iv: 0,
            source: first,
            aad: 0,
            written: second,
            result: second,
        },
    }
}

// Where a variable part of a data request stands, whether or not there are as many bytes.
#[tactic(auto, using(crate::specs::Parts::place_iv, crate::specs::Parts::place_source, crate::specs::Parts::place_aad))]
pub fn place(r: &[u8], field: Field) -> Span
    ensures { part r.now result.start result.size ≡ part_of field r.now }
{
    let n = lengths(r);
    let iv = start_of(wire::le32(r, 0));
    let source = iv + n.iv as usize;
    let aad = source + n.source as usize;
    match field {
        Field::Iv => Span {
            start: iv,
            size: n.iv as usize,
        },
        Field::Source => Span {
            start: source,
            size: n.source as usize,
        },
        Field::Aad => Span {
            start: aad,
            size: n.aad as usize,
        },
    }
}

// A variable part of a data request.
pub fn part(r: &[u8], field: Field) -> &[u8]
    ensures { result.now ≡ part_of field r.now }
{
    let p = place(r, field);
    wire::part(r, p.start, p.size)
}

// ---- checks

// A configuration k of len bytes that set-up takes.
fn takes(len: usize, k: Config) -> bool
    ensures { result ≡ (eqb len 56 && config_ok k) }
{
    len == 56 && rules::config_ok(k)
}

// Set-up: the key store's length, the configuration, the shares.
#[tactic(auto, unfolding(model::specs::Answer::first_fail))]
pub fn set_up_answer(
    store: usize,
    len: usize,
    k: Config,
    reserves: [u8; 8],
    caps: [u8; 8],
) -> Result<(), Refusal>
    ensures { answer_in result ≡ first_fail (set_up_order store len k reserves caps) }
{
    check(store == STORE_SIZE, Refusal::BadStore)?;
    check(takes(len, k), Refusal::BadConfig)?;
    check(rules::shares_ok(reserves, caps), Refusal::BadShares)
}

// Attach: the key store's length, the guest, the feature word.
#[tactic(auto, unfolding(model::specs::Answer::first_fail))]
pub fn attach_answer(store: usize, guest: u8, word: u32) -> Result<(), Refusal>
    ensures { answer_in result ≡ first_fail (attach_checks store guest word) }
{
    check(store == STORE_SIZE, Refusal::BadStore)?;
    check(guest < 8, Refusal::BadGuest)?;
    check(word == 1, Refusal::BadFeature)
}

// Step 1 of a control request.
#[tactic(auto, unfolding(model::specs::Answer::first_fail))]
fn place_answer(store: usize, here: bool, room: usize) -> Result<(), Refusal>
    ensures { answer_in result ≡ first_fail (place_checks store here room) }
{
    check(store == STORE_SIZE, Refusal::BadStore)?;
    check(here, Refusal::BadGuest)?;
    check((room == 16) | (room == 1), Refusal::NoOutcome)
}

// A create or a destroy of one of the four services.
fn is_control(op: u32) -> bool
    ensures { result ≡ or_in false op (2 ∷ 3 ∷ 258 ∷ 259 ∷ 514 ∷ 515 ∷ 770 ∷ 771 ∷ []) }
{
    matches!(op, 2 | 3 | 258 | 259 | 514 | 515 | 770 | 771)
}

// A known opcode of a service that is offered.
#[tactic(auto, unfolding(model::specs::Control::opcode_ok))]
fn opcode_ok(k: Config, op: u32) -> bool
    ensures { result ≡ opcode_ok k op }
{
    is_control(op) && rules::has_bit(k.services, op / 256)
}

// The writable bytes are those of a create or of a destroy.
fn room_ok(op: u32, room: usize) -> bool
    ensures { result ≡ eqb room (cond (creating op) 16 1) }
{
    if op % 256 == CREATE {
        room == 16
    } else {
        room == 1
    }
}

// A create's fixed part.
pub fn create_part(service: u32) -> usize
    ensures value { result ≡ create_part service }
    ensures bounded { result ≤ 56 }
{
    match service {
        CIPHER => 56,
        HASH => 8,
        MAC => 16,
        _ => 24,
    }
}

// There are as many readable bytes as header and fixed part of a create or a destroy.
fn holds_part(op: u32, len: usize) -> bool
    ensures { result ≡ leb (16 + cond (creating op) (create_part (service_of op)) 8) len }
{
    if op % 256 == CREATE {
        16 + create_part(op / 256) <= len
    } else {
        24 <= len
    }
}

// Steps 2 and 3.
#[tactic(auto, unfolding(model::specs::Answer::first_fail))]
fn head_answer(k: Config, op: u32, len: usize, room: usize) -> Result<(), Refusal>
    ensures { answer_in result ≡ first_fail (head_checks k op len room) }
{
    check(16 <= len, Refusal::Error)?;
    check(opcode_ok(k, op), Refusal::NotSupported)?;
    check(room_ok(op, room), Refusal::Error)?;
    check(holds_part(op, len), Refusal::Error)
}

// Steps 1 to 3.
#[tactic(auto, unfolding(model::specs::Answer::first_fail))]
pub fn control_answer(
    k: Config,
    store: usize,
    here: bool,
    op: u32,
    len: usize,
    room: usize,
) -> Result<(), Refusal>
    ensures { answer_in result ≡ first_fail (place_checks store here room ++ head_checks k op len room) }
{
    place_answer(store, here, room)?;
    head_answer(k, op, len, room)
}

// The readable bytes are header, fixed part and key.
fn is_whole(x: Session, len: usize) -> bool
    ensures { result ≡ eqb len (16 + create_part x.service + x.keylen) }
{
    len == 16 + create_part(x.service) + x.keylen as usize
}

// Step 4 up to the session number: of the session x that a create asks for.
#[tactic(auto, unfolding(model::specs::Answer::first_fail))]
pub fn session_answer(
    k: Config,
    plain: bool,
    head: u32,
    x: Session,
    len: usize,
) -> Result<(), Refusal>
    ensures { answer_in result ≡ first_fail (session_checks k plain head x len) }
{
    check(plain, Refusal::NotSupported)?;
    check(
        rules::is_offered(k, x.service, x.algo),
        Refusal::NotSupported,
    )?;
    check(head == x.algo, Refusal::Error)?;
    check(rules::direction_ok(x), Refusal::Error)?;
    check(rules::lengths_ok(k, x), Refusal::Error)?;
    check(is_whole(x, len), Refusal::Error)
}

// Step 5, of a destroy: x is the session that it names, if that is live.
#[tactic(auto, unfolding(model::specs::Answer::first_fail))]
pub fn destroy_answer(x: Option<Session>, op: u32, len: usize) -> Result<(), Refusal>
    ensures { answer_in result ≡ first_fail (end_checks (is_some x) (unwrap_or x no_session) op len) }
{
    check(len == 24, Refusal::Error)?;
    match x {
        Some(x) => check(x.service == op / 256, Refusal::Error),
        None => Err(Refusal::Error),
    }
}

// An operation of one of the four services.
fn is_operation(op: u32) -> bool
    ensures { result ≡ or_in false op (0 ∷ 1 ∷ 256 ∷ 512 ∷ 768 ∷ 769 ∷ []) }
{
    matches!(op, 0 | 1 | 256 | 512 | 768 | 769)
}

// A known operation of a service that is offered.
#[tactic(auto, unfolding(model::specs::Data::operation_ok))]
fn operation_ok(k: Config, op: u32) -> bool
    ensures { result ≡ operation_ok k op }
{
    is_operation(op) && rules::has_bit(k.services, op / 256)
}

// Data requests: the checks that need no session.
#[tactic(auto, unfolding(model::specs::Answer::first_fail))]
pub fn operation_answer(
    k: Config,
    here: bool,
    op: u32,
    flag: u32,
    len: usize,
    room: usize,
) -> Result<(), Refusal>
    ensures { answer_in result ≡ first_fail (operation_checks k here op flag len room) }
{
    check(here, Refusal::BadGuest)?;
    check(1 <= room, Refusal::NoOutcome)?;
    check(24 <= len, Refusal::Error)?;
    check(operation_ok(k, op), Refusal::NotSupported)?;
    check(flag != 0, Refusal::NotSupported)?;
    check(flag == 1, Refusal::Error)
}

// The live session is of the operation's service and, for cipher and AEAD, of its direction.
fn suits_job(op: u32, x: Session) -> bool
    ensures { result ≡ suits op true x }
{
    let service = op / 256;
    x.service == service
        && match service {
            CIPHER | AEAD => x.direction == op % 256 + 1,
            _ => true,
        }
}

// A data request's fixed part.
fn data_part(service: u32) -> usize
    ensures value { result ≡ data_part service }
    ensures bounded { result ≤ 48 }
{
    match service {
        CIPHER => 48,
        HASH | MAC => 8,
        _ => 24,
    }
}

// Where the variable parts start.
pub fn start_of(op: u32) -> usize
    ensures value { result ≡ start_of op }
    ensures bounded { result ≤ 72 }
{
    24 + data_part(op / 256)
}

// There are as many readable bytes as header and fixed part.
fn reaches(op: u32, len: usize) -> bool
    ensures { result ≡ leb (start_of op) len }
{
    start_of(op) <= len
}

// All variable lengths together; a sum of four, so 64 bits.
fn sum_ok(size: u64, n: Lengths) -> bool
    ensures { result ≡ leb (n.iv + n.source + n.aad + n.written) size }
{
    u64::from(n.iv) + u64::from(n.source) + u64::from(n.aad) + u64::from(n.written) <= size
}

// Readable and writable bytes are just those that the lengths name.
fn is_exact(op: u32, n: Lengths, len: usize, room: usize) -> bool
    ensures { result ≡ (eqb len (start_of op + n.iv + n.source + n.aad) && eqb room (n.written + 1)) }
{
    let end = start_of(op) + n.iv as usize + n.source as usize + n.aad as usize;
    len == end && room == n.written as usize + 1
}

// The lengths against the rules and the session.
#[tactic(auto, unfolding(model::specs::Data::fits))]
fn fits_session(x: Session, n: Lengths) -> bool
    ensures { result ≡ fits x n }
{
    rules::iv_ok(x.service, x.algo, n.iv)
        && rules::source_ok(x.service, x.algo, n.source)
        && rules::written_ok(x.service, x.direction, n)
        && rules::payload_ok(x.service, x.algo, x.direction, n)
        && match x.service {
            CIPHER => true,
            AEAD => n.aad == x.aad && n.result == x.result,
            _ => n.result == x.result,
        }
}

// Data requests: the checks on the session x that is named, if that is live, and on the lengths.
#[tactic(auto, unfolding(model::specs::Answer::first_fail))]
pub fn job_answer(
    k: Config,
    x: Option<Session>,
    op: u32,
    plain: bool,
    n: Lengths,
    len: usize,
    room: usize,
) -> Result<(), Refusal>
    ensures { answer_in result ≡ first_fail (job_checks k (is_some x) (unwrap_or x no_session) op plain n len room) }
{
    let Some(x) = x else {
        return Err(Refusal::InvalidSession);
    };
    check(suits_job(op, x), Refusal::InvalidSession)?;
    check(reaches(op, len), Refusal::Error)?;
    check(plain, Refusal::NotSupported)?;
    check(sum_ok(k.size, n), Refusal::Error)?;
    check(is_exact(op, n, len, room), Refusal::Error)?;
    check(fits_session(x, n), Refusal::Error)
}

// Key fetch.
#[tactic(auto, unfolding(model::specs::Answer::first_fail))]
pub fn key_answer(store: usize, here: bool, alive: bool) -> Result<(), Refusal>
    ensures { answer_in result ≡ first_fail (key_checks store here alive) }
{
    check(store == STORE_SIZE, Refusal::BadStore)?;
    check(here, Refusal::BadGuest)?;
    check(alive, Refusal::InvalidSession)
}

// Finish.
#[tactic(auto, unfolding(model::specs::Answer::first_fail))]
pub fn finish_answer(here: bool, room: usize) -> Result<(), Refusal>
    ensures { answer_in result ≡ first_fail (finish_checks here room) }
{
    check(here, Refusal::BadGuest)?;
    check(1 <= room, Refusal::NoOutcome)
}

// The byte that finish writes: the verdict, where it can stand.
#[tactic(auto, unfolding(model::specs::Data::status))]
pub fn status_of(opcode: u32, verdict: u8) -> u8
    ensures { result ≡ status opcode verdict }
{
    match verdict {
        OK | ERR => verdict,
        BADMSG if opcode == AEAD_DECRYPT => verdict,
        _ => ERR,
    }
}
