// The device side of a virtio crypto device for eight guests: the public calls, for any bytes, lengths and table. What each one answers and
// leaves is `reply` and `next` of its request, and `set_up`, in the crate model.
#![tactic(auto)]

ghost use Rattle.std.specs.Prelude.{◌≡◌, ◌<◌, suc, cond, length, is_some, unwrap_or, IfOk, []};
ghost use Rattle.model.specs.declared.Field.TheVariants.{Iv, Source, Aad};
ghost use Rattle.model.specs.Bytes.{le64};
ghost use Rattle.model.specs.Answer.{ok, first_fail, answer_in, control_bytes};
ghost use Rattle.model.specs.Session.{guest_at, no_session};
ghost use Rattle.model.specs.View.{find, live_at, is_live, session_in, present};
ghost use Rattle.model.specs.Act.{create, destroy, table_after, store_after};
ghost use Rattle.model.specs.Setup.{set_up_answer, set_up, config_of};
ghost use Rattle.model.specs.Control.{is_create, new_entry, control_act};
ghost use Rattle.model.specs.Device.{Attach, Control, Admit, Part, KeyAnswer, Key, Finish, if_granted, reply, next, world, bare};
ghost use Rattle.table.specs.Search.{session_found};
ghost use Rattle.device.specs.Grant.{IsNext};
ghost use Rattle.device.specs.Stages.{opening, form, granting, creation, destruction, changing, fetching, sessionless, suited, admission};

use model::{CREATE, Config, Field, OK, Refusal, Session, Table, check};
use table::Found;

// An answer, and the table afterwards.
#[repr(C)]
#[derive(Clone, Copy)]
pub struct Reply {
    pub answer: u8,
    pub table: Table,
}

// An answer, and what an accepted data request names; zeros on refusal.
#[repr(C)]
#[derive(Clone, Copy)]
pub struct Admission {
    pub answer: u8,
    pub guest: u8,
    pub number: u64,
    pub opcode: u32,
}

// What a create is granted: its slot and its session number.
#[derive(Clone, Copy)]
struct Grant {
    at: usize,
    number: u64,
}

// The configuration of no bytes.
#[tactic(auto, unfolding(model::specs::Setup::config_of, model::specs::Bytes::le32, model::specs::Bytes::le64, model::specs::Bytes::byte))]
fn no_config() -> Config
    ensures { result ≡ config_of [] }
{
    Config {
        status: 0,
        queues: 0,
        services: 0,
        ciphers: 0,
        ciphers2: 0,
        hashes: 0,
        macs: 0,
        macs2: 0,
        aeads: 0,
        cipherkey: 0,
        authkey: 0,
        reserved: 0,
        size: 0,
    }
}

// A table with all slots free and a key store of zeros; a refusal gives the empty table and leaves the store.
pub fn set_up(config: &[u8], reserves: [u8; 8], caps: [u8; 8], store: &mut [u8]) -> Reply
    ensures answer { result.answer ≡ set_up_answer config.now reserves caps store.old }
    ensures table { result.table ≡ (set_up config.now reserves caps store.old).table }
    ensures store { store.new ≡ (set_up config.now reserves caps store.old).store }
{
    let given = request::config_of(config);
    let outcome = request::set_up_answer(store.len(), config.len(), given, reserves, caps);
    // One reply for both ways, so that it is made once: of a refused set-up it shows and shares nothing.
    let mut shown = no_config();
    let mut least = [0; 8];
    let mut most = [0; 8];
    if outcome.is_ok() {
        keystore::clear_all(store);
        shown = given;
        least = reserves;
        most = caps;
    }
    Reply {
        answer: model::answer(outcome),
        table: table::fresh(shown, least, most),
    }
}

// An attach in place: frees the guest's slots, zeroes their key areas and restarts its numbers.
fn reset(t: &mut Table, guest: u8, word: u32, store: &mut [u8]) -> Result<(), Refusal>
    ensures answer { answer_in result ≡ (reply (world t.old store.old) guest (Attach word)).answer }
    ensures table { t.new ≡ (next (world t.old store.old) guest (Attach word)).table }
    ensures store { store.new ≡ (next (world t.old store.old) guest (Attach word)).store }
{
    request::attach_answer(store.len(), guest, word)?;
    keystore::clear_guest(store, t, guest);
    table::attached(t, guest);
    Ok(())
}

// Frees the guest's slots, zeroes their key areas and restarts its numbers.
pub fn attach(t: Table, guest: u8, word: u32, store: &mut [u8]) -> Reply
    ensures answer { result.answer ≡ (reply (world t store.old) guest (Attach word)).answer }
    ensures table { result.table ≡ (next (world t store.old) guest (Attach word)).table }
    ensures store { store.new ≡ (next (world t store.old) guest (Attach word)).store }
{
    let mut next = t;
    let outcome = reset(&mut next, guest, word, store);
    Reply {
        answer: model::answer(outcome),
        table: next,
    }
}

// The guest is at most 7 and attached.
fn is_here(t: &Table, guest: u8) -> bool
    ensures { result ≡ present guest (guest_at t.now guest) }
{
    table::is_present(guest, table::guest_at(t, guest))
}

// The session that was found.
fn session_of(found: Option<Found>) -> Option<Session>
    ensures alive { is_some result ≡ is_some found }
    ensures session { unwrap_or result no_session ≡ session_found found }
{
    found.map(|found| found.session)
}

// Steps 1 to 3 of a control request.
fn opening_answer(
    k: Config,
    here: bool,
    readable: &[u8],
    room: usize,
    store: usize,
) -> Result<(), Refusal>
    ensures { answer_in result ≡ first_fail (opening k here readable.now room store) }
{
    let op = wire::le32(readable, 0);
    request::control_answer(k, store, here, op, readable.len(), room)
}

// Step 4 up to the session number.
fn form_answer(k: Config, readable: &[u8]) -> Result<(), Refusal>
    ensures { answer_in result ≡ first_fail (form k readable.now) }
{
    let plain = request::is_plain(readable);
    let head = wire::le32(readable, 4);
    request::session_answer(k, plain, head, request::asked(readable), readable.len())
}

// The session number and the room for a create.
#[tactic(auto, using(crate::specs::Answers::slot_granted), unfolding(model::specs::Answer::first_fail, table::specs::Narrow::next_number))]
fn grant_answer(t: &Table, guest: u8) -> Result<Grant, Refusal>
    ensures answer { answer_in result ≡ first_fail (granting t.now guest) }
    ensures grant { IfOk result (IsNext t.now guest) }
{
    let Some(number) = table::next_number(table::guest_at(t, guest)) else {
        return Err(Refusal::Error);
    };
    check(table::has_room(t, guest), Refusal::NoSpace)?;
    let at = table::first_free(t).unwrap();
    Ok(Grant { at, number })
}

// All checks of a create, and what it is granted.
fn create_answer(
    t: &Table,
    guest: u8,
    readable: &[u8],
    room: usize,
    store: usize,
) -> Result<Grant, Refusal>
    ensures answer { answer_in result ≡ first_fail (creation t.now guest readable.now room store) }
    ensures grant { IfOk result (IsNext t.now guest) }
{
    opening_answer(t.config, is_here(t, guest), readable, room, store)?;
    form_answer(t.config, readable)?;
    grant_answer(t, guest)
}

// A new session in the lowest free slot, and its whole key area; the outcome, which names its number, is written before both.
fn create(
    t: &mut Table,
    guest: u8,
    readable: &[u8],
    writable: &mut [u8],
    store: &mut [u8],
) -> Result<(), Refusal>
    ensures answer { answer_in result ≡ first_fail (creation t.old guest readable.now (length writable.old) (length store.old)) }
    ensures table { t.new ≡ if_granted (answer_in result) (table_after t.old guest (create (new_entry readable.now))) t.old }
    ensures store { store.new ≡ if_granted (answer_in result) (store_after t.old store.old guest (create (new_entry readable.now))) store.old }
    ensures writable { writable.new ≡ if_granted (answer_in result) (control_bytes writable.old (suc (guest_at t.old guest).last) ok) writable.old }
{
    let Grant { at, number } = create_answer(t, guest, readable, writable.len(), store.len())?;
    let x = request::asked(readable);
    // After the fields are read: outcome bytes that overlap them, against rule 12.2, are to leave the session as it was checked.
    wire::put_control(writable, number, OK);
    let start = 16 + request::create_part(x.service);
    let key = wire::part(readable, start, x.keylen as usize);
    keystore::put_key(store, at, x.service, key);
    let r = table::guest_at(t, guest);
    table::granted(t, guest, r, at, number, x);
    Ok(())
}

// All checks of a destroy, and where the session that it names was found.
#[tactic(auto, using(crate::specs::Answers::ends_alive), unfolding(model::specs::Answer::first_fail))]
fn destroy_answer(
    t: &Table,
    guest: u8,
    readable: &[u8],
    room: usize,
    store: usize,
) -> Result<usize, Refusal>
    ensures answer { answer_in result ≡ first_fail (destruction t.now guest readable.now room store) }
    ensures place { IfOk result (λ at. (at ≡ live_at t.now guest (le64 readable.now 16)) × (at < 128)) }
{
    opening_answer(t.config, is_here(t, guest), readable, room, store)?;
    let found = table::lookup(t, guest, wire::le64(readable, 16));
    let op = wire::le32(readable, 0);
    request::destroy_answer(session_of(found), op, readable.len())?;
    Ok(found.unwrap().at)
}

// The session's slot freed, its fields cleared and its key area zeroed; the outcome is written before that.
fn destroy(
    t: &mut Table,
    guest: u8,
    readable: &[u8],
    writable: &mut [u8],
    store: &mut [u8],
) -> Result<(), Refusal>
    ensures answer { answer_in result ≡ first_fail (destruction t.old guest readable.now (length writable.old) (length store.old)) }
    ensures table { t.new ≡ if_granted (answer_in result) (table_after t.old guest (destroy (le64 readable.now 16))) t.old }
    ensures store { store.new ≡ if_granted (answer_in result) (store_after t.old store.old guest (destroy (le64 readable.now 16))) store.old }
    ensures writable { writable.new ≡ if_granted (answer_in result) (control_bytes writable.old 0 ok) writable.old }
{
    let at = destroy_answer(t, guest, readable, writable.len(), store.len())?;
    wire::put_control(writable, 0, OK);
    keystore::clear_area(store, at);
    table::without_slot(t, at);
    Ok(())
}

// A create or a destroy in place, with its outcome where it is granted.
fn change(
    t: &mut Table,
    guest: u8,
    readable: &[u8],
    writable: &mut [u8],
    store: &mut [u8],
) -> Result<(), Refusal>
    ensures answer { answer_in result ≡ first_fail (changing t.old guest readable.now (length writable.old) (length store.old)) }
    ensures table { t.new ≡ if_granted (answer_in result) (table_after t.old guest (control_act readable.now)) t.old }
    ensures store { store.new ≡ if_granted (answer_in result) (store_after t.old store.old guest (control_act readable.now)) store.old }
    ensures writable { writable.new ≡ if_granted (answer_in result) (control_bytes writable.old (cond (is_create readable.now) (suc (guest_at t.old guest).last) 0) ok) writable.old }
{
    if wire::le32(readable, 0) % 256 == CREATE {
        create(t, guest, readable, writable, store)
    } else {
        destroy(t, guest, readable, writable, store)
    }
}

// A create or a destroy.
pub fn control(t: Table, guest: u8, readable: &[u8], writable: &mut [u8], store: &mut [u8]) -> Reply
    ensures answer { result.answer ≡ (reply (world t store.old) guest (Control readable.now writable.old)).answer }
    ensures table { result.table ≡ (next (world t store.old) guest (Control readable.now writable.old)).table }
    ensures store { store.new ≡ (next (world t store.old) guest (Control readable.now writable.old)).store }
    ensures writable { writable.new ≡ (reply (world t store.old) guest (Control readable.now writable.old)).writable }
{
    let mut next = t;
    let outcome = change(&mut next, guest, readable, writable, store);
    let answer = model::answer(outcome);
    if answer != OK {
        wire::put_control(writable, 0, answer);
    }
    Reply {
        answer,
        table: next,
    }
}

// The checks of a data request that need no session.
fn first_answer(k: Config, here: bool, readable: &[u8], room: usize) -> Result<(), Refusal>
    ensures { answer_in result ≡ first_fail (sessionless k here readable.now room) }
{
    let op = wire::le32(readable, 0);
    let flag = wire::le32(readable, 16);
    request::operation_answer(k, here, op, flag, readable.len(), room)
}

// The checks on the session x that is named, if that is live, and on the lengths.
fn last_answer(k: Config, x: Option<Session>, readable: &[u8], room: usize) -> Result<(), Refusal>
    ensures { answer_in result ≡ first_fail (suited k (is_some x) (unwrap_or x no_session) readable.now room) }
{
    let op = wire::le32(readable, 0);
    let plain = request::is_plain(readable);
    let n = request::lengths(readable);
    request::job_answer(k, x, op, plain, n, readable.len(), room)
}

// All checks of a data request, the slots last.
#[tactic(auto, unfolding(model::specs::Answer::first_fail))]
fn data_answer(t: &Table, guest: u8, readable: &[u8], room: usize) -> Result<(), Refusal>
    ensures { answer_in result ≡ first_fail (admission t.now guest readable.now room) }
{
    first_answer(t.config, is_here(t, guest), readable, room)?;
    let found = table::lookup(t, guest, wire::le64(readable, 8));
    last_answer(t.config, session_of(found), readable, room)
}

// Takes or refuses a data request.
pub fn admit(t: Table, guest: u8, readable: &[u8], writable: &mut [u8]) -> Admission
    ensures answer { result.answer ≡ (reply (bare t) guest (Admit readable.now writable.old)).answer }
    ensures job { record { guest = result.guest; number = result.number; opcode = result.opcode } ≡ (reply (bare t) guest (Admit readable.now writable.old)).job }
    ensures writable { writable.new ≡ (reply (bare t) guest (Admit readable.now writable.old)).writable }
{
    let outcome = data_answer(&t, guest, readable, writable.len());
    let answer = model::answer(outcome);
    wire::put_data(writable, answer);
    match outcome {
        Ok(()) => Admission {
            answer,
            guest,
            number: wire::le64(readable, 8),
            opcode: wire::le32(readable, 0),
        },
        Err(_) => Admission {
            answer,
            guest: 0,
            number: 0,
            opcode: 0,
        },
    }
}

// A variable part of a data request; empty where it is refused.
fn part<'a>(t: Table, guest: u8, readable: &'a [u8], writable: &[u8], field: Field) -> &'a [u8]
    ensures { result.now ≡ (reply (bare t) guest (Part field readable.now writable.now)).bytes }
{
    match data_answer(&t, guest, readable, writable.len()) {
        Ok(()) => request::part(readable, field),
        Err(_) => b"",
    }
}

// The IV of an accepted data request: `part` of a field, as are the two below it; each of the three is a call by a name of its own.
pub fn iv<'a>(t: Table, guest: u8, readable: &'a [u8], writable: &[u8]) -> &'a [u8]
    ensures { result.now ≡ (reply (bare t) guest (Part Iv readable.now writable.now)).bytes }
{
    part(t, guest, readable, writable, Field::Iv)
}

// Its source.
pub fn source<'a>(t: Table, guest: u8, readable: &'a [u8], writable: &[u8]) -> &'a [u8]
    ensures { result.now ≡ (reply (bare t) guest (Part Source readable.now writable.now)).bytes }
{
    part(t, guest, readable, writable, Field::Source)
}

// Its AAD.
pub fn aad<'a>(t: Table, guest: u8, readable: &'a [u8], writable: &[u8]) -> &'a [u8]
    ensures { result.now ≡ (reply (bare t) guest (Part Aad readable.now writable.now)).bytes }
{
    part(t, guest, readable, writable, Field::Aad)
}

// The checks of a key fetch from a store of `size` bytes, and the session.
#[tactic(auto, using(crate::specs::Calls::fetch_alive))]
fn fetch(t: &Table, guest: u8, number: u64, size: usize) -> Result<Found, Refusal>
    ensures answer { answer_in result ≡ first_fail (fetching t.now guest number size) }
    ensures place { IfOk result (λ found. (found.at ≡ live_at t.now guest number) × (found.at < 128)) }
    ensures session { IfOk result (λ found. found.session ≡ session_in (find (bare t.now) guest number)) }
{
    let found = table::lookup(t, guest, number);
    request::key_answer(size, is_here(t, guest), found.is_some())?;
    Ok(found.unwrap())
}

// The answer of a key fetch.
pub fn key_answer(t: Table, guest: u8, number: u64, store: &[u8]) -> u8
    ensures { result ≡ (reply (world t store.now) guest (KeyAnswer number)).answer }
{
    model::answer(fetch(&t, guest, number, store.len()))
}

// The key of a live session, a part of the store; empty where the answer is not 0.
pub fn key(t: Table, guest: u8, number: u64, store: &[u8]) -> &[u8]
    ensures { result.now ≡ (reply (world t store.now) guest (Key number)).bytes }
{
    match fetch(&t, guest, number, store.len()) {
        Ok(found) => keystore::key_part(store, found.at, found.session),
        Err(_) => &[],
    }
}

// Writes the verdict of the host's crypto call; answers the byte written.
pub fn finish(t: Table, guest: u8, opcode: u32, verdict: u8, writable: &mut [u8]) -> u8
    ensures answer { result ≡ (reply (bare t) guest (Finish opcode verdict writable.old)).answer }
    ensures writable { writable.new ≡ (reply (bare t) guest (Finish opcode verdict writable.old)).writable }
{
    // The eight records alone: a table that came by value would be copied to be lent.
    let guests = t.guests;
    let here = table::is_present(guest, table::guest_of(&guests, guest));
    let outcome = request::finish_answer(here, writable.len());
    match outcome {
        Ok(()) => {
            let status = request::status_of(opcode, verdict);
            wire::put_status(writable, status);
            status
        }
        Err(_) => model::answer(outcome),
    }
}
