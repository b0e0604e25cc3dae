// The ten calls for C and Rust: include/vcrypto.h declares them. A slice is a pointer and a length; a part or key, where it lies in the bytes lent.
#![tactic(auto)]

ghost use Rattle.std.specs.Prelude.{◌≡◌};
ghost use Rattle.model.specs.declared.Field.TheVariants.{Iv, Source, Aad};
ghost use Rattle.model.specs.Setup.{set_up_answer, set_up};
ghost use Rattle.model.specs.Device.{Attach, Control, Admit, Part, KeyAnswer, Key, Finish, reply, next, world, bare};
ghost use Rattle.vcrypto.specs.Span.{Located, span_of};

use device::{Admission, Reply};
use model::{Field, Span, Table};

// The span of `size` bytes from `start`; from 0 where it is empty.
fn span(start: usize, size: usize) -> Span
    ensures { result ≡ span_of start size }
{
    if size == 0 {
        return Span { start: 0, size: 0 };
    }
    Span { start, size }
}

// A part of a data request, by the device's call for it.
fn part<'a>(t: Table, guest: u8, readable: &'a [u8], writable: &[u8], field: Field) -> &'a [u8]
    ensures { result.now ≡ (reply (bare t) guest (Part field readable.now writable.now)).bytes }
{
    match field {
        Field::Iv => device::iv(t, guest, readable, writable),
        Field::Source => device::source(t, guest, readable, writable),
        Field::Aad => device::aad(t, guest, readable, writable),
    }
}

// Where it lies in the readable bytes.
fn part_span(t: Table, guest: u8, readable: &[u8], writable: &[u8], field: Field) -> Span
    ensures { Located readable.now result (reply (bare t) guest (Part field readable.now writable.now)).bytes }
{
    let bytes = part(t, guest, readable, writable, field);
    // No bytes have no place: their request may be too short to be asked for it.
    if bytes.len() == 0 {
        return span(0, 0);
    }
    let place = request::place(readable, field);
    span(place.start, bytes.len())
}

#[unsafe(no_mangle)]
pub extern "C" fn vcrypto_set_up(
    config: &[u8],
    reserves: &[u8; 8],
    caps: &[u8; 8],
    store: &mut [u8],
) -> Reply
    ensures answer { result.answer ≡ set_up_answer config.now reserves.now caps.now store.old }
    ensures table { result.table ≡ (set_up config.now reserves.now caps.now store.old).table }
    ensures store { store.new ≡ (set_up config.now reserves.now caps.now store.old).store }
{
    device::set_up(config, *reserves, *caps, store)
}

#[unsafe(no_mangle)]
pub extern "C" fn vcrypto_attach(t: Table, guest: u8, word: u32, store: &mut [u8]) -> Reply
    ensures answer { result.answer ≡ (reply (world t store.old) guest (Attach word)).answer }
    ensures table { result.table ≡ (next (world t store.old) guest (Attach word)).table }
    ensures store { store.new ≡ (next (world t store.old) guest (Attach word)).store }
{
    device::attach(t, guest, word, store)
}

#[unsafe(no_mangle)]
pub extern "C" fn vcrypto_control(
    t: Table,
    guest: u8,
    readable: &[u8],
    writable: &mut [u8],
    store: &mut [u8],
) -> Reply
    ensures answer { result.answer ≡ (reply (world t store.old) guest (Control readable.now writable.old)).answer }
    ensures table { result.table ≡ (next (world t store.old) guest (Control readable.now writable.old)).table }
    ensures store { store.new ≡ (next (world t store.old) guest (Control readable.now writable.old)).store }
    ensures writable { writable.new ≡ (reply (world t store.old) guest (Control readable.now writable.old)).writable }
{
    device::control(t, guest, readable, writable, store)
}

#[unsafe(no_mangle)]
pub extern "C" fn vcrypto_admit(
    t: Table,
    guest: u8,
    readable: &[u8],
    writable: &mut [u8],
) -> Admission
    ensures answer { result.answer ≡ (reply (bare t) guest (Admit readable.now writable.old)).answer }
    ensures job { record { guest = result.guest; number = result.number; opcode = result.opcode } ≡ (reply (bare t) guest (Admit readable.now writable.old)).job }
    ensures writable { writable.new ≡ (reply (bare t) guest (Admit readable.now writable.old)).writable }
{
    device::admit(t, guest, readable, writable)
}

#[unsafe(no_mangle)]
pub extern "C" fn vcrypto_iv(t: Table, guest: u8, readable: &[u8], writable: &[u8]) -> Span
    ensures { Located readable.now result (reply (bare t) guest (Part Iv readable.now writable.now)).bytes }
{
    part_span(t, guest, readable, writable, Field::Iv)
}

#[unsafe(no_mangle)]
pub extern "C" fn vcrypto_source(t: Table, guest: u8, readable: &[u8], writable: &[u8]) -> Span
    ensures { Located readable.now result (reply (bare t) guest (Part Source readable.now writable.now)).bytes }
{
    part_span(t, guest, readable, writable, Field::Source)
}

#[unsafe(no_mangle)]
pub extern "C" fn vcrypto_aad(t: Table, guest: u8, readable: &[u8], writable: &[u8]) -> Span
    ensures { Located readable.now result (reply (bare t) guest (Part Aad readable.now writable.now)).bytes }
{
    part_span(t, guest, readable, writable, Field::Aad)
}

#[unsafe(no_mangle)]
pub extern "C" fn vcrypto_key_answer(t: Table, guest: u8, number: u64, store: &[u8]) -> u8
    ensures { result ≡ (reply (world t store.now) guest (KeyAnswer number)).answer }
{
    device::key_answer(t, guest, number, store)
}

#[unsafe(no_mangle)]
pub extern "C" fn vcrypto_key(t: Table, guest: u8, number: u64, store: &[u8]) -> Span
    ensures { Located store.now result (reply (world t store.now) guest (Key number)).bytes }
{
    let key = device::key(t, guest, number, store);
    match table::lookup(&t, guest, number) {
        Some(found) => span(
            keystore::key_place(found.at, found.session).start,
            key.len(),
        ),
        None => span(0, 0),
    }
}

#[unsafe(no_mangle)]
pub extern "C" fn vcrypto_finish(
    t: Table,
    guest: u8,
    opcode: u32,
    verdict: u8,
    writable: &mut [u8],
) -> u8
    ensures answer { result ≡ (reply (bare t) guest (Finish opcode verdict writable.old)).answer }
    ensures writable { writable.new ≡ (reply (bare t) guest (Finish opcode verdict writable.old)).writable }
{
    device::finish(t, guest, opcode, verdict, writable)
}
