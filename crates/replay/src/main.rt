// Replays a trace from standard input: a line for each record, then the counts; or `bad trace`. Only `replay` reads and writes, with `read_full`.
#![tactic(auto)]

ghost use Rattle.std.specs.Prelude.{ℕ, ◌<◌, ◌≤◌, ◌≡◌, List, length, take, IfOk, IfSome, OnOk};
ghost use Rattle.std.specs.Io.KnownBytes.{Appends, Consumes, IsAtEnd};
ghost use Rattle.model.specs.Device.{reply, next, world};
ghost use Rattle.trace.specs.Replay.{request_of, blank, started_on, shown};
ghost use Rattle.replay.specs.Printed.{printed, tally_shown};

use device::Reply;
use model::Table;
use std::io::{self, Read, Write};
use tally::Tally;
use trace::Record;

// The longest trace has at most this many records, and an answer for each.
const ANSWERS: usize = 10921;

// Room for what is printed of the longest trace: 10,921 lines of at most 10 bytes, and a last one.
const TEXT: usize = 110000;

// Room for the longest trace, and one byte more by which a longer one is told: what is left unread changes nothing.
fn input() -> [u8; 65537]
    ensures size { 65537 ≡ length result }
    ensures enough { (s : List ℕ) → printed (take (length result) s) ≡ printed s }
{
    [0; 65537]
}

// Replay's set-up: a configuration with everything offered and limits at their largest, reserves of 8 and caps of 32.
#[tactic(auto, unfolding(trace::specs::Replay::started_on, trace::specs::Replay::everything, model::specs::Bytes::le))]
fn start(store: &mut [u8]) -> Table
    ensures { world result store.new ≡ started_on store.old }
{
    let config =
        b"\x01\0\0\0\x08\0\0\0\x0f\0\0\0\x1c\x21\0\0\0\0\0\0\x7e\0\0\0\x7e\0\0\x04\0\0\0\0\x0e\0\0\0\x40\0\0\0\x40\0\0\0\0\0\0\0\0\0\x10\0\0\0\0\0";
    device::set_up(config, [8; 8], [32; 8], store).table
}

// The device's call for a record.
#[tactic(auto, using(crate::specs::Laws::admit_keeps, crate::specs::Laws::admit_bare), unfolding(trace::specs::Replay::request_of))]
fn call(
    t: Table,
    guest: u8,
    kind: u8,
    readable: &[u8],
    writable: &mut [u8],
    store: &mut [u8],
) -> Reply
    ensures answer { result.answer ≡ (reply (world t store.old) guest (request_of kind readable.now writable.old)).answer }
    ensures table { result.table ≡ (next (world t store.old) guest (request_of kind readable.now writable.old)).table }
    ensures store { store.new ≡ (next (world t store.old) guest (request_of kind readable.now writable.old)).store }
{
    match kind {
        trace::ATTACH => device::attach(t, guest, wire::le32(readable, 0), store),
        trace::CONTROL => device::control(t, guest, readable, writable, store),
        _ => Reply {
            answer: device::admit(t, guest, readable, writable).answer,
            table: t,
        },
    }
}

// The same with writable bytes that start as 0: as many as the record says, and at most 4,096.
fn answer(t: Table, r: Record, readable: &[u8], store: &mut [u8]) -> Reply
    ensures answer { result.answer ≡ (reply (world t store.old) r.guest (request_of r.kind readable.now (blank r.writable))).answer }
    ensures table { result.table ≡ (next (world t store.old) r.guest (request_of r.kind readable.now (blank r.writable))).table }
    ensures store { store.new ≡ (next (world t store.old) r.guest (request_of r.kind readable.now (blank r.writable))).store }
{
    let mut buffer = [0; 4096];
    let n = buffer.len().min(usize::from(r.writable));
    call(t, r.guest, r.kind, readable, &mut buffer[..n], store)
}

// Answers the records of a good trace in order, at the front of `answers`, and gives their tally; none of a bad trace.
#[tactic(auto, unfolding(trace::specs::Replay::opened, trace::specs::Replay::shown))]
fn run(s: &[u8], answers: &mut [u8; ANSWERS]) -> Option<Tally>
    ensures tally { result ≡ tally_shown s.now }
    ensures answers { take (length (shown s.now)) answers.new ≡ shown s.now }
    ensures few { length (shown s.now) ≤ 10921 }
{
    let records = trace::open(s)?;
    let mut store = [0; model::STORE_SIZE];
    let mut t = start(&mut store);
    let mut tally = tally::empty();
    let mut at = records.first;
    for slot in answers[..records.count as usize].iter_mut() {
        let r = trace::record_at(s, at);
        let a = answer(t, r, trace::body(s, at, r), &mut store);
        *slot = a.answer;
        tally = tally::count_copy(tally, a.answer);
        t = a.table;
        at += 6 + usize::from(r.readable);
    }
    Some(tally)
}

// The whole text that is printed of a trace, whatever its bytes, at the front of `text`; the result is its length.
#[tactic(auto, unfolding(crate::specs::Printed::printed, tally::specs::Count::tally_of))]
fn transcript(s: &[u8], text: &mut [u8; TEXT]) -> usize
    ensures within { result ≤ length text.new }
    ensures printed { take result text.new ≡ printed s.now }
{
    let mut answers = [0; ANSWERS];
    let Some(tally) = run(s, &mut answers) else {
        return text::put_bytes(text, 0, b"bad trace\n");
    };
    text::put_text(&answers[..tally.records as usize], tally.granted, text)
}

// Reads until the buffer is full or the input ends: so many bytes at its front were read. `read_to_end` would need a heap.
fn read_full<R: Read>(reader: &mut R, buf: &mut [u8]) -> io::Result<usize>
    ensures within { IfOk result (λ n. n ≤ length buf.new) }
    ensures front { IfOk result (λ n. Consumes (R.remaining reader.old) (R.remaining reader.new) (take n buf.new)) }
    ensures whole { IfOk result (λ n. n < length buf.new → IsAtEnd (R.remaining reader.new)) }
{
    let mut end = 0;
    while end < buf.len() {
        let n = reader.read(&mut buf[end..])?;
        if n == 0 {
            break;
        }
        end += n;
    }
    Ok(end)
}

// Writes all that is printed of the trace that is read. Of standard input and output no contract can say the bytes, and of a reader and a writer in memory
// this one does.
fn replay<R: Read, W: Write>(reader: &mut R, writer: &mut W) -> io::Result<()>
    ensures { OnOk result (IfSome (R.remaining reader.old) (λ s. Appends (W.contents writer.old) (W.contents writer.new) (printed s))) }
{
    let mut bytes = input();
    let n = read_full(reader, &mut bytes)?;
    let mut text = [0; TEXT];
    let size = transcript(&bytes[..n], &mut text);
    writer.write_all(&text[..size])
}

fn main(rt: HostRuntime) -> io::Result<()> {
    replay(&mut rt.stdin(), &mut rt.stdout())
}
