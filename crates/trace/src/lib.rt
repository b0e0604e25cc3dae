// Replay's traces: records, then a trailer of 8 bytes with the distance back to the first record and their count.
#![tactic(auto)]

ghost use Rattle.std.specs.Prelude.{◌≡◌, ◌+◌};
ghost use Rattle.model.specs.Bytes.{part};
ghost use Rattle.trace.specs.Replay.{le16, record_at, fits, walks, opened};

// The kinds of records.
pub const ATTACH: u8 = 0;

pub const CONTROL: u8 = 1;

pub const DATA: u8 = 2;

// The header of a record; its readable bytes follow it. The kind is a number, since any byte may stand there.
#[derive(Clone, Copy)]
pub struct Record {
    pub kind: u8,
    pub guest: u8,
    pub readable: u16,
    pub writable: u16,
}

// Where the first record starts, and how many there are.
#[derive(Clone, Copy)]
pub struct Records {
    pub first: usize,
    pub count: u32,
}

// The 16-bit field at `at`.
#[tactic(auto, using(wire::specs::Read::number_16), unfolding(crate::specs::Replay::le16))]
fn le16(s: &[u8], at: usize) -> u16
    ensures { result ≡ le16 s.now at }
{
    u16::from_le_bytes(wire::field(s, at))
}

// The record at `at`, whatever stands there.
#[tactic(auto, using(crate::specs::Laws::byte_part, crate::specs::Laws::le16_part), unfolding(crate::specs::Replay::record_at))]
pub fn record_at(s: &[u8], at: usize) -> Record
    ensures { result ≡ record_at s.now at }
{
    let header = wire::part(s, at, 6);
    Record {
        kind: wire::byte(header, 0),
        guest: wire::byte(header, 1),
        readable: le16(header, 2),
        writable: le16(header, 4),
    }
}

// The readable bytes of the record r at `at`.
#[tactic(auto, using(crate::specs::Laws::part_cut_off))]
pub fn body(s: &[u8], at: usize, r: Record) -> &[u8]
    ensures { result.now ≡ part s.now (at + 6) r.readable }
{
    wire::part(s, at.saturating_add(6), usize::from(r.readable))
}

// A record at `at` that keeps the rules and ends at `end` or before.
#[tactic(auto, unfolding(crate::specs::Replay::fits))]
fn record_fits(r: Record, at: usize, end: usize) -> bool
    ensures { result ≡ fits r at end }
{
    let Some(room) = end.checked_sub(at) else {
        return false;
    };
    (6 + usize::from(r.readable) <= room)
        & (r.kind <= DATA)
        & ((r.kind != ATTACH) | (r.readable == 4))
        & (r.writable <= 4096)
}

// The records end exactly at `end`.
#[tactic(auto, using(crate::specs::Laws::walks_none, crate::specs::Laws::fits_ends))]
fn records_end(s: &[u8], x: Records, end: usize) -> bool
    ensures { result ≡ walks s.now end x.first x.count }
{
    let mut at = x.first;
    for _ in 0..x.count {
        let r = record_at(s, at);
        if !record_fits(r, at, end) {
            return false;
        }
        at += 6 + usize::from(r.readable);
    }
    at == end
}

// The records of a good trace; none of a bad one.
#[tactic(auto, unfolding(crate::specs::Replay::opened, crate::specs::Replay::good_trace, crate::specs::Replay::records_of))]
pub fn open(s: &[u8]) -> Option<Records>
    ensures { result ≡ opened s.now }
{
    if 65536 < s.len() {
        return None;
    }
    let end = s.len().checked_sub(8)?;
    let distance = wire::le32(s, end) as usize;
    let x = Records {
        first: end.checked_sub(distance)?,
        count: wire::le32(s, end + 4),
    };
    records_end(s, x, end).then_some(x)
}
