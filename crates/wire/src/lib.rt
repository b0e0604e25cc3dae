// Numbers and parts of byte slices, at any place, and the outcome bytes of requests. A byte past the end reads as 0.
#![tactic(auto)]

ghost use Rattle.std.specs.Prelude.{◌≡◌, drop};
ghost use Rattle.model.specs.Bytes.{byte, le32, le64, part, padded};
ghost use Rattle.model.specs.Answer.{control_outcome, data_outcome, control_bytes, data_bytes};

// The byte at `at`, 0 past the end.
pub fn byte(s: &[u8], at: usize) -> u8
    ensures { result ≡ byte s.now at }
{
    s.get(at).copied().unwrap_or(0)
}

// The N bytes from `at`, a 0 for each past the end: one bounds test and one load where they all lie within the slice.
pub fn field<const N: usize>(s: &[u8], at: usize) -> [u8; N]
    ensures { result ≡ padded N (drop at s.now) }
{
    let there = s.get(at..at.saturating_add(N)).unwrap_or(&[]);
    match there.first_chunk() {
        Some(bytes) => *bytes,
        None => short_field(s, at),
    }
}

// The same of a field that runs past the end, out of the way of one that does not.
#[cold]
#[inline(never)]
fn short_field<const N: usize>(s: &[u8], at: usize) -> [u8; N]
    ensures { result ≡ padded N (drop at s.now) }
{
    let mut bytes = [0; N];
    if let Some(rest) = s.get(at..) {
        let n = rest.len().min(N);
        bytes[..n].copy_from_slice(&rest[..n]);
    }
    bytes
}

// The 32-bit field at `at`.
pub fn le32(s: &[u8], at: usize) -> u32
    ensures { result ≡ le32 s.now at }
{
    u32::from_le_bytes(field(s, at))
}

// The 64-bit field at `at`.
pub fn le64(s: &[u8], at: usize) -> u64
    ensures { result ≡ le64 s.now at }
{
    u64::from_le_bytes(field(s, at))
}

// The n bytes from `at`, or those of them that there are.
pub fn part(s: &[u8], at: usize, n: usize) -> &[u8]
    ensures { result.now ≡ part s.now at n }
{
    let rest = s.get(at..).unwrap_or(&[]);
    rest.get(..n).unwrap_or(rest)
}

// Writes session_id, status and padding into 16 bytes, or the status into 1.
fn put_outcome(writable: &mut [u8], id: u64, status: u8)
    ensures { writable.new ≡ control_outcome writable.old id status }
{
    match writable.len() {
        16 => {
            writable[..8].copy_from_slice(&id.to_le_bytes());
            writable[8..12].copy_from_slice(&u32::from(status).to_le_bytes());
            writable[12..].copy_from_slice(&[0; 4]);
        }
        1 => writable[0] = status,
        _ => {}
    }
}

// The outcome of a control request; an answer from 16 on has none.
pub fn put_control(writable: &mut [u8], id: u64, answer: u8)
    ensures { writable.new ≡ control_bytes writable.old id answer }
{
    if answer < model::BAD_GUEST {
        put_outcome(writable, id, answer);
    }
}

// The status into the last byte.
pub fn put_status(writable: &mut [u8], status: u8)
    ensures { writable.new ≡ data_outcome writable.old status }
{
    if let Some(last) = writable.last_mut() {
        *last = status;
    }
}

// The outcome of a data request: an accepted one writes nothing, and an answer from 16 on has none.
pub fn put_data(writable: &mut [u8], answer: u8)
    ensures { writable.new ≡ data_bytes writable.old answer }
{
    if answer < model::BAD_GUEST && answer != model::OK {
        put_status(writable, answer);
    }
}
