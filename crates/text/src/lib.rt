// The lines that replay prints, made as bytes in a slice that is lent, so that nothing is allocated and no call can fail. What does not fit is
// left out.
#![tactic(auto)]

ghost use Rattle.std.specs.Prelude.{◌≤◌, ◌≡◌, length, take};
ghost use Rattle.text.specs.Lines.{decimal, line, lines_from, text, Puts};

// The bytes of s from `at` on; the result of this and of the others is where the next byte goes.
pub fn put_bytes(out: &mut [u8], at: usize, s: &[u8]) -> usize
    ensures { Puts out.old at s.now out.new result }
{
    if out.len() <= at {
        return at;
    }
    let n = s.len().min(out.len() - at);
    out[at..at + n].copy_from_slice(&s[..n]);
    at + n
}

// A number in decimal.
#[tactic(auto, using(crate::specs::Laws::decimal_one))]
fn put_decimal(out: &mut [u8], at: usize, n: u64) -> usize
    ensures { Puts out.old at (decimal n) out.new result }
{
    if n < 10 {
        return put_bytes(out, at, &[b'0' + n as u8]);
    }
    let last = put_decimal(out, at, n / 10);
    put_bytes(out, last, &[b'0' + (n % 10) as u8])
}

// Two numbers on a line.
fn put_line(out: &mut [u8], at: usize, a: u64, b: u64) -> usize
    ensures { Puts out.old at (line a b) out.new result }
{
    let space = put_decimal(out, at, a);
    let second = put_bytes(out, space, b" ");
    let end = put_decimal(out, second, b);
    put_bytes(out, end, b"\n")
}

// A line for each answer: its index and itself.
#[tactic(auto, unfolding(crate::specs::Lines::lines_from))]
fn put_lines(out: &mut [u8], answers: &[u8]) -> usize
    ensures { Puts out.old 0 (lines_from 0 answers.now) out.new result }
{
    let mut at = 0;
    for (index, answer) in answers.iter().enumerate() {
        at = put_line(out, at, index as u64, u64::from(*answer));
    }
    at
}

// All lines of a good trace, whose answers number at most 10,921.
pub fn put_text(answers: &[u8], granted: u32, out: &mut [u8]) -> usize
    ensures within { result ≤ length out.new }
    ensures lines { length answers.now ≤ 10921 → 110000 ≤ length out.old → take result out.new ≡ text answers.now granted }
{
    let last = put_lines(out, answers);
    let counts = put_bytes(out, last, b"done ");
    put_line(out, counts, answers.len() as u64, u64::from(granted))
}
