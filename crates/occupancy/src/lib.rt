// The held slots as the bits of two words: whether a slot is held, the first that is free, how many are held, and the words with one marked anew or all moved.
#![tactic(auto)]

ghost use Rattle.std.specs.Prelude.{◌≡◌, ◌<◌, false, not, ℕ, suc, get_or, set, unwrap_or, IfSome};
ghost use Rattle.lists.specs.Seek.{count, index};
ghost use Rattle.model.specs.Session.{bits_of, word_of, marks_of, occupied_by, marked};

// Bit i of a word is set; a word has none from 64 on. (That of a mask of 32 bits is `has_bit` of the crate rules, by another definition.)
fn has_bit(w: u64, i: usize) -> bool
    ensures { result ≡ get_or (bits_of 64 w) i false }
{
    i < 64 && (w >> i) % 2 == 1
}

// The word with bit i set or cleared.
fn with_bit(w: u64, i: usize, on: bool) -> u64
    ensures { result ≡ word_of (set (bits_of 64 w) i on) }
{
    if 64 <= i {
        return w;
    }
    let mask = 1u64 << i;
    if on { w | mask } else { w & !mask }
}

// The lowest clear bit of a word.
fn first_clear(w: u64) -> Option<usize>
    ensures place { unwrap_or result 64 ≡ index not (bits_of 64 w) }
    ensures within { IfSome result (λ i. i < 64) }
{
    match (!w).trailing_zeros() {
        64 => None,
        i => Some(i as usize),
    }
}

// The slot is held; there is none above 127.
pub fn is_held(o: model::Occupied, slot: usize) -> bool
    ensures { result ≡ marked o slot }
{
    if slot < 64 {
        has_bit(o.low, slot)
    } else {
        has_bit(o.high, slot - 64)
    }
}

// The words with each mark moved down by one slot, so that a pass over the slots asks for slot 0 alone. 2^63 is the highest bit of a word.
pub fn moved_down(o: model::Occupied) -> model::Occupied
    ensures { (i : ℕ) → marked result i ≡ marked o (suc i) }
{
    model::Occupied {
        low: o.low / 2 + (o.high % 2) * 9223372036854775808,
        high: o.high / 2,
    }
}

// The words with the slot's mark set or cleared.
pub fn with_mark(o: model::Occupied, slot: usize, held: bool) -> model::Occupied
    ensures { result ≡ occupied_by (set (marks_of o) slot held) }
{
    if slot < 64 {
        return model::Occupied {
            low: with_bit(o.low, slot, held),
            high: o.high,
        };
    }
    model::Occupied {
        low: o.low,
        high: with_bit(o.high, slot - 64, held),
    }
}

// The lowest-numbered free slot.
pub fn first_free(o: model::Occupied) -> Option<usize>
    ensures place { unwrap_or result 128 ≡ index not (marks_of o) }
    ensures within { IfSome result (λ i. i < 128) }
{
    if let Some(i) = first_clear(o.low) {
        return Some(i);
    }
    let i = first_clear(o.high)?;
    Some(64 + i)
}

// How many slots are held.
pub fn held_count(o: model::Occupied) -> usize
    ensures { result ≡ count (λ b. b) (marks_of o) }
{
    (o.low.count_ones() + o.high.count_ones()) as usize
}
