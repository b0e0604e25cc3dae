// The lent key store: 16,384 bytes, of which slot s owns the 128 from s * 128. A store of another length, but where all
// of it is cleared, and a slot above 127 are left as they are.
#![tactic(auto)]

ghost use Rattle.std.specs.Prelude.{◌≡◌, cond, List, ℕ, length, take, replicate};
ghost use Rattle.model.specs.Bytes.{padded, part};
ghost use Rattle.model.specs.Session.{place_of, slots_of, zeros, key_area, area_of, key_start, key_len};
ghost use Rattle.model.specs.View.{owned};
ghost use Rattle.model.specs.Act.{wipe};
ghost use Rattle.keystore.specs.Stored.{stored, cleared, key_at};

// Fills a slice with a key, as much of it as there is room for, and zeros behind it.
fn fill(out: &mut [u8], key: &[u8])
    ensures { out.new ≡ padded (length out.old) key.now }
{
    let n = key.len().min(out.len());
    let (front, back) = out.split_at_mut(n);
    // Byte by byte: `copy_from_slice` would ask the archive's host for memmove.
    for (i, byte) in front.iter_mut().enumerate() {
        *byte = key[i];
    }
    back.fill(0);
}

// Writes the whole area of a slot: a key in each half, zeros behind it.
fn put_keys(store: &mut [u8], slot: usize, front: &[u8], back: &[u8])
    ensures { store.new ≡ stored store.old slot (key_area front.now back.now) }
{
    if store.len() != model::STORE_SIZE || 128 <= slot {
        return;
    }
    let start = 128 * slot;
    let middle = start + 64;
    fill(&mut store[start..middle], front);
    fill(&mut store[middle..middle + 64], back);
}

// Writes the whole area of a new session: its key where the service has it, zeros elsewhere.
#[tactic(auto, unfolding(model::specs::Session::area_of))]
pub fn put_key(store: &mut [u8], slot: usize, service: u32, key: &[u8])
    ensures { store.new ≡ stored store.old slot (area_of service key.now) }
{
    match service {
        model::MAC => put_keys(store, slot, b"", key),
        _ => put_keys(store, slot, key, b""),
    }
}

// Zeroes the area of a slot.
#[tactic(auto, using(crate::specs::StoredLaws::no_keys))]
pub fn clear_area(store: &mut [u8], slot: usize)
    ensures { store.new ≡ stored store.old slot zeros }
{
    put_keys(store, slot, b"", b"");
}

// Zeroes the whole store.
pub fn clear_all(store: &mut [u8])
    ensures { store.new ≡ replicate (length store.old) 0 }
{
    store.fill(0);
}

// Zeroes the areas of all slots that name the guest as owner.
pub fn clear_guest(store: &mut [u8], t: &model::Table, guest: u8)
    ensures { store.new ≡ cleared store.old (wipe (owned guest) (slots_of t.now) store.old) }
{
    let slots: &[model::Slot] = &t.slots;
    for (i, slot) in slots.iter().enumerate() {
        if table::owned_by(occupancy::is_held(t.occupied, i), *slot, guest) {
            clear_area(store, i);
        }
    }
}

// Where a key starts in its area.
#[tactic(auto, unfolding(model::specs::Session::key_start))]
fn key_start(service: u32) -> usize
    ensures { result ≡ key_start service }
{
    match service {
        model::MAC => 64,
        _ => 0,
    }
}

// The length of a session's key; a hash has none, whatever its slot says.
#[tactic(auto, unfolding(model::specs::Session::key_len))]
fn key_len(session: model::Session) -> usize
    ensures { result ≡ key_len session }
{
    match session.service {
        model::HASH => 0,
        _ => session.keylen as usize,
    }
}

// Where the key of the session in a slot stands in the store.
#[tactic(auto, using(crate::specs::StoredLaws::key_start_le, crate::specs::StoredLaws::no_place, crate::specs::StoredLaws::key_place))]
pub fn key_place(slot: usize, session: model::Session) -> model::Span
    ensures { (b : List ℕ) → part b result.start result.size ≡ key_at b slot session }
{
    if 128 <= slot {
        return model::Span { start: 0, size: 0 };
    }
    model::Span {
        start: 128 * slot + key_start(session.service),
        size: key_len(session),
    }
}

// The key itself: a part of the store.
pub fn key_part(store: &[u8], slot: usize, session: model::Session) -> &[u8]
    ensures { result.now ≡ key_at store.now slot session }
{
    let place = key_place(slot, session);
    wire::part(store, place.start, place.size)
}
