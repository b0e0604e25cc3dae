// The session table, lent: whose slot is whose, the live session of a number, room for one more, and what calls change in it.
#![tactic(auto)]

ghost use Rattle.std.specs.Prelude.{◌≡◌, true, false, not, cond, ℕ, ◌≤◌, ◌<◌, ◌-◌, ltb, length, map, get_or, is_some, IfSome, unwrap_or};
ghost use Rattle.std.specs.List.{range_with_len};
ghost use Rattle.lists.specs.Sum.{sum_to, except};
ghost use Rattle.model.specs.Session.{free, holding, slot_of, session_of, marked, place_of, new_guest, guest_at};
ghost use Rattle.model.specs.View.{owned, free_at, live_at, find, is_live, session_in, holds, full, present};
ghost use Rattle.model.specs.Act.{attach, with_slot, without, with_guest, restarted, table_after};
ghost use Rattle.model.specs.Setup.{fresh_table};
ghost use Rattle.model.specs.Device.{bare};
ghost use Rattle.table.specs.Search.{was_given, claimed, place_found, session_found};
ghost use Rattle.table.specs.Narrow.{low, lastly, number_after, next_number, lacks};

// The place of a live session, and the session.
#[derive(Clone, Copy)]
pub struct Found {
    pub at: usize,
    pub session: model::Session,
}

// A free slot, every field cleared.
#[tactic(auto, unfolding(model::specs::Session::slot_of))]
fn free_slot() -> model::Slot
    ensures { result ≡ slot_of free }
{
    model::Slot {
        number: 0,
        aad: 0,
        owner: 0,
        service: 0,
        algo: 0,
        direction: 0,
        keylen: 0,
        result: 0,
    }
}

// A guest that never attached.
#[tactic(auto, unfolding(model::specs::Session::new_guest))]
fn new_guest(reserve: u8, cap: u8) -> model::Guest
    ensures { result ≡ new_guest reserve cap }
{
    model::Guest {
        attached: false,
        reserve,
        cap,
        last: 0,
    }
}

// The guests after set-up, with these shares.
fn fresh_guests(reserves: [u8; 8], caps: [u8; 8]) -> [model::Guest; 8]
    ensures { result ≡ map (λ g. new_guest (get_or reserves g 0) (get_or caps g 0)) (range_with_len 0 8) }
{
    let mut guests = [new_guest(0, 0); 8];
    for (i, guest) in guests.iter_mut().enumerate() {
        *guest = new_guest(reserves[i], caps[i]);
    }
    guests
}

// The table after set-up.
pub fn fresh(config: model::Config, reserves: [u8; 8], caps: [u8; 8]) -> model::Table
    ensures { result ≡ fresh_table config reserves caps }
{
    model::Table {
        config,
        occupied: model::Occupied { low: 0, high: 0 },
        slots: [free_slot(); 128],
        guests: fresh_guests(reserves, caps),
    }
}

// The marks of the slots, of which a table has 128.
fn occupied(t: &model::Table) -> model::Occupied
    ensures value { result ≡ t.now.occupied }
    ensures slots { length t.now.slots ≡ 128 }
{
    prove!(t.slots.iter().len() == 128);
    t.occupied
}

// The record of a guest among the eight; one above 7 has none.
pub fn guest_of(guests: &[model::Guest; 8], guest: u8) -> model::Guest
    ensures { result ≡ get_or guests.now guest (new_guest 0 0) }
{
    guests
        .get(usize::from(guest))
        .copied()
        .unwrap_or(new_guest(0, 0))
}

// The record of a guest in the table.
pub fn guest_at(t: &model::Table, guest: u8) -> model::Guest
    ensures { result ≡ guest_at t.now guest }
{
    guest_of(&t.guests, guest)
}

// The guest, whose record is given, is at most 7 and attached.
#[tactic(auto, unfolding(model::specs::View::present))]
pub fn is_present(guest: u8, recorded: model::Guest) -> bool
    ensures { result ≡ present guest recorded }
{
    guest < 8 && recorded.attached
}

// The slot, held or not, names the guest as owner.
pub fn owned_by(held: bool, slot: model::Slot, guest: u8) -> bool
    ensures { result ≡ owned guest (place_of held slot) }
{
    held && slot.owner == guest
}

// The number was given to the guest with this record since its attach.
fn was_given(recorded: model::Guest, number: u64) -> bool
    ensures { result ≡ was_given recorded number }
{
    recorded.attached && 0 < number && number <= recorded.last
}

// The slot at this place, where the marks are such, holds session `number` of the guest, and keeps the rules. Its mark and the rules are looked
// at only where owner and number fit.
fn is_live(
    t: &model::Table,
    guest: u8,
    number: u64,
    marks: model::Occupied,
    at: usize,
    slot: model::Slot,
) -> bool
    ensures { result ≡ claimed t.now.config guest number (place_of (marked marks at) slot) }
{
    (slot.owner == guest) & (slot.number == number)
        && occupancy::is_held(marks, at)
        && rules::is_accepted(t.config, slot.into())
}

// The live session of a number. The one function that searches the slots for a session; a number that was never given needs no search.
pub fn lookup(t: &model::Table, guest: u8, number: u64) -> Option<Found>
    ensures at { place_found result ≡ live_at t.now guest number }
    ensures alive { is_some result ≡ is_live (find (bare t.now) guest number) }
    ensures session { session_found result ≡ session_in (find (bare t.now) guest number) }
    ensures within { IfSome result (λ found. found.at < 128) }
{
    let marks = occupied(t);
    if !was_given(guest_at(t, guest), number) {
        return None;
    }
    for (at, slot) in t.slots.iter().enumerate() {
        if is_live(t, guest, number, marks, at, *slot) {
            let session = model::Session::from(*slot);
            return Some(Found { at, session });
        }
    }
    None
}

// How many slots each of the eight guests holds, in one pass over the slots.
fn holdings(t: &model::Table) -> [u8; 8]
    ensures { (g : ℕ) → g < 8 → get_or result g 0 ≡ holds t.now g }
{
    let mut marks = occupied(t);
    let mut held = [0u8; 8];
    for slot in &t.slots {
        if occupancy::is_held(marks, 0) && slot.owner < 8 {
            held[usize::from(slot.owner)] += 1;
        }
        marks = occupancy::moved_down(marks);
    }
    held
}

// The lowest-numbered free slot; there is one where a guest has room.
#[tactic(auto, using(laws::specs::Slots::free_marks))]
pub fn first_free(t: &model::Table) -> Option<usize>
    ensures place { unwrap_or result 128 ≡ free_at t.now }
    ensures within { IfSome result (λ at. at < 128) }
    ensures room { (g : ℕ) → full t.now g ≡ false → is_some result ≡ true }
{
    occupancy::first_free(occupied(t))
}

// What a guest with this record that holds so many slots lacks of its reserve.
fn unmet(recorded: model::Guest, held: u8) -> usize
    ensures value { result ≡ recorded.reserve - held }
    ensures bounded { result ≤ 255 }
{
    usize::from(recorded.reserve.saturating_sub(held))
}

// What the guests but this one, which its index tells, lack of their reserves, by their records and holdings.
fn owed(guests: &[model::Guest; 8], held: &[u8; 8], guest: u8) -> usize
    ensures value { result ≡ sum_to 8 (except guest (lacks guests.now held.now)) }
    ensures bounded { result ≤ 2040 }
{
    let mut sum = 0;
    for (i, recorded) in guests.iter().enumerate() {
        if i != usize::from(guest) {
            sum += unmet(*recorded, held[i]);
        }
    }
    sum
}

// A create of the guest is NOSPC; one above 7 has a cap of 0.
fn is_full(t: &model::Table, guest: u8) -> bool
    ensures { result ≡ full t.now guest }
{
    let Some(recorded) = t.guests.get(usize::from(guest)).copied() else {
        return true;
    };
    let counts = holdings(t);
    let held = counts[usize::from(guest)];
    let all = occupancy::held_count(occupied(t));
    let others = owed(&t.guests, &counts, guest);
    (recorded.cap <= held) | (recorded.reserve <= held) & (128 <= all + others) | (128 <= all)
}

// A create of the guest is not NOSPC.
pub fn has_room(t: &model::Table, guest: u8) -> bool
    ensures { result ≡ not (full t.now guest) }
{
    !is_full(t, guest)
}

// The number that the guest's next session gets, if one is left.
pub fn next_number(recorded: model::Guest) -> Option<u64>
    ensures value { result ≡ next_number recorded.last }
    ensures number { unwrap_or result 0 ≡ number_after recorded.last }
{
    recorded.last.checked_add(1)
}

// The slot of a session. The rules bound every field but `aad` to a byte.
#[tactic(auto, unfolding(model::specs::Session::slot_of, crate::specs::Narrow::low))]
fn slot_of(guest: u8, number: u64, session: model::Session) -> model::Slot
    ensures { result ≡ slot_of (holding guest number (low session)) }
{
    model::Slot {
        number,
        aad: session.aad,
        owner: guest,
        service: (session.service % 256) as u8,
        algo: (session.algo % 256) as u8,
        direction: (session.direction % 256) as u8,
        keylen: (session.keylen % 256) as u8,
        result: (session.result % 256) as u8,
    }
}

// Replaces slot `at`, held or not; there is none above 127.
fn with_slot(t: &mut model::Table, at: usize, held: bool, slot: model::Slot)
    ensures { t.new ≡ with_slot t.old at (place_of held slot) }
{
    t.occupied = occupancy::with_mark(occupied(t), at, held);
    if at < 128 {
        t.slots[at] = slot;
    }
}

// Frees slot `at`.
#[tactic(auto, unfolding(model::specs::Session::slot_of))]
pub fn without_slot(t: &mut model::Table, at: usize)
    ensures { t.new ≡ with_slot t.old at free }
{
    with_slot(t, at, false, free_slot());
}

// Replaces a guest's record; one above 7 has none.
fn with_guest(t: &mut model::Table, guest: u8, recorded: model::Guest)
    ensures { t.new ≡ with_guest t.old guest recorded }
{
    let guests: &mut [model::Guest] = &mut t.guests;
    if usize::from(guest) < guests.len() {
        guests[usize::from(guest)] = recorded;
    }
}

// The guest's record with the last number given.
#[tactic(auto, unfolding(crate::specs::Narrow::lastly))]
fn with_last(recorded: model::Guest, number: u64) -> model::Guest
    ensures { result ≡ lastly recorded number }
{
    model::Guest {
        last: number,
        ..recorded
    }
}

// Stores a new session of the guest, whose record is given, in slot `at`; changes nothing where there is no such slot.
#[tactic(auto, unfolding(model::specs::Session::slot_of))]
pub fn granted(
    t: &mut model::Table,
    guest: u8,
    recorded: model::Guest,
    at: usize,
    number: u64,
    session: model::Session,
)
    ensures { t.new ≡ cond (ltb at 128) (with_guest (with_slot t.old at (holding guest number (low session))) guest (lastly recorded number)) t.old }
{
    if at < 128 {
        with_slot(t, at, true, slot_of(guest, number, session));
        with_guest(t, guest, with_last(recorded, number));
    }
}

// Frees every slot of the guest. A store only where a slot changes.
fn without_guest(t: &mut model::Table, guest: u8)
    ensures { t.new ≡ without t.old guest }
{
    let mut marks = occupied(t);
    for (at, slot) in t.slots.iter_mut().enumerate() {
        if owned_by(occupancy::is_held(marks, at), *slot, guest) {
            marks = occupancy::with_mark(marks, at, false);
            *slot = free_slot();
        }
    }
    t.occupied = marks;
}

// A guest's record after an attach.
#[tactic(auto, unfolding(model::specs::Act::restarted))]
fn restarted(recorded: model::Guest) -> model::Guest
    ensures { result ≡ restarted recorded }
{
    model::Guest {
        attached: true,
        last: 0,
        ..recorded
    }
}

// Attaches a guest: its slots are freed, and its numbers start anew.
#[tactic(auto, unfolding(model::specs::Act::table_after))]
pub fn attached(t: &mut model::Table, guest: u8)
    ensures { t.new ≡ table_after t.old guest attach }
{
    let recorded = restarted(guest_at(t, guest));
    without_guest(t, guest);
    with_guest(t, guest, recorded);
}
