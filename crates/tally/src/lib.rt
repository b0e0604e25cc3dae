// Replay's two counts: the records answered, and the answers 0 among them.
#![tactic(auto)]

ghost use Rattle.std.specs.Prelude.{◌≡◌};
ghost use Rattle.tally.specs.Count.{after_answer, none};

#[derive(Clone, Copy)]
pub struct Tally {
    pub records: u32,
    pub granted: u32,
}

// The tally of no records.
pub fn empty() -> Tally
    ensures { result ≡ none }
{
    Tally {
        records: 0,
        granted: 0,
    }
}

// The tally after one more answer; the largest number stays.
fn counted(t: Tally, answer: u8) -> Tally
    ensures { result ≡ after_answer t answer }
{
    let records = t.records.saturating_add(1);
    let granted = if answer == model::OK {
        t.granted.saturating_add(1)
    } else {
        t.granted
    };
    Tally { records, granted }
}

// Counts one more answer, in place.
pub fn count(t: &mut Tally, answer: u8)
    ensures { t.new ≡ after_answer t.old answer }
{
    *t = counted(*t, answer);
}

// The same by value: lends a copy to `count` and hands it back.
pub fn count_copy(t: Tally, answer: u8) -> Tally
    ensures { result ≡ after_answer t answer }
{
    let mut own = t;
    count(&mut own, answer);
    own
}
