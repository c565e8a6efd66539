// A destination's part of each lent buffer: each call of it is made on these parts.
ghost use Rattle.std.specs.Prelude.{◌≡◌, List, ℕ, length};
ghost use Rattle.definition.specs.Calls.{discarding, missing};
ghost use Rattle.definition.specs.Layout.{buffer_step, buffer_call, sound_buffers};
ghost use Rattle.rejects.specs.Rejects.{buffer_rejected, Copied};
ghost use Rattle.definition_station.specs.Layout.{part};
ghost use Rattle.stationcalls.specs.Parts.{lent_all, Within, CalledAt};

use calls::Call;
use consumers::SubRow;
use engine::Outcome;
use entry::Row;
use state::Event;

// The lengths of one part.
const HEAD: usize = 8347;

const SUB: usize = 32;

const ROW: usize = 512;

// Whether the destination at a place is sound.
pub(crate) fn sound(heads: &[u64], subs: &[SubRow], rows: &[Row], k: usize) -> bool
    requires { Within k heads.now subs.now rows.now }
    ensures { (own : List ℕ) → result ≡ sound_buffers (part k (lent_all heads.now subs.now rows.now own)) }
{
    let a = k * HEAD;
    let b = a + HEAD;
    let c = k * SUB;
    let d = c + SUB;
    let e = k * ROW;
    let f = e + ROW;
    sound::sound(&heads[a..b], &subs[c..d], &rows[e..f])
}

// A call of the destination at a place.
pub(crate) fn call(
    heads: &mut [u64],
    subs: &mut [SubRow],
    rows: &mut [Row],
    events: &mut [Event],
    k: usize,
    call: Call,
) -> Outcome
    requires { Within k heads.old subs.old rows.old }
    ensures { (own : List ℕ) → CalledAt (buffer_step (part k (lent_all heads.old subs.old rows.old own)) (length events.old) call.code call.words) k (lent_all heads.old subs.old rows.old own) (lent_all heads.new subs.new rows.new own) events.old events.new result }
{
    let a = k * HEAD;
    let b = a + HEAD;
    let c = k * SUB;
    let d = c + SUB;
    let e = k * ROW;
    let f = e + ROW;
    engine::call(
        &mut heads[a..b],
        &mut subs[c..d],
        &mut rows[e..f],
        events,
        call,
    )
}

// The persistent entries that a call of the destination at a place would reject, at the front of a list; how many they are.
pub(crate) fn rejected(
    heads: &[u64],
    subs: &[SubRow],
    rows: &[Row],
    k: usize,
    call: Call,
    out: &mut [Row],
) -> usize
    requires { Within k heads.now subs.now rows.now }
    ensures { (own : List ℕ) → Copied (buffer_rejected (part k (lent_all heads.now subs.now rows.now own)) (length out.old) call.code call.words) result out.old out.new }
{
    let a = k * HEAD;
    let b = a + HEAD;
    let c = k * SUB;
    let d = c + SUB;
    let e = k * ROW;
    let f = e + ROW;
    rejects::rejected(&heads[a..b], &subs[c..d], &rows[e..f], call, out)
}

// `Dest::add_discarded` of the destination at a place.
pub(crate) fn add_discarded(
    heads: &mut [u64],
    subs: &mut [SubRow],
    rows: &mut [Row],
    events: &mut [Event],
    k: usize,
) -> Outcome
    requires { Within k heads.old subs.old rows.old }
    ensures { (own : List ℕ) → CalledAt (buffer_call (part k (lent_all heads.old subs.old rows.old own)) (length events.old) discarding) k (lent_all heads.old subs.old rows.old own) (lent_all heads.new subs.new rows.new own) events.old events.new result }
{
    let a = k * HEAD;
    let b = a + HEAD;
    let c = k * SUB;
    let d = c + SUB;
    let e = k * ROW;
    let f = e + ROW;
    uncoded::add_discarded(&mut heads[a..b], &mut subs[c..d], &mut rows[e..f], events)
}

// `Dest::expired_before_storing` of it.
pub(crate) fn expired_before_storing(
    heads: &mut [u64],
    subs: &mut [SubRow],
    rows: &mut [Row],
    events: &mut [Event],
    k: usize,
) -> Outcome
    requires { Within k heads.old subs.old rows.old }
    ensures { (own : List ℕ) → CalledAt (buffer_call (part k (lent_all heads.old subs.old rows.old own)) (length events.old) missing) k (lent_all heads.old subs.old rows.old own) (lent_all heads.new subs.new rows.new own) events.old events.new result }
{
    let a = k * HEAD;
    let b = a + HEAD;
    let c = k * SUB;
    let d = c + SUB;
    let e = k * ROW;
    let f = e + ROW;
    uncoded::expired_before_storing(&mut heads[a..b], &mut subs[c..d], &mut rows[e..f], events)
}
