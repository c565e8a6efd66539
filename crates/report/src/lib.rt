// A call with the account of a queue's blocks beside it, in two lent lists: those that the queue holds, and those that leave in the call.
#![tactic(auto)]

ghost use Rattle.std.specs.Prelude.{◌≡◌, false, [], map, ◌+◌, ◌<◌, ◌≤◌, length, take, drop, is_some, IfSome};
ghost use Rattle.std.proofs.lemmas.List.Edits.{sets};
ghost use Rattle.std.proofs.Math.Seq.{slice};
ghost use Rattle.entry.specs.Entry.{entry_of};
ghost use Rattle.definition.specs.Base.{whether◌then◌else◌, tally, member};
ghost use Rattle.definition.specs.Types.{queue};
ghost use Rattle.definition.specs.Calls.{taken};
ghost use Rattle.definition.specs.Words.{at};
ghost use Rattle.definition.specs.Layout.{flag, subs_at, sub_rows, lent};
ghost use Rattle.state.specs.State.{head_view};
ghost use Rattle.fates.specs.Blocks.{block_at, held_blocks, acked_as, leaves_as, went_as, comes};
ghost use Rattle.report.specs.Report.{is_at_place, lists_short, noted_step, NotedCall, list_with, as_held, held_list, blocks_in, row_block, leavers_of, leavers_put, all_leavers, HeldNumbers, AccountKept};

use calls::Call;
use consumers::{BROWSER, INFLIGHT, SubRow};
use entry::Row;
use state::{Event, Head};

// A sequence number, the number of a place, and whether it is persistent (0 or 1).
pub type Block = [u64; 3];

// The places: held in one of three ways, or gone in one of five. Numbers: C has them in a block.
pub const WAITING: u64 = 0;

pub const IN_FLIGHT: u64 = 1;

pub const RESERVED: u64 = 2;

pub const DEQUEUED: u64 = 3;

pub const EXPIRED: u64 = 4;

pub const DISCARDED: u64 = 5;

pub const DEAD_LETTERED: u64 = 6;

pub const CLEARED: u64 = 7;

// What the two lists want.
pub const HELD_MOST: usize = 512;

pub const LEFT_MOST: usize = 513;

// The refusal (0: accepted), the answer, how many events were written, how many blocks are held, and how many left. Flat, as C has it.
#[repr(C)]
#[derive(Clone, Copy)]
pub struct Noted {
    pub refusal: u64,
    pub answer: u64,
    pub events: usize,
    pub held: usize,
    pub left: usize,
}

// The refusal (0: listed), and how many blocks there are, 0 beside a refusal. Flat, as C has it.
#[repr(C)]
#[derive(Clone, Copy)]
pub struct Listed {
    pub refusal: u64,
    pub count: usize,
}

// ---- how a block leaves

// An acknowledgement's own removals, by the byte of its type.
fn acked_as(kind: u64) -> u64
    ensures { result ≡ acked_as kind }
{
    if kind == 1 {
        return DEAD_LETTERED;
    }
    if kind == 6 {
        return EXPIRED;
    }
    DEQUEUED
}

// In a call of this code, with this word of an acknowledgement, if it waited or not.
fn leaves_as(code: u64, word: u64, waited: bool) -> u64
    ensures { result ≡ leaves_as code word waited }
{
    if code == Call::CLEAR {
        return CLEARED;
    }
    if code != Call::ACK {
        return EXPIRED;
    }
    if waited {
        return EXPIRED;
    }
    acked_as(word % 256)
}

// A block that leaves, with the place where it goes.
fn went(b: Block, code: u64, words: [u64; 8]) -> Block
    ensures { result ≡ went_as code words b }
{
    let seq = b[0];
    let persistent = b[2];
    let place = leaves_as(code, words[3], b[1] == 0);
    [seq, place, persistent]
}

// ---- what a queue holds

// The block of a row.
fn block_of(row: Row, place: u64) -> Block
    ensures { result ≡ row_block place row }
{
    let seq = row[0];
    let persistent = (row[2] != 0) as u64;
    [seq, place, persistent]
}

// Those of n rows from place from, into out from place start.
fn gather(rows: &[Row], from: usize, n: usize, place: u64, out: &mut [Block], start: usize)
    requires n_in_bounds { from + n ≤ length rows.now }
    requires n_bound { start + n ≤ (length out.old) }
    ensures { out.new ≡ sets out.old start (map (row_block place) (take n (drop from rows.now))) }
{
    for i in 0..n {
        out[start + i] = block_of(rows[from + i], place);
    }
}

// How many rows of a consumer are in flight; a browser's are copies.
fn taken_of(w: SubRow) -> usize
    ensures { result ≡ (whether flag (at 6 w) then 0 else at 14 w) }
{
    if w[BROWSER] != 0 {
        return 0;
    }
    w[INFLIGHT] as usize
}

// What is in flight at the first n consumers, browsers apart, into out from place start; the place after them.
fn gather_taken(subs: &[SubRow], n: usize, rows: &[Row], out: &mut [Block], start: usize) -> usize
    requires n_in_bounds { n ≤ length subs.now }
    requires subs_in_bounds { sub_rows (take n subs.now) ≤ length rows.now }
    requires subs_bound { start + sub_rows (take n subs.now) ≤ (length out.old) }
    ensures value { result ≡ start + length (taken (subs_at queue (take n subs.now) rows.now)) }
    ensures upper_bound { result ≤ start + sub_rows (take n subs.now) }
    ensures out_after { out.new ≡ sets out.old start (map (block_at 1) (taken (subs_at queue (take n subs.now) rows.now))) }
{
    let mut end = start;
    let mut base = 0;
    for i in 0..n {
        let w = subs[i];
        let k = taken_of(w);
        gather(rows, base, k, IN_FLIGHT, out, end);
        end += k;
        base += w[INFLIGHT] as usize + w[consumers::HELD] as usize;
    }
    end
}

// All that a queue holds, into out; how many they are.
fn gather_all(d: Head, subs: &[SubRow], rows: &[Row], out: &mut [Block]) -> usize
    requires held_numbers { HeldNumbers d subs.now rows.now }
    requires do_bound { 512 ≤ (length out.old) }
    ensures value { result ≡ length (held_blocks (head_view d subs.now rows.now [] [])) }
    ensures upper_bound { result ≤ 512 }
    ensures out_after { out.new ≡ sets out.old 0 (held_blocks (head_view d subs.now rows.now [] [])) }
{
    let waiting = d.waiting;
    let reserved = d.reserved;
    let first = d.first_waiting();
    let before = d.first_reserved();
    gather(rows, first, waiting, WAITING, out, 0);
    gather(rows, before, reserved, RESERVED, out, waiting);
    gather_taken(subs, d.consumers, rows, out, waiting + reserved)
}

// ---- what leaves

// Where the first of blocks[from..to] with the number stands.
fn seek(blocks: &[Block], from: usize, to: usize, seq: u64) -> Option<usize>
    requires from_le_to { from ≤ to }
    requires to_bound { to ≤ (length blocks.now) }
    ensures found { is_some result ≡ member seq (map (at 0) (slice from to blocks.now)) }
    ensures place { IfSome result (λ k. k < to) }
{
    for i in from..to {
        if blocks[i][0] == seq {
            return Some(i);
        }
    }
    None
}

// Where the number stands among the first n blocks, looked for from the hint on and then before it.
fn find(blocks: &[Block], n: usize, seq: u64, hint: usize) -> Option<usize>
    requires hint_le_n { hint ≤ n }
    requires n_bound { n ≤ (length blocks.now) }
    ensures found { is_some result ≡ member seq (map (at 0) (take n blocks.now)) }
    ensures place { IfSome result (λ k. k < n) }
{
    match seek(blocks, hint, n, seq) {
        Some(place) => Some(place),
        None => seek(blocks, 0, hint, seq),
    }
}

// Of the first n blocks those whose number is none of the first m that are held now, into left from place start; the place after them. A block that stays is
// nearly always the next one.
fn leave(
    blocks: &[Block],
    n: usize,
    held: &[Block],
    m: usize,
    code: u64,
    words: [u64; 8],
    left: &mut [Block],
    start: usize,
) -> usize
    requires n_bound { n ≤ (length blocks.now) }
    requires m_bound { m ≤ (length held.now) }
    requires n_bound_2 { start + n ≤ (length left.old) }
    ensures value { result ≡ start + length (leavers_of code words (take m held.now) (take n blocks.now)) }
    ensures upper_bound { result ≤ start + n }
    ensures left_after { left.new ≡ sets left.old start (leavers_of code words (take m held.now) (take n blocks.now)) }
{
    let mut hint = 0;
    let mut k = start;
    for i in 0..n {
        let b = blocks[i];
        match find(held, m, b[0], hint) {
            Some(place) => hint = place + 1,
            None => {
                left[k] = went(b, code, words);
                k += 1;
            }
        }
    }
    k
}

// The block that an enqueue brings, where it is not held, after k that leave; how many leave then.
fn leave_new(
    held: &[Block],
    m: usize,
    code: u64,
    words: [u64; 8],
    left: &mut [Block],
    k: usize,
) -> usize
    requires m_bound { m ≤ (length held.now) }
    requires k_bound { k + 1 ≤ (length left.old) }
    ensures value { result ≡ k + length (leavers_of code words (take m held.now) (comes code words)) }
    ensures upper_bound { result ≤ k + 1 }
    ensures left_after { left.new ≡ sets left.old k (leavers_of code words (take m held.now) (comes code words)) }
{
    if code != Call::ENQUEUE {
        return k;
    }
    let seq = words[0];
    let persistent = (words[2] == 1) as u64;
    if find(held, m, seq, 0).is_some() {
        return k;
    }
    left[k] = went([seq, WAITING, persistent], code, words);
    k + 1
}

// All that leave in a call, where n blocks were held before and m are held now.
fn leave_all(
    blocks: &[Block],
    n: usize,
    held: &[Block],
    m: usize,
    code: u64,
    words: [u64; 8],
    left: &mut [Block],
) -> usize
    requires n_bound { n ≤ (length blocks.now) }
    requires m_bound { m ≤ (length held.now) }
    requires n_bound_2 { n + 1 ≤ (length left.old) }
    ensures value { result ≡ length (all_leavers code words (take m held.now) (take n blocks.now)) }
    ensures upper_bound { result ≤ n + 1 }
    ensures left_after { left.new ≡ sets left.old 0 (all_leavers code words (take m held.now) (take n blocks.now)) }
{
    if code == Call::OPEN {
        return 0;
    }
    let k = leave(blocks, n, held, m, code, words, left, 0);
    leave_new(held, m, code, words, left, k)
}

// ---- a call

// How many are held, and how many left.
#[derive(Clone, Copy)]
struct Moved {
    held: usize,
    left: usize,
}

// The lists after an accepted call that left this queue.
fn account(
    d: Head,
    subs: &[SubRow],
    rows: &[Row],
    held: &mut [Block],
    n: usize,
    left: &mut [Block],
    code: u64,
    words: [u64; 8],
) -> Moved
    requires held_numbers { HeldNumbers d subs.now rows.now }
    requires left_value { lists_short n (length held.old) (length left.old) ≡ false }
    ensures { AccountKept d subs.now rows.now code words n held.old held.new left.old left.new result.held result.left }
{
    let mut fresh = [[0u64; 3]; 512];
    let m = gather_all(d, subs, rows, &mut fresh);
    let k = leave_all(held, n, &fresh, m, code, words, left);
    held[..m].copy_from_slice(&fresh[..m]);
    Moved { held: m, left: k }
}

// Whether the lists have too few places, or more are in use than a destination holds.
fn lists_short(n: usize, held: usize, left: usize) -> bool
    ensures { result ≡ lists_short n held left }
{
    (held < HELD_MOST) | ((left < LEFT_MOST) | (HELD_MOST < n))
}

// A call of document 01, as `engine::call` makes it, with the first n blocks of held as those that the destination holds. Where it is accepted, held has
// those that it holds now, and left those that left, each with the place where it went; beside a refusal both are as they were. After an open begins a new
// account, and a topic has none. Short lists get 1.
pub fn call(
    head: &mut [u64],
    subs: &mut [SubRow],
    rows: &mut [Row],
    events: &mut [Event],
    held: &mut [Block],
    n: usize,
    left: &mut [Block],
    c: Call,
) -> Noted
    ensures { NotedCall (noted_step (lent head.old subs.old rows.old) (length events.old) n (length held.old) (length left.old) c) c n (lent head.old subs.old rows.old) (lent head.new subs.new rows.new) events.old events.new held.old held.new left.old left.new result }
{
    if lists_short(n, held.len(), left.len()) {
        return Noted {
            refusal: 1,
            answer: 0,
            events: 0,
            held: n,
            left: 0,
        };
    }
    let out = engine::call(head, subs, rows, events, c);
    let noted = Noted {
        refusal: out.refusal,
        answer: out.answer,
        events: out.events,
        held: n,
        left: 0,
    };
    if out.refusal != 0 {
        return noted;
    }
    let d = state::load(head, subs);
    if !d.queue {
        return Noted { held: 0, ..noted };
    }
    let moved = account(d, subs, rows, held, n, left, c.code, c.words);
    Noted {
        held: moved.held,
        left: moved.left,
        ..noted
    }
}

// ---- queries

// What a destination holds, for a host that takes over one that runs: what `call` would have left in its list. A list under 512 or a short buffer gets 1, a
// state that is not sound 2; nothing is written then.
pub fn held(head: &[u64], subs: &[SubRow], rows: &[Row], list: &mut [Block]) -> Listed
    ensures value { result ≡ as_held (lent head.now subs.now rows.now) (length list.old) }
    ensures list_after { list.new ≡ held_list (lent head.now subs.now rows.now) list.old }
{
    if list.len() < HELD_MOST {
        return Listed {
            refusal: 1,
            count: 0,
        };
    }
    if !sound::whole(head, subs, rows) {
        return Listed {
            refusal: 1,
            count: 0,
        };
    }
    if !sound::sound(head, subs, rows) {
        return Listed {
            refusal: 2,
            count: 0,
        };
    }
    let count = blocks_in(head, subs, rows, list);
    Listed { refusal: 0, count }
}

// The same of whatever words, for a host that knows them for a state: the whole test of soundness is not made, only that the counts are within the tables, as
// those of each sound state are. How many blocks are put first in the list; none where the list has under 512 places, a buffer is short, or the counts do not fit.
pub fn blocks_in(head: &[u64], subs: &[SubRow], rows: &[Row], list: &mut [Block]) -> usize
    ensures value { result ≡ length (blocks_in (lent head.now subs.now rows.now) (length list.old)) }
    ensures upper_bound { result ≤ 512 }
    ensures list_after { list.new ≡ list_with (blocks_in (lent head.now subs.now rows.now) (length list.old)) list.old }
{
    if list.len() < HELD_MOST {
        return 0;
    }
    if !sound::whole(head, subs, rows) {
        return 0;
    }
    let d = state::load(head, subs);
    if state::CONSUMERS < d.consumers {
        return 0;
    }
    if state::ROWS < d.used {
        return 0;
    }
    if !d.queue {
        return 0;
    }
    gather_all(d, subs, rows, list)
}

// Of the first n blocks those whose number is none of the first m of held, each with the place where it goes in a call of this code and these words, into left
// from place start; the place after them. Where left has no place for each of the n from there on, nothing is put.
pub fn leavers(
    blocks: &[Block],
    n: usize,
    held: &[Block],
    m: usize,
    code: u64,
    words: [u64; 8],
    left: &mut [Block],
    start: usize,
) -> usize
    ensures value { result ≡ start + length (leavers_put code words (take m held.now) (take n blocks.now) start (length left.old)) }
    ensures upper_bound { result ≤ start + n }
    ensures left_after { left.new ≡ sets left.old start (leavers_put code words (take m held.now) (take n blocks.now) start (length left.old)) }
{
    let end = n.min(blocks.len());
    let among = m.min(held.len());
    if left.len() < end {
        return start;
    }
    if left.len() - end < start {
        return start;
    }
    leave(blocks, end, held, among, code, words, left, start)
}

// How many of the first n blocks are at a place.
pub fn total(blocks: &[Block], n: usize, place: u64) -> usize
    ensures { result ≡ tally (is_at_place place) (take n blocks.now) }
{
    let mut count = 0;
    // A loop: `filter` with `count` takes three times as long.
    for b in &blocks[..n.min(blocks.len())] {
        if b[1] == place {
            count += 1;
        }
    }
    count
}
