// What the destinations of a lent station hold, what came to each in a call, and what left.
ghost use Rattle.std.specs.Prelude.{◌≡◌, true, [], ◌+◌, ◌*◌, ◌≤◌, ◌<◌, length, take};
ghost use Rattle.definition_station.specs.Types.{slot_of};
ghost use Rattle.definition_station.specs.Layout.{station_view, sound_station};
ghost use Rattle.reporting.specs.Reporting.{ways_of};
ghost use Rattle.stationcalls.specs.Parts.{lent_all, Within};
ghost use Rattle.stationrun.specs.StationRuns.{station_by};
ghost use Rattle.stationreport.specs.StationReporting.{holds_at, slot_is_queue};
ghost use Rattle.stationreport.specs.Gathering.{ListedFirst, part_blocks, HeldAll, came_to, part_gone};

use calls::Call;
use consumers::SubRow;
use entry::Row;
use report::Block;
use reportlines::Ways;
use stationcalls::Told;

// ---- what is held

// What the buffers of a place hold, put first in a list; how many blocks there are.
pub(crate) fn held_at(
    heads: &[u64],
    subs: &[SubRow],
    rows: &[Row],
    own: &[u64],
    k: usize,
    list: &mut [Block],
) -> usize
    requires { Within k heads.now subs.now rows.now × (20 ≤ length own.now) × (512 ≤ length list.old) }
    ensures { ListedFirst (part_blocks (lent_all heads.now subs.now rows.now own.now) k) 512 list.old result list.new }
{
    if own[k] == 0 {
        return 0;
    }
    let a = k * 8347;
    let b = a + 8347;
    let c = k * 32;
    let d = c + 32;
    let e = k * 512;
    let f = e + 512;
    report::blocks_in(&heads[a..b], &subs[c..d], &rows[e..f], list)
}

// That of every place, each with 512 places of the list; and how many blocks each has.
pub(crate) fn hold_all(
    heads: &[u64],
    subs: &[SubRow],
    rows: &[Row],
    own: &[u64],
    lists: &mut [Block],
    counts: &mut [u64],
)
    requires { Within 0 heads.now subs.now rows.now × (20 ≤ length own.now) × (length lists.old ≡ 4096) × (length counts.old ≡ 8) }
    ensures { HeldAll (lent_all heads.now subs.now rows.now own.now) lists.new counts.new }
{
    for j in 0..8 {
        let a = j * 512;
        let b = a + 512;
        let n = held_at(heads, subs, rows, own, j, &mut lists[a..b]);
        counts[j] = n as u64;
    }
}

// What a place holds, if it is a sound destination, put first in a list; how many blocks there are.
pub(crate) fn shown_at(
    heads: &[u64],
    subs: &[SubRow],
    rows: &[Row],
    own: &[u64],
    k: usize,
    list: &mut [Block],
) -> usize
    requires { Within k heads.now subs.now rows.now × (20 ≤ length own.now) × (512 ≤ length list.old) }
    ensures { ListedFirst (holds_at k (station_by (lent_all heads.now subs.now rows.now own.now) [])) 512 list.old result list.new }
{
    if own[k] != 1 {
        return 0;
    }
    let a = k * 8347;
    let b = a + 8347;
    let c = k * 32;
    let d = c + 32;
    let e = k * 512;
    let f = e + 512;
    let r = report::held(&heads[a..b], &subs[c..d], &rows[e..f], list);
    r.count
}

// How many blocks it holds in each way; none where there is no such place.
pub(crate) fn ways_at(
    heads: &[u64],
    subs: &[SubRow],
    rows: &[Row],
    own: &[u64],
    number: u64,
) -> Ways
    requires { Within 0 heads.now subs.now rows.now × (20 ≤ length own.now) }
    ensures { result ≡ ways_of (holds_at number (station_by (lent_all heads.now subs.now rows.now own.now) [])) }
{
    let mut list = [[0u64; 3]; 512];
    if 7 < number {
        return reporting::ways(&list, 0);
    }
    let n = shown_at(heads, subs, rows, own, number as usize, &mut list);
    reporting::ways(&list, n)
}

// Whether a number is that of an open queue.
pub(crate) fn is_queue(
    heads: &[u64],
    subs: &[SubRow],
    rows: &[Row],
    own: &[u64],
    number: u64,
) -> bool
    requires { Within 0 heads.now subs.now rows.now × (20 ≤ length own.now) }
    ensures { result ≡ slot_is_queue (slot_of number (station_view (lent_all heads.now subs.now rows.now own.now))) }
{
    if 7 < number {
        return false;
    }
    let k = number as usize;
    if own[k] == 0 {
        return false;
    }
    heads[k * 8347] == 0
}

// ---- what came

// The block that a direct enqueue on a place brought, if the call is one on this place.
fn brought(j: u64, number: u64, code: u64, words: [u64; 8], list: &mut [Block]) -> usize
    requires { 1 ≤ length list.old }
    ensures { ListedFirst (came_to j number code words []) 1 list.old result list.new }
{
    if number != j {
        return 0;
    }
    if code != Call::ENQUEUE {
        return 0;
    }
    let seq = words[0];
    let persistent = (words[2] == 1) as u64;
    list[0] = [seq, report::WAITING, persistent];
    1
}

// What came to a place in a call on the place of this number: its own block, and the letters that are stored there, by the first n rows of what is told.
pub(crate) fn came_at(
    told: &[Told],
    n: usize,
    j: u64,
    number: u64,
    code: u64,
    words: [u64; 8],
    list: &mut [Block],
) -> usize
    requires { (n ≤ length told.now) × (n + 1 ≤ length list.old) }
    ensures { ListedFirst (came_to j number code words (take n told.now)) (n + 1) list.old result list.new }
{
    let mut k = brought(j, number, code, words, list);
    for i in 0..n {
        let t = told[i];
        if t[2] == j {
            list[k] = [t[1], report::WAITING, 1];
            k += 1;
        }
    }
    k
}

// ---- what left

// What left a place, where n blocks were held before the call and m came: put first in a list; how many.
pub(crate) fn leave_at(
    heads: &[u64],
    subs: &[SubRow],
    rows: &[Row],
    own: &[u64],
    j: usize,
    before: &[Block],
    n: usize,
    came: &[Block],
    m: usize,
    code: u64,
    words: [u64; 8],
    left: &mut [Block],
) -> usize
    requires within { Within j heads.now subs.now rows.now × (20 ≤ length own.now) }
    requires n_in_bounds { (n ≤ length before.now) × (m ≤ length came.now) × (n + m ≤ length left.old) }
    requires own_value { sound_station (lent_all heads.now subs.now rows.now own.now) ≡ true }
    ensures { ListedFirst (part_gone j code words (lent_all heads.now subs.now rows.now own.now) (take n before.now) (take m came.now)) (n + m) left.old result left.new }
{
    if !is_queue(heads, subs, rows, own, j as u64) {
        return 0;
    }
    let mut held = [[0u64; 3]; 512];
    let k = held_at(heads, subs, rows, own, j, &mut held);
    let next = report::leavers(before, n, &held, k, code, words, left, 0);
    report::leavers(came, m, &held, k, code, words, left, next)
}
