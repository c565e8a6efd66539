// Whether the head of lent buffers is that of a sound state: its own words, and the rings of its audits.
#![tactic(auto)]

ghost use Rattle.std.specs.Prelude.{◌≡◌, ◌≤◌, length, drop};
ghost use Rattle.definition.specs.Calls.{counters_ok};
ghost use Rattle.definition.specs.Layout.{stats_at, rings_formed};
ghost use Rattle.heads.specs.Heads.{limits_ok, counts_ok, marks_ok, head_ok, head_sound};

use audit::Audit;
use entry::{ALLOWANCE_MOST, CALLS_MOST};

fn limits_ok(head: &[u64]) -> bool
    requires { 8347 ≤ length head.now }
    ensures { result ≡ limits_ok head.now }
{
    let limit = head[2];
    let share = head[8346];
    (1 <= limit)
        & ((limit <= CALLS_MOST)
            & ((head[3] <= limit)
                & ((head[1] <= 512)
                    & ((head[8345] <= ALLOWANCE_MOST) & ((1 <= share) & (share <= 512))))))
}

fn counts_ok(head: &[u64]) -> bool
    requires { 8347 ≤ length head.now }
    ensures { result ≡ counts_ok head.now }
{
    let n = head[12];
    let turn = head[4];
    (n <= 32) & ((head[13] <= 32) & ((head[14] <= 8) & ((turn < n) | (turn == 0))))
}

// The kind and whether it is idle, and since when.
fn marks_ok(head: &[u64]) -> bool
    requires { 8347 ≤ length head.now }
    ensures { result ≡ marks_ok head.now }
{
    let idle = head[5];
    (head[0] <= 1) & ((idle <= 1) & ((idle == 0) | (head[6] <= entry::CLOCK_MOST)))
}

fn counters_ok(head: &[u64], most: u64) -> bool
    requires { 8347 ≤ length head.now }
    ensures { result ≡ counters_ok most (stats_at head.now) }
{
    (head[7] <= most)
        & ((head[8] <= most)
            & ((head[9] <= most) & ((head[10] <= most) & ((head[11] <= most) & true))))
}

fn head_ok(head: &[u64]) -> bool
    requires { 8347 ≤ length head.now }
    ensures { result ≡ head_ok head.now }
{
    if !limits_ok(head) {
        return false;
    }
    counts_ok(head) & (marks_ok(head) & counters_ok(head, 65536 * head[3] + 1))
}

// Each of n audits.
fn rings_ok(head: &[u64], n: u64) -> bool
    requires in_bounds { 8347 ≤ length head.now }
    requires n_bound { n ≤ 8 }
    ensures { result ≡ rings_formed n (drop 113 head.now) }
{
    for k in 0..n as usize {
        let from = 113 + 1029 * k;
        let ring = Audit {
            start: head[from + 3] as usize,
            count: head[from + 4] as usize,
        };
        if !ring.sound() {
            return false;
        }
    }
    true
}

// Whether it is long enough, and all of this.
pub fn sound(head: &[u64]) -> bool
    ensures { result ≡ head_sound head.now }
{
    if head.len() < 8347 {
        return false;
    }
    if !head_ok(head) {
        return false;
    }
    rings_ok(head, head[14])
}
