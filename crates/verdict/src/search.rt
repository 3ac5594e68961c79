// The search for a failing slot count: a walk over slot counts, at each the load of all sessions, and of each session the least of its shares.
ghost use Rattle.std.specs.Prelude.{◌≡◌, ◌-◌, ◌≤◌, length, get_or};
ghost use Rattle.curve.specs.Least.{least};
ghost use Rattle.verdict.specs.Verdict.{told, Says};

use crate::Verdict;
use crate::window::{ROW_PLACES, SESSION_PLACES, WINDOW_PLACES, window};
use curve::{Packets, Slots};
use sheet::limits::LONGEST_TABLE;
use sheet::whole::Sheet;

// The walk over slot counts has settled here at the latest; the proofs say why.
const WALK_END: u32 = 131216;
// Past this slot count no two tables of a session reach, so the loads bend.
const BOTH_TABLES: u32 = 128;

// The slot counts of a window that lie ahead of the last one that a session's shares need.
const AHEAD: u32 = 127;

// The least of some numbers.
fn least_of(tries: &[u32]) -> u32
    requires { 1 ≤ length tries.now }
    ensures { result ≡ least (λ i. get_or tries.now i 0) (length tries.now - 1) }
{
    let mut best = tries[0];
    for i in 1..tries.len() {
        best = best.min(tries[i]);
    }
    best
}

// The search, which stops at the first failing slot count.
pub fn search(sheet: &Sheet<'_>) -> Verdict
    ensures { Says sheet.now.bytes.now (told result) }
{
    let count = sheet.count();
    let p = sheet.period().0;
    let each = sheet.capacity().0;
    // The values at 0, 1, .. and those at end, end - 1, ..: x goes up in both, so that the positions take numbers that stand side by side.
    let mut firsts = [0u32; WINDOW_PLACES];
    window(sheet, 0, &mut firsts);
    let mut recent = [0u32; WINDOW_PLACES];
    let mut end: u32 = 0;
    let mut tries = [0u32; 65];
    let mut loads = [0u32; 16];
    // Above any slack of slot count 1, so the first slot count gives the first slack.
    let mut slack = each + 1;
    let mut first: u32 = 0;
    let mut steady: u32 = 0;
    let mut failing: Option<Slots> = None;
    'slots: for t in 1..WALK_END + 1 {
        let top = t.min(LONGEST_TABLE);
        if end < t {
            end = t + AHEAD - top;
            window(sheet, end, &mut recent);
        }
        let last = top as usize;
        let ahead = (end - t) as usize;
        let mut load: u32 = 0;
        'sessions: for i in 0..count {
            'positions: for x in 0..last + 1 {
                let here = SESSION_PLACES * i + x;
                let back = here + ahead;
                let one = firsts[here] + recent[back + ROW_PLACES];
                let two = recent[back] + firsts[here + ROW_PLACES];
                tries[x] = one.min(two);
            }
            load += least_of(&tries[..last + 1]);
        }
        let most = each * t;
        if most < load {
            failing = Some(Slots(t));
            break 'slots;
        }
        let spare = most - load;
        if spare < slack {
            slack = spare;
            first = t;
        }
        if BOTH_TABLES < t {
            let limit = loads[((t - p) % 16) as usize] + each * p;
            if load <= limit {
                steady += 1;
                if steady == p {
                    break 'slots;
                }
            } else {
                steady = 0;
            }
        }
        loads[(t % 16) as usize] = load;
    }
    match failing {
        None => Verdict::Passed(Packets(slack), Slots(first)),
        Some(t) => Verdict::Failed(t),
    }
}
