// The sending of a slot: least deadline first, ties to the lower session, up to c packets.
#![tactic(auto)]

ghost use Rattle.std.specs.Prelude.{◌≡◌, ℕ, ◌+◌, ◌*◌, ◌≤◌, ◌<◌, length, ◌↔◌, IsTrue, MatchOption};
ghost use Rattle.sheet.specs.Limits.{most_capacity, most_sessions};
ghost use Rattle.layout.specs.Layout.{run_numbers};
ghost use Rattle.send.specs.Choice.{Waits, sent_of, head_due, beats, chosen_to, chosen, Found};
ghost use Rattle.send.specs.Send.{note_numbers, note, raised, SentAll};

use layout::{DEADLINES_AT, RING, SENT_AT, TAKEN_AT};

// Three numbers note a packet: its session from 1, its own number, its deadline.
pub const NOTE_NUMBERS: usize = 3;

const SESSION_AT: usize = 0;

const PACKET_AT: usize = 1;

const DEADLINE_AT: usize = 2;

// Does a packet of the session wait? Sessions count from 0.
fn waits(run: &[u32], session: usize) -> bool
    requires { (session < most_sessions) × (run_numbers ≤ length run.now) }
    ensures { IsTrue result ↔ Waits run.now session }
{
    let block = layout::block(run, session);
    block[SENT_AT] < block[TAKEN_AT]
}

// The deadline of the first waiting packet of a session.
fn head_due(run: &[u32], session: usize) -> u32
    requires { (session < most_sessions) × (run_numbers ≤ length run.now) }
    ensures { result ≡ head_due run.now session }
{
    let block = layout::block(run, session);
    let place = (block[SENT_AT] % RING) as usize;
    block[DEADLINES_AT + place]
}

// A session goes before the best found so far, whose deadline is the least of them.
fn beats(run: &[u32], least: u32, session: usize) -> bool
    requires { (session < most_sessions) × (run_numbers ≤ length run.now) }
    ensures { (count best : ℕ) → best < count → least ≡ head_due run.now best → result ≡ beats run.now count best session }
{
    waits(run, session) && head_due(run, session) < least
}

// The first session of which a packet waits.
fn first_waiting(run: &[u32], count: usize) -> Option<usize>
    requires { (count ≤ most_sessions) × (run_numbers ≤ length run.now) }
    ensures { MatchOption result (chosen run.now count ≡ count) (λ session. (session < count) × (chosen_to run.now count (session + 1) ≡ session)) }
{
    for session in 0..count {
        if waits(run, session) {
            return Some(session);
        }
    }
    None
}

// The session whose first waiting packet goes next; none where no packet waits.
pub fn pick(run: &[u32], count: usize) -> Option<usize>
    requires { (count ≤ most_sessions) × (run_numbers ≤ length run.now) }
    ensures { Found count result (chosen run.now count) }
{
    let mut best = first_waiting(run, count)?;
    let mut least = head_due(run, best);
    for session in best + 1..count {
        if beats(run, least, session) {
            best = session;
            least = head_due(run, session);
        }
    }
    Some(best)
}

// The k-th note, counted from 0.
fn note(notes: &mut [u32], k: usize, session: u32, packet: u32, deadline: u32)
    requires { (k < most_capacity) × (note_numbers * (k + 1) ≤ length notes.old) }
    ensures { notes.new ≡ note notes.old k session packet deadline }
{
    // number by number: `copy_from_slice` takes them by way of memory, and is slower
    let at = NOTE_NUMBERS * k;
    notes[at + SESSION_AT] = session;
    notes[at + PACKET_AT] = packet;
    notes[at + DEADLINE_AT] = deadline;
}

// The first waiting packet of a session goes; the answer is its number.
fn raise(run: &mut [u32], session: usize) -> u32
    requires { (session < most_sessions) × (run_numbers ≤ length run.old) × Waits run.old session }
    ensures { (result ≡ sent_of run.old session + 1) × (run.new ≡ raised run.old session) }
{
    let sent = &mut run[layout::block_range(session).start + SENT_AT];
    *sent += 1;
    *sent
}

// Up to c packets go, each with its note in `sent`. The answer is how many went.
pub fn send(run: &mut [u32], sent: &mut [u32], count: usize, c: usize) -> usize
    requires { (count ≤ most_sessions) × (run_numbers ≤ length run.old) × (c ≤ most_capacity) × (note_numbers * c ≤ length sent.old) }
    ensures { SentAll run.old sent.old count c run.new sent.new result }
{
    for k in 0..c {
        let Some(session) = pick(run, count) else {
            return k;
        };
        let due = head_due(run, session);
        let packet = raise(run, session);
        note(sent, k, session as u32 + 1, packet, due);
    }
    c
}
