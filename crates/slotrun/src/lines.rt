// The lines of the print-out, each put behind the text of a page.
ghost use Rattle.std.specs.Prelude.{◌+◌, ◌≤◌, length};
ghost use Rattle.slotrun.specs.Text.{nexts, passed_line, packet_line, packet_lines, total_line, end_text};
ghost use Rattle.slotrun.specs.Shows.{slot_bytes};
ghost use Rattle.console.specs.Put.{Put};
ghost use Rattle.console.specs.Text.{line_bytes};

use console::text::Text;
use curve::{Packets, Slots};
use run::tally::Tally;

// A slot sends at most 64 packets, and three numbers are told of each.
pub const NOTES: usize = 192;

// The figures of the sessions.
fn put_figures<const N: usize>(page: &mut Text<N>, figures: &[Slots; 16], count: usize)
    requires { (count ≤ 16) × (length page.old + 176 ≤ N) }
    ensures put { Put page.old (nexts figures.now count) page.new }
    ensures few { length page.new ≤ length page.old + 176 }
{
    for figure in &figures[..count] {
        page.put_next(figure.0);
    }
}

// The first line: the slack, its t, and the figures of the sessions.
#[tactic(auto, unfolding(crate::specs::Text::passed_line))]
pub fn put_passed<const N: usize>(
    page: &mut Text<N>,
    slack: Packets,
    t: Slots,
    figures: &[Slots; 16],
    count: usize,
)
    requires { (count ≤ 16) × (length page.old + line_bytes ≤ N) }
    ensures put { Put page.old (passed_line slack.0 t.0 figures.now count) page.new }
    ensures few { length page.new ≤ length page.old + line_bytes }
{
    page.put_text(b"passed");
    page.put_next(slack.0);
    page.put_next(t.0);
    put_figures(page, figures, count);
    page.put_end();
}

// A packet sent: its slot, its session, its number and its deadline.
#[tactic(auto, unfolding(crate::specs::Text::packet_line))]
fn put_packet<const N: usize>(
    page: &mut Text<N>,
    slot: u32,
    session: u32,
    packet: u32,
    deadline: u32,
)
    requires { length page.old + line_bytes ≤ N }
    ensures put { Put page.old (packet_line slot session packet deadline) page.new }
    ensures few { length page.new ≤ length page.old + line_bytes }
{
    page.put_number(slot);
    page.put_next(session);
    page.put_next(packet);
    page.put_next(deadline);
    page.put_end();
}

// The lines of the packets that a slot sent; three numbers are told of each.
pub fn put_packets<const N: usize>(page: &mut Text<N>, slot: u32, notes: &[u32; NOTES], sent: u32)
    requires { (sent ≤ 64) × (length page.old + slot_bytes ≤ N) }
    ensures put { Put page.old (packet_lines slot notes.now sent) page.new }
    ensures few { length page.new ≤ length page.old + slot_bytes }
{
    for note in notes[..3 * sent as usize].chunks_exact(3) {
        put_packet(page, slot, note[0], note[1], note[2]);
    }
}

// The last line: the six totals.
#[tactic(auto, unfolding(crate::specs::Text::total_line))]
fn put_total<const N: usize>(page: &mut Text<N>, tally: Tally)
    requires { length page.old + line_bytes ≤ N }
    ensures put { Put page.old (total_line tally) page.new }
    ensures few { length page.new ≤ length page.old + line_bytes }
{
    page.put_text(b"total");
    page.put_next(tally.offered);
    page.put_next(tally.taken_in);
    page.put_next(tally.over);
    page.put_next(tally.no_room);
    page.put_next(tally.sent);
    page.put_next(tally.waiting);
    page.put_end();
}

// What ends the print-out, where `held` bytes of an unfinished slot are left.
pub fn put_ending<const N: usize>(page: &mut Text<N>, held: usize, tally: Tally)
    requires { length page.old + 512 ≤ N }
    ensures put { Put page.old (end_text held tally) page.new }
    ensures few { length page.new ≤ length page.old + 512 }
{
    if held != 0 {
        page.put_text(b"cut\n");
    }
    put_total(page, tally);
}
