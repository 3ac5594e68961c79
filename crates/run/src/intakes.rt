// The intake of all sessions of a run, in order, each on its own block.
ghost use Rattle.std.specs.Prelude.{◌≡◌, ◌*◌, ◌<◌, ◌≤◌, length};
ghost use Rattle.layout.specs.Sound.{most_slots};
ghost use Rattle.intake.specs.Intakes.{AllSound, outcome_numbers, intakes_of, outcomes_of};

// Three numbers are told of a session: taken in, over, no room.
pub const OUTCOME_NUMBERS: usize = 3;

const OVER_OUTCOME: usize = 1;

const NO_ROOM_OUTCOME: usize = 2;

// One slot's intake of each session, after `done` slots: what is offered to each is told in bytes, and three numbers of each go into `outcomes`.
pub fn intake_all(run: &mut [u32], offers: &[u8], outcomes: &mut [u32], period: usize, done: u32)
    requires all_sound { AllSound run.old (length offers.now) period done × (done < most_slots) }
    requires outcomes_len { outcome_numbers * length offers.now ≤ length outcomes.old }
    ensures run_after { run.new ≡ intakes_of run.old offers.now period done (length offers.now) }
    ensures outcomes_after { outcomes.new ≡ outcomes_of run.old offers.now outcomes.old (length offers.now) }
{
    for (session, offer) in offers.iter().enumerate() {
        let block = &mut run[layout::block_range(session)];
        let share = intake::intake(block, period, done, u32::from(*offer));
        // number by number, as for a note
        let at = OUTCOME_NUMBERS * session;
        outcomes[at] = share.taken;
        outcomes[at + OVER_OUTCOME] = share.over;
        outcomes[at + NO_ROOM_OUTCOME] = share.no_room;
    }
}
