// What a script's lines set for the calls after them: how many numbers of each slice are lent, and the tally.
ghost use Rattle.std.specs.Prelude.{◌≡◌, get_or};
ghost use Rattle.run.specs.Totals.{tally_of};
ghost use Rattle.slots.specs.Sets.{SameLengths};

use run::tally::Tally;

#[derive(Clone, Copy)]
pub struct Settings {
    pub run: usize,
    pub outcomes: usize,
    pub sent: usize,
    pub tally: Tally,
}

impl Settings {
    // Three lengths; the tally stays.
    pub fn with_lengths(self, lengths: [u32; 3]) -> Settings
        ensures { result ≡ record { run = get_or lengths 0 0; outcomes = get_or lengths 1 0; sent = get_or lengths 2 0; tally = self.tally } }
    {
        let [run, outcomes, sent] = lengths;
        Settings {
            run: run as usize,
            outcomes: outcomes as usize,
            sent: sent as usize,
            ..self
        }
    }

    // Six totals; the lengths stay.
    pub fn with_tally(self, totals: [u32; 6]) -> Settings
        ensures { (result.tally ≡ tally_of totals) × SameLengths self result }
    {
        Settings {
            tally: Tally::from(totals),
            ..self
        }
    }
}
