// The delay figures of a sheet's sessions.
ghost use Rattle.std.specs.Prelude.{◌≡◌};
ghost use Rattle.curve.specs.Drawn.{drawn};
ghost use Rattle.verdict.specs.Figure.{figure};
ghost use Rattle.verdict.specs.Ready.{Drawn};
ghost use Rattle.verdict.specs.Verdict.{Figures};

use curve::Slots;
use curve::table::Table;
use sheet::fields::Session;
use sheet::whole::Sheet;

// The delay figure of a session.
fn figure(session: &Session<'_>, period: Slots) -> Slots
    requires { Drawn period.0 session.now }
    ensures { result.0 ≡ figure period.0 (drawn session.now.envelope) (drawn session.now.service) }
{
    let n = session.envelope.table.len() as u32;
    let mut largest: u32 = 0;
    for x in 1..n + 1 {
        let q = session.envelope.value(period, Slots(x));
        let due = session.service.delay(period, q).0;
        largest = largest.max(due.saturating_sub(x));
    }
    Slots(largest)
}

// The figures of all sessions.
pub fn all_figures(sheet: &Sheet<'_>) -> [Slots; 16]
    ensures { Figures sheet.now.bytes.now result }
{
    let mut figures = [Slots(0); 16];
    for i in 0..sheet.count() {
        figures[i] = figure(&sheet.session(i), sheet.period());
    }
    figures
}
