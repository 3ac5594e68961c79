// The two sorts of quantity, slots and packets, and the ways between them: the value of a curve at a slot count, and the delay look-up back.
#![tactic(auto)]

ghost use Rattle.std.specs.Prelude.{◌≡◌, ◌+◌, ◌*◌, ◌<◌, ◌≤◌, length};
ghost use Rattle.curve.specs.Curve.{at};
ghost use Rattle.curve.specs.Rises.{IsCurve};
ghost use Rattle.curve.specs.Delay.{delay, slot};
ghost use Rattle.curve.specs.Lookup.{curve_with, Sized, Begins, farthest, most};
ghost use Rattle.curve.specs.Drawn.{drawn};

pub mod table;

use table::{Table, Words};

// A number of slots.
#[derive(Clone, Copy)]
pub struct Slots(pub u32);

// A number of packets.
#[derive(Clone, Copy)]
pub struct Packets(pub u32);

// A curve of a sheet: its table, and its rate in packets for each period. The period is the link's, so what a look-up asks of both stands in its contract
// and not in this type.
#[derive(Clone, Copy)]
pub struct Curve<'a> {
    pub table: Words<'a>,
    pub rate: Packets,
}

impl<'a> Curve<'a> {
    // F(x)
    pub fn value(&self, period: Slots, x: Slots) -> Packets
        requires { Sized period.0 (drawn self.now) × (x.0 < farthest) }
        ensures { result.0 ≡ at period.0 (drawn self.now) x.0 }
    {
        let slots = x.0;
        let n = self.table.len() as u32;
        if slots == 0 {
            return Packets(0);
        }
        if slots <= n {
            return Packets(self.table.entry((slots - 1) as usize));
        }
        let p = period.0;
        let periods = (slots - n - 1) / p + 1;
        let back = slots - periods * p;
        Packets(self.table.entry((back - 1) as usize) + periods * self.rate.0)
    }

    // D(q), the least m from 1 on with q packets by F(m), of a curve with a rate of at least 1.
    pub fn delay(&self, period: Slots, q: Packets) -> Slots
        requires sized { Sized period.0 (drawn self.now) × IsCurve period.0 (drawn self.now) }
        requires le_rate { (1 ≤ self.now.rate.0) × (q.0 ≤ most) }
        ensures { delay period.0 (drawn self.now) q.0 ≡ slot result.0 }
    {
        delay_from(&self.table, period, self.rate, q, 0)
    }
}

// D(q) in a table of any form, of whose values the first `start` are known to be below q.
pub fn delay_from<T: Table>(
    table: &T,
    period: Slots,
    rate: Packets,
    q: Packets,
    start: usize,
) -> Slots
    requires curve { IsCurve period.0 (curve_with (T.values table.now) rate.0) }
    requires sized { Sized period.0 (curve_with (T.values table.now) rate.0) }
    requires le_rate { (1 ≤ rate.0) × (q.0 ≤ most) }
    requires begins { Begins (T.values table.now) q.0 start }
    ensures delay { delay period.0 (curve_with (T.values table.now) rate.0) q.0 ≡ slot result.0 }
    ensures near { result.0 ≤ length (T.values table.now) + q.0 * period.0 }
{
    let want = q.0;
    let n = table.len();
    'table: for i in start..n {
        if want <= table.entry(i) {
            return Slots(i as u32 + 1);
        }
    }
    // The packets that the table's last value lacks, and how many periods bring them.
    let gap = want - table.entry(n - 1);
    let periods = gap.div_ceil(rate.0);
    let rest = want.saturating_sub(periods * rate.0);
    // The first place of the table's last period that is enough then; its last is.
    'period: for k in n - period.0 as usize..n {
        if rest <= table.entry(k) {
            return Slots(k as u32 + 1 + periods * period.0);
        }
    }
    unreachable!()
}
