// The values of a sheet's curves at many slot counts, in one array: session i has 256 places from 256·i on, a row for its envelope and one for its service.
// One array and no array of rows: the laws of a window speak of its places.
ghost use Rattle.std.specs.Prelude.{◌≡◌, ◌+◌, ◌*◌, ◌<◌, ◌≤◌, length};
ghost use Rattle.curve.specs.Lookup.{Sized, farthest};
ghost use Rattle.curve.specs.Drawn.{drawn};
ghost use Rattle.verdict.specs.Window.{row_places, session_places, window_places, past_tables, Rowed, Window};

use curve::{Curve, Slots};
use sheet::whole::Sheet;

// How many values of a curve stand in a row: those that a slot count needs, 65, and room for 63 slot counts more. A session has two rows, and sixteen sessions fill a window.
pub const ROW_PLACES: usize = 128;

pub const SESSION_PLACES: usize = 256;

pub const WINDOW_PLACES: usize = 4096;

// A window that ends here or later begins at the end of the longest table.
const PAST_TABLES: u32 = 191;

// How many values of a row are looked up: all while the tables reach into it, else those of one period.
fn looked(end: u32, period: usize) -> usize
    requires { period ≤ 16 }
    ensures { (period ≤ result) × (result ≤ row_places) × (result < row_places → past_tables ≤ end) }
{
    if end < PAST_TABLES {
        ROW_PLACES
    } else {
        period
    }
}

// Writes the values of one curve at as many slot counts, from a place on: those at end, end - 1, .., or at 0, 1, .. if `end` is 0. Past the tables a value is the one a period later, less the rate, so that nothing is divided.
fn row(curve: &Curve<'_>, period: Slots, end: u32, place: usize, values: &mut [u32; WINDOW_PLACES])
    requires { Sized period.0 (drawn curve.now) × (end < farthest) × (place + row_places ≤ window_places) × (length values.old ≡ window_places) }
    ensures { Rowed period.0 (drawn curve.now) end place row_places values.old values.new }
{
    let p = period.0 as usize;
    let near = looked(end, p);
    'near: for j in 0..near {
        values[place + j] = curve.value(period, Slots(end.abs_diff(j as u32))).0;
    }
    'far: for j in near..ROW_PLACES {
        let here = place + j;
        values[here] = values[here - p] - curve.rate.0;
    }
}

// Writes the values of all sessions.
pub fn window(sheet: &Sheet<'_>, end: u32, values: &mut [u32; WINDOW_PLACES])
    requires { (end < farthest) × (length values.old ≡ window_places) }
    ensures { Window sheet.now.bytes.now sheet.now.reading.period.0 end (session_places * sheet.now.reading.count) values.new }
{
    let period = sheet.period();
    for i in 0..sheet.count() {
        let session = sheet.session(i);
        let place = SESSION_PLACES * i;
        row(&session.envelope, period, end, place, values);
        row(&session.service, period, end, place + ROW_PLACES, values);
    }
}
