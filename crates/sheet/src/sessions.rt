// Refusals 7 to 10, of a session in the bytes that start with it. The bytes, the period and the place go through the steps of one check; a struct of them
// would be made and used once.
ghost use Rattle.std.specs.Prelude.{◌≡◌, ◌*◌, ◌<◌, ◌≤◌, length};
ghost use Rattle.words.specs.Words.{words};
ghost use Rattle.curve.specs.Drawn.{drawn};
ghost use Rattle.sheet.specs.Refusal.{first};
ghost use Rattle.sheet.specs.Limits.{longest_table, longest_sheet};
ghost use Rattle.sheet.specs.Bytes.{record_bytes};
ghost use Rattle.sheet.specs.Reading.{value_lines, table_lines, field_lines, tables_lines, session_lines};
ghost use Rattle.sheet.specs.Clears.{FieldsRead};
ghost use Rattle.sheet.specs.Told.{fault};

use crate::fields::fields;
use crate::head::outside;
use crate::limits::{FIXED_BYTES, LARGEST_RATE, LARGEST_VALUE, LONGEST_TABLE};
use curve::table::{Table, Words};
use curve::{Curve, Slots};
use refusal::{Cause, Refusal};

// Refusal 10 of a table's values, which start at `place`.
fn check_values(table: &Words<'_>, place: u32) -> Result<(), Refusal>
    requires { (length (words table.now.0.now) ≤ longest_table) × (place ≤ 2 * longest_sheet) }
    ensures { fault result ≡ first (value_lines (words table.now.0.now) 0 place) }
{
    let mut before: u32 = 0;
    for i in 0..table.len() {
        let v = table.entry(i);
        if LARGEST_VALUE < v || v < before {
            return Err(Cause::Value.at(place + 2 * i as u32));
        }
        before = v;
    }
    Ok(())
}

// Refusal 10 of a curve's table and its join; the rate stands at `rate_place`.
fn check_curve(curve: &Curve<'_>, period: Slots, place: u32, rate_place: u32) -> Result<(), Refusal>
    requires period { (1 ≤ period.0) × (period.0 ≤ length (drawn curve.now).table) }
    requires small { (length (drawn curve.now).table ≤ longest_table) × (curve.now.rate.0 < 65536) × (place ≤ 2 * longest_sheet) }
    ensures { fault result ≡ first (table_lines period.0 (drawn curve.now) place rate_place) }
{
    let table = &curve.table;
    check_values(table, place)?;
    let n = table.len();
    let p = period.0 as usize;
    if table.entry(n - p) + curve.rate.0 < table.entry(n - 1) {
        return Err(Cause::Value.at(rate_place));
    }
    Ok(())
}

#[tactic(auto, unfolding(crate::specs::Refusal::first, crate::specs::Refusal::outside, crate::specs::Reading::field_lines))]
// Refusals 7, 8, 9 and 7 of the session whose bytes start with `rest`, at `place`.
fn check_fields(rest: &[u8], period: Slots, place: u32) -> Result<(), Refusal>
    requires { place ≤ longest_sheet }
    ensures { fault result ≡ first (field_lines period.0 rest.now place) }
{
    if rest.len() < FIXED_BYTES {
        return Err(Cause::CutOff.at(place));
    }
    if outside(period.0, LONGEST_TABLE, words::byte(rest, 0)) {
        return Err(Cause::TableLength.at(place));
    }
    if outside(period.0, LONGEST_TABLE, words::byte(rest, 1)) {
        return Err(Cause::TableLength.at(place + 1));
    }
    if outside(1, LARGEST_RATE, words::word(rest, 3)) {
        return Err(Cause::Rate.at(place + 3));
    }
    if outside(0, LARGEST_RATE, words::word(rest, 5)) {
        return Err(Cause::Rate.at(place + 5));
    }
    if rest.len() < record_bytes(rest) {
        return Err(Cause::CutOff.at(place));
    }
    Ok(())
}

// Refusal 10 of a session's two curves, whose bytes are all there.
fn check_curves(rest: &[u8], period: Slots, place: u32) -> Result<(), Refusal>
    requires { (1 ≤ period.0) × (place ≤ longest_sheet) × FieldsRead period.0 rest.now }
    ensures { fault result ≡ first (tables_lines period.0 rest.now place) }
{
    let session = fields(rest);
    let from = place + FIXED_BYTES as u32;
    let join = from + 2 * session.service.table.len() as u32;
    check_curve(&session.service, period, from, place + 3)?;
    check_curve(&session.envelope, period, join, place + 5)
}

// Refusals 7 to 10 of the session whose bytes start with `rest`, at `place`.
pub fn check_session(rest: &[u8], period: Slots, place: u32) -> Result<(), Refusal>
    requires { (1 ≤ period.0) × (place ≤ longest_sheet) }
    ensures { fault result ≡ first (session_lines period.0 rest.now place) }
{
    check_fields(rest, period, place)?;
    check_curves(rest, period, place)
}

// The bytes of the session whose bytes start with `rest`.
pub fn record_bytes(rest: &[u8]) -> usize
    requires { 1 < length rest.now }
    ensures { result ≡ record_bytes rest.now }
{
    FIXED_BYTES + 2 * words::byte(rest, 0) as usize + 2 * words::byte(rest, 1) as usize
}
