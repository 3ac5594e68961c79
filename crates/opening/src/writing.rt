// What opening writes: zeros, the head, and each session's block with nothing taken in yet.
ghost use Rattle.std.specs.Prelude.{◌≡◌, [], ◌∷◌, ◌++◌, ◌+◌, ◌≤◌, length, drop, replicate};
ghost use Rattle.words.specs.Words.{words};
ghost use Rattle.sheet.specs.Bytes.{sheet_of};
ghost use Rattle.sheet.specs.Told.{as_session};
ghost use Rattle.layout.specs.Layout.{run_numbers, block_numbers};
ghost use Rattle.layout.specs.Over.{over};
ghost use Rattle.history.specs.Image.{tables_over, ShortTables, block_of, fresh, opened_run};

use curve::Packets;
use curve::table::{Table, Words};
use layout::{
    ENVELOPE_AHEAD_AT, ENVELOPE_AT, MARK, RUN_NUMBERS, SERVICE_AHEAD_AT, SERVICE_AT, block_range,
};
use sheet::fields::Session;
use sheet::whole::Sheet;

// The values of a table, from a place of the block on.
fn copy_table(block: &mut [u32], at: usize, table: &Words<'_>)
    requires { at + length (words table.now.0.now) ≤ length block.old }
    ensures { block.new ≡ over block.old at (words table.now.0.now) }
{
    for i in 0..table.len() {
        block[at + i] = table.entry(i);
    }
}

// A block's first numbers: the tables' lengths, the room, the rates, and nothing taken in or sent.
fn write_fields(block: &mut [u32], n: u32, m: u32, room: Packets, rate: Packets, other: Packets)
    requires { 7 ≤ length block.old }
    ensures { block.new ≡ over block.old 0 (n ∷ m ∷ room.0 ∷ rate.0 ∷ other.0 ∷ 0 ∷ 0 ∷ []) }
{
    block[0] = n;
    block[1] = m;
    block[2] = room.0;
    block[3] = rate.0;
    block[4] = other.0;
    block[5] = 0;
    block[6] = 0;
}

// A block's tables: both curves, and what lies ahead of each, which is the curve itself.
fn write_tables(block: &mut [u32], service: &Words<'_>, envelope: &Words<'_>)
    requires { (length block.old ≡ block_numbers) × (length (words service.now.0.now) ≤ 64) × (length (words envelope.now.0.now) ≤ 64) }
    ensures { block.new ≡ tables_over block.old (words service.now.0.now) (words envelope.now.0.now) }
{
    copy_table(block, SERVICE_AT, service);
    copy_table(block, ENVELOPE_AT, envelope);
    copy_table(block, SERVICE_AHEAD_AT, service);
    copy_table(block, ENVELOPE_AHEAD_AT, envelope);
}

// A session's block.
fn write_block(block: &mut [u32], session: &Session<'_>)
    requires { (block.old ≡ replicate block_numbers 0) × ShortTables (as_session session.now) }
    ensures { block.new ≡ block_of (as_session session.now) (fresh (as_session session.now)) }
{
    let service = &session.service;
    let envelope = &session.envelope;
    let n = service.table.len() as u32;
    let m = envelope.table.len() as u32;
    write_fields(block, n, m, session.room, service.rate, envelope.rate);
    write_tables(block, &service.table, &envelope.table);
}

// The run before slot 1 of a sheet that reads.
pub fn write_run(run: &mut [u32], sheet: &Sheet<'_>)
    requires { run_numbers ≤ length run.old }
    ensures { run.new ≡ opened_run (sheet_of sheet.now.bytes.now) ++ drop run_numbers run.old }
{
    let count = sheet.count();
    run[..RUN_NUMBERS].fill(0);
    run[0] = MARK;
    run[1] = sheet.capacity().0;
    run[2] = sheet.period().0;
    run[3] = count as u32;
    run[4] = 0;
    for i in 0..count {
        write_block(&mut run[block_range(i)], &sheet.session(i));
    }
}
