// Runs the reader and the verdict on the sheets of standard input, one to a line, and writes what they answer: what a person can check against 01 by eye.
//
// The text has no more than 65,536 bytes; what follows is not read. A line that starts with '#' is written out as it stands, and an empty
// line is passed over. Any other line is the bytes of one sheet, in the words of hex digits that crates/text/src/hex.rt names.
// The answer is "refused N PLACE"; or "read C P M: " and the M starts, and a second line with the verdict, "passed SLACK T" or "failed T" and
// the M figures. A line that is none of these gives "unclear".
#![tactic(auto)]

use std::io::{Result, Write};
use text::{hex, lines, print, read};
use verdict::{Answer, Verdict};

// The most bytes of a text that are read.
const TEXT_BYTES: usize = 65536;

// Room for a sheet's bytes, nearly twice the longest sheet; a longer one is cut off there, and is refused all the same.
const ROOM: usize = 8192;

// A word, and numbers behind it. What cannot be written is passed over here and below, and printing goes on: the answer is the first failure.
fn print_numbers<W: Write>(to: &mut W, word: &[u8], numbers: &[u32]) -> Result<()> {
    let told = to.write_all(word);
    told.and(print::all(to, numbers))
}

fn print_verdict<W: Write>(to: &mut W, answer: Answer, sessions: usize) -> Result<()> {
    let told = match answer.verdict {
        Verdict::Passed(slack, t) => print_numbers(to, b"passed", &[slack.0, t.0]),
        Verdict::Failed(t) => print_numbers(to, b"failed", &[t.0]),
        Verdict::Unreadable(refusal) => print::refusal(to, refusal.number(), refusal.place),
    };
    let figures = answer.figures.map(|figure| figure.0);
    let figures = print::all(to, &figures[..figures.len().min(sessions)]);
    told.and(figures).and(to.write_all(b"\n"))
}

fn print_answer<W: Write>(to: &mut W, bytes: &[u8]) -> Result<()> {
    match sheet::read(bytes) {
        Ok(reading) => {
            let sessions = reading.count;
            let starts = reading.starts;
            let told = print_numbers(to, b"read", &[reading.capacity.0, reading.period.0]);
            let told = told
                .and(print::all(to, &[sessions]))
                .and(to.write_all(b":"));
            let told = told.and(print::all(to, &starts[..starts.len().min(sessions)]));
            let told = told.and(to.write_all(b"\n"));
            told.and(print_verdict(to, verdict::judge(bytes), sessions))
        }
        Err(refusal) => {
            let told = print::refusal(to, refusal.number(), refusal.place);
            told.and(to.write_all(b"\n"))
        }
    }
}

fn run_line<W: Write>(to: &mut W, line: &[u8]) -> Result<()> {
    let mut bytes = [0u8; ROOM];
    match hex::line_bytes(line, &mut bytes) {
        Some(n) => print_answer(to, &bytes[..n]),
        None => print::write_unclear(to),
    }
}

fn main(rt: HostRuntime) {
    let mut text = [0u8; TEXT_BYTES];
    let got = read::read_full(&mut rt.stdin(), &mut text);
    // Nobody is there to be told what could not be written.
    let _ = lines::run_lines(&mut rt.stdout(), &text[..got], run_line);
}
