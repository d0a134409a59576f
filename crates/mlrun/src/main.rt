// Reads records from standard input, one after the other, and writes what each prints to standard output (01, "mlrun"). It fills a buffer,
// takes a step and writes; what a step does is proved in `stream`.
#![tactic(auto)]

mod keeping;
mod reading;
mod telling;
mod waiting;
mod writing;

use keeping::Kept;
use reading::Reader;
use std::io::{Read, Write};
use std::time::Clock;
use telling::{Stop, tell};
use writing::Writer;

// The next record takes its step, if the input has one more; answers whether the run goes on. Where what is waiting can't be written, none is
// waited for.
fn next(
    rt: &impl Clock,
    stdin: &mut impl Read,
    stdout: &mut impl Write,
    reader: &mut Reader,
    writer: &mut Writer,
    kept: &mut Kept<'_>,
    number: u64,
) -> Result<bool, Stop> {
    let ready = reader.ready();
    writer.drain(rt, stdout, ready).map_err(Stop::Unwritten)?;
    if !ready {
        reader.fill(rt, stdin).map_err(Stop::Unread)?;
    }
    let record = reader.record();
    let size = record.len();
    if size == 0 {
        return Ok(false);
    }
    let goes = kept.take(record, writer, number);
    reader.pass(size);
    Ok(goes)
}

// Record after record, until one is refused or the input ends; then what is still waiting is written.
fn run(
    rt: &impl Clock,
    stdin: &mut impl Read,
    stdout: &mut impl Write,
    reader: &mut Reader,
    writer: &mut Writer,
    kept: &mut Kept<'_>,
) -> Result<(), Stop> {
    for number in 1..u64::MAX {
        if !next(rt, stdin, stdout, reader, writer, kept, number)? {
            break;
        }
    }
    writer.put(rt, stdout).map_err(Stop::Unwritten)
}

fn main(rt: HostRuntime) {
    let mut reader = Reader::new();
    let mut writer = Writer::new();
    let mut values = [0u32; 8192];
    let mut classes = [255u8; 8192];
    let mut kept = Kept::new(&mut values, &mut classes);
    let mut stdin = rt.stdin();
    let mut stdout = rt.stdout();
    let ran = run(
        &rt,
        &mut stdin,
        &mut stdout,
        &mut reader,
        &mut writer,
        &mut kept,
    );
    if let Err(stop) = ran {
        tell(&rt, stop);
    }
}
