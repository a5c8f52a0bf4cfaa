// Replays the fixed sample of runs: reads them from standard input and writes a line of answer for each record.
#![tactic(auto)]

ghost use Rattle.std.specs.Prelude.{◌<◌, length, IfOk, IfSome};

use answers::Answer;
use codec::numbers::read_eight;
use input::read_full;
use manager::transaction_manager::new;
use room::ceilings::SIZE;
use script::lines::{LINE_LIMIT, put_line};
use script::records::next_record;
use script::served::serve_record;
use std::io;
use std::io::Stdout;

const INPUT_LIMIT: usize = 262144;

// One byte more than the limit, so that a longer input shows. An array, since the program has no heap.
const INPUT_ROOM: usize = INPUT_LIMIT + 1;

// No record of a script has this tag: a run begins with it.
const RUN: u8 = 0;

// The tag, and the number that the run's room is made fresh at.
const RUN_SIZE: usize = 9;

// The line of an answer: `put_line`'s contract says its text, as for replay.
fn say(out: &Stdout, answer: Answer) -> io::Result<()> {
    let mut line = [0; LINE_LIMIT];
    let n = put_line(&mut line, 0, answer.status, answer.value);
    out.write_all(&line[..n])
}

// The line that says where the runs do not read.
fn say_bad(out: &Stdout, at: usize) -> io::Result<()> {
    println!(out; "bad {at}")
}

fn begin_run(
    out: &Stdout,
    room: &mut [u8; SIZE],
    runs: &[u8],
    at: usize,
) -> io::Result<Option<usize>>
    requires { at < length runs.now }
    ensures { IfOk result (λ next. IfSome next (λ to. at < to)) }
{
    if runs.len() - at < RUN_SIZE {
        return Ok(None);
    }
    let answer = Answer::from(new(room, read_eight(runs, at + 1)));
    println!(out; "run {}", answer.value)?;
    Ok(Some(at + RUN_SIZE))
}

// Serves what stands at a place, and tells where the next stands; none where this one does not read.
fn serve_at(
    out: &Stdout,
    room: &mut [u8; SIZE],
    runs: &[u8],
    at: usize,
) -> io::Result<Option<usize>>
    requires { at < length runs.now }
    ensures { IfOk result (λ next. IfSome next (λ to. at < to)) }
{
    if runs[at] == RUN {
        return begin_run(out, room, runs, at);
    }
    let Ok(Some(record)) = next_record(runs, at) else {
        return Ok(None);
    };
    let payload = record.payload;
    let answer = Answer::from(serve_record(room, record.tag, &runs[payload.from..payload.to]));
    say(out, answer)?;
    Ok(Some(payload.to))
}

// What does not read ends the replay with a line of its own, so that a damaged sample can't pass.
fn replay(out: &Stdout, room: &mut [u8; SIZE], runs: &[u8]) -> io::Result<()> {
    let mut at = 0;
    while at < runs.len() {
        let Some(next) = serve_at(out, room, runs, at)? else {
            return say_bad(out, at);
        };
        at = next;
    }
    Ok(())
}

fn main(rt: HostRuntime) -> io::Result<()> {
    let out = rt.stdout();
    let mut room = [0u8; SIZE];
    let mut runs = [0u8; INPUT_ROOM];
    let n = read_full(&mut rt.stdin(), &mut runs)?;
    if INPUT_LIMIT < n {
        return say_bad(&out, INPUT_LIMIT);
    }
    replay(&out, &mut room, &runs[..n])
}
