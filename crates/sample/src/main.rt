// Replays the fixed sample: reads queries from standard input and writes a line of answer for each.
#![tactic(auto)]

use answer::answer;
use input::read_full;
use query::query_at;
use std::io;
use std::io::Stdout;

mod answer;
mod field;
mod query;
mod text;

const QUERY_LIMIT: usize = 60000;

// One byte more than the limit, so that a longer input shows. An array, since the program has no heap.
const QUERY_ROOM: usize = QUERY_LIMIT + 1;

// A query that does not read ends the run, so that a damaged sample can't pass.
fn replay(out: &Stdout, queries: &[u8]) -> io::Result<()> {
    let mut at = 0;
    while at < queries.len() {
        let Some((query, next)) = query_at(queries, at) else {
            return put_bad(out, at);
        };
        answer(out, query)?;
        at = next;
    }
    Ok(())
}

// The line that says where the queries do not read.
fn put_bad(out: &Stdout, at: usize) -> io::Result<()> {
    println!(out; "bad {at}")
}

fn main(rt: HostRuntime) -> io::Result<()> {
    let out = rt.stdout();
    let mut queries = [0u8; QUERY_ROOM];
    let n = read_full(&mut rt.stdin(), &mut queries)?;
    if QUERY_LIMIT < n {
        return put_bad(&out, QUERY_LIMIT);
    }
    replay(&out, &queries[..n])
}
