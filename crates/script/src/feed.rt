// A piece of a script fed to a room: its whole records served in order, and the lines of their answers put.
ghost use Rattle.script.specs.Played.{FedIs};

use crate::lines::{LINE_LIMIT, put_line};
use crate::records::next_record;
use crate::served::serve_record;
use answers::Answer;

// Why feeding ended: the next record is not whole yet, it ends the run, or there is no place for its line.
#[derive(Clone, Copy)]
pub enum End {
    More,
    Stop,
    Full,
}

// How much of a piece was served, and how many bytes of lines were put.
#[derive(Clone, Copy)]
pub struct Fed {
    pub at: usize,
    pub put: usize,
    pub end: End,
}

pub fn feed(room: &mut [u8], bytes: &[u8], out: &mut [u8]) -> Fed
    ensures { FedIs room.old bytes.now out.old result room.new out.new }
{
    let mut at = 0;
    let mut put = 0;
    let end = loop {
        if out.len() - put < LINE_LIMIT {
            break End::Full;
        }
        match next_record(bytes, at) {
            Ok(Some(record)) => {
                let payload = record.payload;
                let answer = Answer::from(serve_record(
                    room,
                    record.tag,
                    &bytes[payload.from..payload.to],
                ));
                put = put_line(out, put, answer.status, answer.value);
                at = payload.to;
            }
            Ok(None) => break End::More,
            Err(_) => break End::Stop,
        }
    };
    Fed { at, put, end }
}
