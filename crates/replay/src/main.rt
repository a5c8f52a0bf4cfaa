// Replays a script: reads records from standard input and writes a line of answer for each.
#![tactic(auto)]

ghost use Rattle.std.specs.Prelude.{◌<◌, IfOk, IfSome};
ghost use Rattle.replay.specs.Held.{Held};
ghost use Rattle.replay.specs.declared.TheConstants.{OFFSET_LIMIT};

use manager::transaction_manager::new;
use room::ceilings::SIZE;
use script::feed::{End, feed};
use script::lines::put_stop;
use std::io;
use std::io::{Read, Stdin, Stdout};

// More than the longest record, so that a partial one leaves place for the next read.
const BUFFER: usize = 131072;

// Lines that are written at once.
const LINES: usize = 65536;

// No input gets here; the loop's end is proved by it.
const OFFSET_LIMIT: u64 = 0x8000000000000000;

// A room, and the lines of its answers, which are not written yet.
#[derive(Drop)]
struct Player {
    out: Stdout,
    room: [u8; SIZE],
    lines: [u8; LINES],
}

impl Player {
    fn say_stop(&mut self, offset: u64) -> io::Result<()> {
        let n = put_stop(&mut self.lines, 0, offset);
        self.out.write_all(&self.lines[..n])
    }

    // Feeds a piece, which begins at an offset, and writes the lines whenever they fill their place. Tells where the record stands
    // that is not whole yet, none where one ended the run.
    fn play_piece(&mut self, piece: &[u8], offset: u64) -> io::Result<Option<usize>>
        requires { offset < OFFSET_LIMIT }
        ensures { IfOk result (λ left. IfSome left (Held piece.now)) }
    {
        let mut from = 0;
        loop {
            let fed = feed(&mut self.room, &piece[from..], &mut self.lines);
            self.out.write_all(&self.lines[..fed.put])?;
            from += fed.at;
            match fed.end {
                End::More => return Ok(Some(from)),
                End::Stop => {
                    self.say_stop(offset + from as u64)?;
                    return Ok(None);
                }
                End::Full => {}
            }
        }
    }

    // Plays the input in the pieces that it comes in; what is not whole yet is held at the buffer's front.
    fn play(&mut self, input: &mut Stdin) -> io::Result<()> {
        let mut buffer = [0u8; BUFFER];
        let mut held = 0;
        let mut offset = 0;
        while offset < OFFSET_LIMIT {
            let got = input.read(&mut buffer[held..])?;
            if got == 0 {
                if 0 < held {
                    self.say_stop(offset)?;
                }
                return Ok(());
            }
            let have = held + got;
            let Some(at) = self.play_piece(&buffer[..have], offset)? else {
                return Ok(());
            };
            buffer.copy_within(at..have, 0);
            held = have - at;
            offset += at as u64;
        }
        Ok(())
    }
}

fn main(rt: HostRuntime) -> io::Result<()> {
    let mut player = Player {
        out: rt.stdout(),
        room: [0u8; SIZE],
        lines: [0u8; LINES],
    };
    let _ = new(&mut player.room, 0);
    player.play(&mut rt.stdin())
}
