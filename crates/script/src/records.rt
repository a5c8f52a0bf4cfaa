// Records, as their bytes arrive.
ghost use Rattle.script.specs.Records.{TagIs, NextRecordIs};

use fields::{FIELD_HEAD, Field, Span};

pub const PAYLOAD_LIMIT: usize = 32768;

// What a record asks for.
#[derive(Clone, Copy)]
pub enum Tag {
    Begin,
    Writes,
    Reads,
    Range,
    Check,
    Commit,
    Batch,
    Drop,
    Minimum,
}

// A tag that no record has.
#[derive(Clone, Copy)]
pub struct UnknownTag;

impl TryFrom<u8> for Tag {
    type Error = UnknownTag;

    ghost try_from_gives = { TagIs };

    fn try_from(tag: u8) -> Result<Self, UnknownTag> {
        match tag {
            0x01 => Ok(Tag::Begin),
            0x02 => Ok(Tag::Writes),
            0x03 => Ok(Tag::Reads),
            0x04 => Ok(Tag::Range),
            0x05 => Ok(Tag::Check),
            0x06 => Ok(Tag::Commit),
            0x07 => Ok(Tag::Batch),
            0x08 => Ok(Tag::Drop),
            0x09 => Ok(Tag::Minimum),
            _ => Err(UnknownTag),
        }
    }
}

// The record ends the run.
#[derive(Clone, Copy)]
pub struct Stop;

// The record at a place, a field, none where it is not whole yet. A head is refused as soon as its bytes say so, however few have come.
// Its tag stays a number, as `serve_record` takes any.
pub fn next_record(bytes: &[u8], at: usize) -> Result<Option<Field>, Stop>
    ensures { NextRecordIs bytes.now at result }
{
    let Some(&tag) = bytes.get(at) else {
        return Ok(None);
    };
    if Tag::try_from(tag).is_err() {
        return Err(Stop);
    }
    let [_, high, low, rest @ ..] = &bytes[at..] else {
        return Ok(None);
    };
    let n = usize::from(u16::from_be_bytes([*high, *low]));
    if PAYLOAD_LIMIT < n {
        return Err(Stop);
    }
    if rest.len() < n {
        return Ok(None);
    }
    let from = at + FIELD_HEAD;
    let to = from + n;
    Ok(Some(Field {
        tag,
        payload: Span { from, to },
    }))
}
