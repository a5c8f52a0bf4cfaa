// Fields: a one-byte tag, a two-byte big-endian length and a payload; key lists and bounds, which are made of them.
#![tactic(auto)]

ghost use Rattle.std.specs.Prelude.{◌≡◌};
ghost use Rattle.fields.specs.Fields.{key_list};
ghost use Rattle.fields.specs.Forms.{FieldIs, NextIs, form_of, BoundFieldIs, BoundsAre};
ghost use Rattle.fields.specs.declared.FormError.{FormError};

use keys::KEY_LIMIT;
use kinds::kind::Kind;

// The tag of a key.
pub const KEY: u8 = 0x4b;

// The tags of the three kinds of bounds.
pub use kinds::kind::{EXCLUDED, INCLUDED, UNBOUNDED};

// A field's tag and length take this many bytes.
pub const FIELD_HEAD: usize = 3;

// Where some bytes stand: from one index to before another.
#[derive(Clone, Copy)]
pub struct Span {
    pub from: usize,
    pub to: usize,
}

// A field, and where its payload stands.
#[derive(Clone, Copy)]
pub struct Field {
    pub tag: u8,
    pub payload: Span,
}

// The bytes do not read as what was asked for.
#[derive(Clone, Copy)]
pub struct Malformed;

// The field at a place, none where the bytes end there.
pub fn field_at(bytes: &[u8], at: usize) -> Result<Option<Field>, Malformed>
    ensures { FieldIs bytes.now at result }
{
    if bytes.len() <= at {
        return Ok(None);
    }
    let [tag, high, low, rest @ ..] = &bytes[at..] else {
        return Err(Malformed);
    };
    let n = usize::from(u16::from_be_bytes([*high, *low]));
    if rest.len() < n {
        return Err(Malformed);
    }
    let from = at + FIELD_HEAD;
    let to = from + n;
    Ok(Some(Field {
        tag: *tag,
        payload: Span { from, to },
    }))
}

// The key at a place of a key list, none where the list ends there.
pub fn next_key(list: &[u8], at: usize) -> Result<Option<Span>, Malformed>
    ensures { NextIs list.now at result }
{
    let Some(field) = field_at(list, at)? else {
        return Ok(None);
    };
    if field.tag != KEY {
        return Err(Malformed);
    }
    Ok(Some(field.payload))
}

// Why a key list is refused: badly formed (2), or well formed with a key over the limit (4).
#[derive(Clone, Copy)]
pub enum FormError {
    Malformed,
    LongKey,
}

impl From<Malformed> for FormError {
    ghost from_gives = { λ _ e. e ≡ FormError.Malformed };

    fn from(_m: Malformed) -> FormError {
        FormError::Malformed
    }
}

// Judges the whole form before any key's length.
pub fn check_keys(list: &[u8]) -> Result<(), FormError>
    ensures { result ≡ form_of (key_list list.now) }
{
    let mut at = 0;
    let mut short = true;
    while let Some(key) = next_key(list, at)? {
        if KEY_LIMIT < key.to - key.from {
            short = false;
        }
        at = key.to;
    }
    if short {
        Ok(())
    } else {
        Err(FormError::LongKey)
    }
}

// A bound: its kind, and where its key stands.
#[derive(Clone, Copy)]
pub struct BoundPlace {
    pub kind: Kind,
    pub key: Span,
}

fn bound_at(bytes: &[u8], at: usize) -> Result<BoundPlace, Malformed>
    ensures { BoundFieldIs bytes.now at result }
{
    let field = field_at(bytes, at)?.ok_or(Malformed)?;
    let Ok(kind) = Kind::try_from(field.tag) else {
        return Err(Malformed);
    };
    let key = field.payload;
    if !kind.bounded() && key.from < key.to {
        return Err(Malformed);
    }
    Ok(BoundPlace { kind, key })
}

// Two bounds by the places of their keys.
#[derive(Clone, Copy)]
pub struct BoundPlaces {
    pub start: BoundPlace,
    pub end: BoundPlace,
}

// Exactly two fields, start then end. Whether their keys are over the limit is for the caller to judge.
pub fn read_bounds(bytes: &[u8]) -> Result<BoundPlaces, Malformed>
    ensures { BoundsAre bytes.now result }
{
    let start = bound_at(bytes, 0)?;
    let end = bound_at(bytes, start.key.to)?;
    if end.key.to < bytes.len() {
        return Err(Malformed);
    }
    Ok(BoundPlaces { start, end })
}
