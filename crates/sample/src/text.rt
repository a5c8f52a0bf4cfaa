// Answers as text: a bound is its tag, and behind a colon its key, in hexadecimal.
use crate::field::{Bound, Range};
use std::fmt;

#[derive(Clone, Copy)]
pub struct Hex<'a>(pub &'a [u8]);

impl fmt::Display for Hex<'_> {
    fn fmt<W: fmt::Write>(&self, f: &mut fmt::Formatter<W>) -> fmt::Result {
        for byte in self.0 {
            write!(f, "{byte:02x}")?;
        }
        Ok(())
    }
}

impl fmt::Display for Bound<'_> {
    fn fmt<W: fmt::Write>(&self, f: &mut fmt::Formatter<W>) -> fmt::Result {
        write!(f, "{:02x}", u8::from(self.kind))?;
        if self.kind.bounded() {
            write!(f, ":{}", Hex(self.key))?;
        }
        Ok(())
    }
}

impl fmt::Display for Range<'_> {
    fn fmt<W: fmt::Write>(&self, f: &mut fmt::Formatter<W>) -> fmt::Result {
        write!(f, "{} {}", self.start, self.end)
    }
}
