ghost use Rattle.std.specs.Prelude.{◌≡◌, ◌+◌, ◌≤◌};
ghost use Rattle.room.specs.Counts.{empty_tally, plus};

// Where a record ends, and what a walk counts up to there: marks, key bytes, and the highest sequence or start.
#[derive(Clone, Copy)]
pub struct Tally {
    pub end: usize,
    pub marks: usize,
    pub bytes: usize,
    pub high: u64,
}

impl Tally {
    // Nothing is counted yet.
    pub fn start(at: usize) -> Self
        ensures { result ≡ empty_tally at }
    {
        Tally {
            end: at,
            marks: 0,
            bytes: 0,
            high: 0,
        }
    }

    // What is counted up to a place with what the record at that place counts.
    pub fn joined(self, u: Tally) -> Self
        requires { (self.marks + self.bytes ≤ self.end) × (self.end + u.marks + u.bytes ≤ u.end) }
        ensures { result ≡ plus self u }
    {
        Tally {
            end: u.end,
            marks: self.marks + u.marks,
            bytes: self.bytes + u.bytes,
            high: self.high.max(u.high),
        }
    }
}
