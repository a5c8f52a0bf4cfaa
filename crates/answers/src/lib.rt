// What a call on a room answers.
#![tactic(auto)]

ghost use Rattle.std.specs.Prelude.{◌≡◌};
ghost use Rattle.answers.specs.declared.Refusal.TheVariants.{Malformed, LongKey};
ghost use Rattle.answers.specs.Says.{Says, refusal_number, status_of, value_of, form_refusal};

use fields::FormError;

// Why a call is refused, by document 01's statuses.
#[derive(Clone, Copy)]
pub enum Refusal {
    Malformed = 2,
    Again = 3,
    LongKey = 4,
    EmptyRange = 5,
    Full = 6,
    NoState = 7,
}

impl From<Refusal> for u8 {
    ghost from_gives = { λ refusal status. status ≡ refusal_number refusal };

    fn from(refusal: Refusal) -> u8 {
        refusal as u8
    }
}

impl From<fields::Malformed> for Refusal {
    ghost from_gives = { λ _ refusal. refusal ≡ Malformed };

    fn from(_error: fields::Malformed) -> Refusal {
        Refusal::Malformed
    }
}

impl From<FormError> for Refusal {
    ghost from_gives = { λ error refusal. refusal ≡ form_refusal error };

    fn from(error: FormError) -> Refusal {
        match error {
            FormError::Malformed => Refusal::Malformed,
            FormError::LongKey => Refusal::LongKey,
        }
    }
}

// What a call that isn't refused answers, with its own value: statuses 0 and 1.
#[derive(Clone, Copy)]
pub enum Outcome {
    Done(u64),
    Absent(u64),
}

// Document 01's status and value, as they cross the boundary.
#[repr(C)]
#[derive(Clone, Copy)]
pub struct Answer {
    pub status: u8,
    pub value: u64,
}

impl From<Result<Outcome, Refusal>> for Answer {
    ghost from_gives = { λ said answer. Says answer (status_of said) (value_of said) };

    fn from(said: Result<Outcome, Refusal>) -> Answer {
        match said {
            Ok(Outcome::Done(value)) => Answer { status: 0, value },
            Ok(Outcome::Absent(value)) => Answer { status: 1, value },
            Err(refusal) => Answer {
                status: u8::from(refusal),
                value: 0,
            },
        }
    }
}
