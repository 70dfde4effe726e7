// What a call came to, in plain words.
use atlas::answer::Answer;
use std::fmt;
use survey::refusal::Refusal;
use thiserror::Error;

// The answer, or the refusal, of a call.
pub type Outcome = Result<Answer, Refusal>;

// An outcome as it is printed.
#[derive(Clone, Copy)]
pub struct Told(pub Outcome);

impl fmt::Display for Told {
    fn fmt<W: fmt::Write>(&self, f: &mut fmt::Formatter<W>) -> fmt::Result {
        match self.0 {
            Ok(Answer::New { form, trials }) => write!(f, "new {form} with {trials} trials"),
            Ok(Answer::Known { form, trials }) => write!(f, "known {form} with {trials} trials"),
            Ok(Answer::Unknown { trials }) => write!(f, "unknown with {trials} trials"),
            Ok(Answer::Spent { trials }) => write!(f, "spent with {trials} trials"),
            Err(refusal) => {
                let number = refusal.number();
                write!(f, "refused with {number}")
            }
        }
    }
}

// How a worked case differs from what it should be.
#[derive(Debug, Drop, Error)]
pub enum Surprise {
    #[error("the call should have come to something else")]
    OtherOutcome,
    #[error("a refused call has written something")]
    RefusedCallWrote,
    #[error("the stations should be numbered otherwise")]
    OtherStations,
}
