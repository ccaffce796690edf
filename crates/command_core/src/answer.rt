// How a command ends.
ghost use Rattle.std.specs.Prelude.{◌≡◌};
ghost use Rattle.command_core.specs.InsideAnswer.{status_of, told_by};

use crate::refused::Refusal;
use std::alloc::AllocError;

/// How a command ends: whether the verdict is yes, or why the input is refused, or what failed.
#[derive(Drop)]
pub enum Answer {
    Done(bool),
    Refused(Refusal),
    BadWords,
    InputFault,
    OutputFault,
    NoMemory,
}

impl From<AllocError> for Answer {
    ghost use Rattle.std.specs.Prelude.{◌≡◌};
    ghost use Rattle.command_core.specs.declared.answer.Answer.TheVariants.{NoMemory};

    ghost from_gives = { λ _ a. a ≡ NoMemory };

    fn from(_: AllocError) -> Self {
        Answer::NoMemory
    }
}

impl Answer {
    /// The status that the program ends with.
    pub fn status(&self) -> u8
        ensures { result ≡ status_of self.now }
    {
        match self {
            Answer::Done(true) => 0,
            Answer::Done(false) => 1,
            Answer::Refused(_) => 2,
            Answer::BadWords => 3,
            Answer::InputFault => 4,
            Answer::OutputFault => 5,
            Answer::NoMemory => 6,
        }
    }

    /// The line to tell, which is empty where nothing is told.
    pub fn line(&self) -> &[u8]
        ensures { result.now ≡ told_by self.now }
    {
        match self {
            Answer::Done(_) => b"",
            Answer::Refused(refusal) => refusal.line.bytes(),
            Answer::BadWords => b"bad words\n",
            Answer::InputFault => b"input fault\n",
            Answer::OutputFault => b"output fault\n",
            Answer::NoMemory => b"no memory\n",
        }
    }
}
