// Why a script comes to nothing.
ghost use Rattle.std.specs.Prelude.{◌≡◌};
ghost use Rattle.report.specs.declared.error.ScriptError.TheVariants.{NoMemory, Unreadable, Refused};
ghost use Rattle.report.specs.Texts.{text};

use labels::fault::Fault;
use labels::refusal::Refusal;
use std::alloc::AllocError;
use std::error::Error;
use std::fmt;

// Memory ran out, the script could not be read or written, or its run was refused.
#[derive(Clone, Copy, PartialEq, Eq, Debug)]
pub enum ScriptError {
    NoMemory(AllocError),
    Unreadable(Fault),
    Refused(Refusal),
}

// A fault as everywhere, as in `fault 16 at 12 in label`; a refusal as in `refused 7`.
impl fmt::Display for ScriptError {
    ghost output = { text };

    fn fmt<W: fmt::Write>(&self, f: &mut fmt::Formatter<W>) -> fmt::Result {
        match self {
            ScriptError::NoMemory(error) => write!(f, "{error}"),
            ScriptError::Unreadable(fault) => write!(f, "{fault}"),
            ScriptError::Refused(refusal) => write!(f, "refused {refusal}"),
        }
    }
}

impl Error for ScriptError {}

impl From<AllocError> for ScriptError {
    ghost from_gives = { λ error e. e ≡ NoMemory error };

    fn from(error: AllocError) -> Self {
        ScriptError::NoMemory(error)
    }
}

impl From<Fault> for ScriptError {
    ghost from_gives = { λ fault e. e ≡ Unreadable fault };

    fn from(fault: Fault) -> Self {
        ScriptError::Unreadable(fault)
    }
}

impl From<Refusal> for ScriptError {
    ghost from_gives = { λ refusal e. e ≡ Refused refusal };

    fn from(refusal: Refusal) -> Self {
        ScriptError::Refused(refusal)
    }
}
