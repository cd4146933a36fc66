use std::alloc::{AllocError, AllocFailed};
use texts::Word;
use thiserror::Error;

/// Why a text is not a certificate. Lines are numbered from 1.
#[derive(Clone, Copy, Debug, PartialEq, Eq, Error)]
pub enum CertFault {
    /// The line is the first that is not of its form, is missing, or does not end with a line feed.
    #[error("line {0} is not of its form")]
    Line(u32),
    /// The line is the first whose state does not come after the state of the line before it.
    #[error("the state of line {0} does not come after the one before")]
    Order(u32),
    /// Memory ran out.
    #[error("out of memory")]
    Memory,
}

impl From<AllocError> for CertFault {
    ghost use Rattle.std.specs.Prelude.{◌≡◌};
    ghost use Rattle.certificate.specs.declared.fault.CertFault.TheVariants.{Memory};

    ghost from_gives = { λ _ e. e ≡ Memory };

    fn from(_: AllocError) -> Self {
        CertFault::Memory
    }
}

impl<T: Drop> From<AllocFailed<T>> for CertFault {
    ghost use Rattle.std.specs.Prelude.{◌≡◌};
    ghost use Rattle.certificate.specs.declared.fault.CertFault.TheVariants.{Memory};

    ghost from_gives = { λ _ e. e ≡ Memory };

    fn from(_: AllocFailed<T>) -> Self {
        CertFault::Memory
    }
}

impl CertFault {
    ghost use Rattle.std.specs.Prelude.{◌≡◌};
    ghost use Rattle.texts.specs.Words.{words_of};
    ghost use Rattle.certificate.specs.Words.{certificate_words};

    /// What is wrong with the file, as its line says it; of want of memory there is no word.
    pub fn words(self) -> [Word<'static>; 2]
        ensures { words_of result ≡ certificate_words self }
    {
        match self {
            CertFault::Line(line) => [Word::Text(b"line"), Word::Number(line)],
            CertFault::Order(line) => [Word::Text(b"order"), Word::Number(line)],
            CertFault::Memory => [Word::Absent; 2],
        }
    }
}
