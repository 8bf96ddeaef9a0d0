//! Why a text is no certificate.

use std::alloc::{AllocError, AllocFailed};
use thiserror::Error;

/// Why a text is not read as a certificate.
#[derive(Clone, Copy, Debug, Error)]
pub enum CertificateError {
    /// No certificate begins with the lines up to and with this one, counted from 1. Where the text
    /// stops short, it is the line after the last.
    #[error("the certificate breaks at line {line}")]
    Broken { line: u32 },
    /// Memory ran out.
    #[error("out of memory")]
    Memory,
}

impl From<AllocError> for CertificateError {
    ghost use Rattle.std.specs.Prelude.{◌≡◌};
    ghost use Rattle.rela_certfile.specs.declared.error.CertificateError.TheVariants.{Memory};

    ghost from_gives = { λ _ e. e ≡ Memory };

    fn from(_refused: AllocError) -> CertificateError {
        CertificateError::Memory
    }
}

impl<T: Drop> From<AllocFailed<T>> for CertificateError {
    ghost use Rattle.std.specs.Prelude.{◌≡◌};
    ghost use Rattle.rela_certfile.specs.declared.error.CertificateError.TheVariants.{Memory};

    ghost from_gives = { λ _ e. e ≡ Memory };

    fn from(_refused: AllocFailed<T>) -> CertificateError {
        CertificateError::Memory
    }
}
