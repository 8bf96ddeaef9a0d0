//! Names: what bytes may be one, and which of them a location may have.

ghost use Rattle.std.specs.Prelude.{◌≡◌, ◌≢◌, ◌↔◌, true, false, IsTrue, IfOk, OnOk, IsErrOf};
ghost use Rattle.std.specs.List.{list_all};
ghost use Rattle.rela_names.specs.Name.{is_name_byte, is_name, IsName, is_reserved, IsLocationName};

use std::alloc::{AllocError, AllocFailed, Global};
use std::marker::Model;
use thiserror::Error;

/// The greatest number of bytes in a name.
pub const MAX_NAME_LEN: usize = 64;

/// Why bytes are not taken as a name.
#[derive(Debug, PartialEq, Eq, Drop, Error)]
pub enum NameError {
    /// The bytes are not 1 to 64 name bytes.
    #[error("a name has 1 to 64 letters, digits and the marks _ . : / -")]
    Bad,
    /// The bytes are `drop` or `loop`, which are no names of locations.
    #[error("no location is called drop or loop")]
    Reserved,
    /// Memory ran out.
    #[error("out of memory")]
    Memory,
}

impl From<AllocError> for NameError {
    ghost use Rattle.rela_names.specs.declared.name.NameError.TheVariants.{Memory};

    ghost from_gives = { λ _ e. e ≡ Memory };

    fn from(_error: AllocError) -> NameError {
        NameError::Memory
    }
}

impl<T: Drop> From<AllocFailed<T>> for NameError {
    ghost use Rattle.rela_names.specs.declared.name.NameError.TheVariants.{Memory};

    ghost from_gives = { λ _ e. e ≡ Memory };

    fn from(_error: AllocFailed<T>) -> NameError {
        NameError::Memory
    }
}

/// The name of a location, a device, a flow or the like: 1 to 64 letters, digits and the marks
/// `_`, `.`, `:`, `/` and `-`. Names compare by their bytes.
#[derive(Debug, Drop)]
pub struct Name {
    /// The 1 to 64 bytes of the name.
    bytes: Vec<u8>,
}

impl Model for Name {
    ghost use Rattle.std.specs.Prelude.{List, ℕ};
    ghost use Rattle.rela_names.specs.Name.{IsName};

    ghost Value = { List ℕ };

    ghost view = { λ name. name.bytes.items };

    ghost invariant = { λ name. IsName name.bytes.items };
}

/// Whether the byte may stand in a name: a letter, a digit or one of `_`, `.`, `:`, `/` and `-`.
pub fn is_name_byte(byte: u8) -> bool
    ensures { result ≡ is_name_byte byte }
{
    byte.is_ascii_alphanumeric() || matches!(byte, b'_' | b'.' | b':' | b'/' | b'-')
}

/// Whether these are 1 to 64 name bytes. Time: constant, since no byte past the 64th is looked at.
pub fn is_name(bytes: &[u8]) -> bool
    ensures { result ≡ is_name bytes.now }
{
    1 <= bytes.len() && bytes.len() <= MAX_NAME_LEN && has_name_bytes_only(bytes)
}

/// Whether each of the bytes may stand in a name, which is so of none at all.
fn has_name_bytes_only(bytes: &[u8]) -> bool
    ensures { result ≡ list_all is_name_byte bytes.now }
{
    bytes.iter().all(|byte| is_name_byte(*byte))
}

/// Whether the bytes are `drop` or `loop`, the symbols that end a path and stand for no location.
fn is_reserved(bytes: &[u8]) -> bool
    ensures { result ≡ is_reserved bytes.now }
{
    bytes == b"drop".as_slice() || bytes == b"loop".as_slice()
}

impl Name {
    /// The name of these bytes, which are copied.
    ///
    /// # Errors
    ///
    /// `Bad` where they are not 1 to 64 name bytes; `Memory` where memory runs out. Never
    /// `Reserved`.
    pub fn from_bytes(alloc: Global, bytes: &[u8]) -> Result<Name, NameError>
        ensures ok { IfOk result (λ name. name ≡ bytes.now) }
        ensures name { OnOk result (IsName bytes.now) }
        ensures bad { IsErrOf result NameError.Bad ↔ (is_name bytes.now ≡ false) }
        ensures unreserved { result ≢ Err NameError.Reserved }
    {
        if !is_name(bytes) {
            return Err(NameError::Bad);
        }
        let bytes = Vec::from_slice(alloc, bytes)?;
        Ok(Name { bytes })
    }

    /// The name of these bytes, which a location may have.
    ///
    /// # Errors
    ///
    /// `Bad` where they are not 1 to 64 name bytes; else `Reserved` where they are `drop` or
    /// `loop`; `Memory` where memory runs out.
    pub fn location(alloc: Global, bytes: &[u8]) -> Result<Name, NameError>
        ensures ok { IfOk result (λ name. name ≡ bytes.now) }
        ensures location_name { OnOk result (IsLocationName bytes.now) }
        ensures bad { IsErrOf result NameError.Bad ↔ (is_name bytes.now ≡ false) }
        ensures reserved { IsErrOf result NameError.Reserved ↔ IsTrue (is_reserved bytes.now) }
    {
        if is_reserved(bytes) {
            return Err(NameError::Reserved);
        }
        Name::from_bytes(alloc, bytes)
    }

    /// The bytes of the name.
    pub fn as_bytes(&self) -> &[u8]
        ensures bytes { result.now ≡ self.now }
        ensures name { IsName self.now }
    {
        self.bytes.as_slice()
    }

    /// The same name once more, with bytes of its own.
    ///
    /// # Errors
    ///
    /// Only where memory is wanted.
    pub fn copy(&self, alloc: Global) -> Result<Name, AllocError>
        ensures { IfOk result (λ name. name ≡ self.now) }
    {
        let bytes = Vec::from_slice(alloc, self.bytes.as_slice())?;
        Ok(Name { bytes })
    }
}
