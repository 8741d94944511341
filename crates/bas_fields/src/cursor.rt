ghost use Rattle.std.specs.Prelude.{◌≡◌, ◌<◌, ◌≤◌, ◌↔◌, [], ◌∷◌, ◌++◌, length, IfOk, IfErr, IsOk, OnOk, OnErr};
ghost use Rattle.std.specs.Int.{to_le_bytes, w64};

use bas_edge::Memory;
use std::marker::Model;
use thiserror::Error;

/// Why a field can't be read.
#[derive(Clone, Copy, Debug, PartialEq, Eq, Error)]
pub enum FieldError {
    /// Fewer bytes are left than the field has.
    #[error("too few bytes")]
    Short,
    /// Bytes are left behind the last field.
    #[error("bytes are left")]
    Rest,
}

/// Reads fields one after another. Contracts see it as the list of the bytes that are left.
#[derive(Debug, Drop)]
pub struct Cursor<'a> {
    left: &'a [u8],
}

impl<'a> Model for Cursor<'a> {
    ghost use Rattle.std.specs.Prelude.{List, ℕ};

    ghost Value = { List ℕ };

    ghost view = { λ cursor. cursor.left.now };
}

impl<'a> Cursor<'a> {
    /// A cursor before the first of the bytes.
    pub fn new(bytes: &'a [u8]) -> Cursor<'a>
        ensures { result ≡ bytes.now }
    {
        Cursor { left: bytes }
    }

    /// How many bytes are left.
    pub fn left(&self) -> usize
        ensures { result ≡ length self.now }
    {
        self.left.len()
    }

    /// The next byte. Where none is left the cursor stays.
    pub fn take_u8(&mut self) -> Result<u8, FieldError>
        ensures taken { IfOk result (λ byte. self.old ≡ byte ∷ self.new) }
        ensures enough { IsOk result ↔ (0 < length self.old) }
        ensures short { IfErr result (λ error. error ≡ FieldError.Short) }
        ensures same { OnErr result (self.new ≡ self.old) }
    {
        let Some((byte, left)) = self.left.split_first() else {
            return Err(FieldError::Short);
        };
        self.left = left;
        Ok(*byte)
    }

    /// The number of the next 8 bytes, the lowest byte first. Where fewer are left the cursor stays.
    pub fn take_u64(&mut self) -> Result<u64, FieldError>
        ensures taken { IfOk result (λ number. self.old ≡ to_le_bytes w64 number ++ self.new) }
        ensures enough { IsOk result ↔ (7 < length self.old) }
        ensures short { IfErr result (λ error. error ≡ FieldError.Short) }
        ensures same { OnErr result (self.new ≡ self.old) }
    {
        let Some((bytes, left)) = self.left.split_first_chunk::<8>() else {
            return Err(FieldError::Short);
        };
        self.left = left;
        Ok(number_of(bytes))
    }

    /// The next `n` bytes. Where fewer are left the cursor stays.
    pub fn take_bytes(&mut self, n: usize) -> Result<&'a [u8], FieldError>
        ensures taken { IfOk result (λ bytes. self.old ≡ bytes.now ++ self.new) }
        ensures count { IfOk result (λ bytes. length bytes.now ≡ n) }
        ensures enough { IsOk result ↔ (n ≤ length self.old) }
        ensures short { IfErr result (λ error. error ≡ FieldError.Short) }
        ensures same { OnErr result (self.new ≡ self.old) }
    {
        let Some((bytes, left)) = self.left.split_at_checked(n) else {
            return Err(FieldError::Short);
        };
        self.left = left;
        Ok(bytes)
    }

    /// That no byte is left.
    pub fn end(&self) -> Result<(), FieldError>
        ensures empty { IsOk result ↔ (self.now ≡ []) }
        ensures rest { IfErr result (λ error. error ≡ FieldError.Rest) }
    {
        if self.left.is_empty() {
            Ok(())
        } else {
            Err(FieldError::Rest)
        }
    }
}

/// The number of the bytes, the lowest byte first.
fn number_of(bytes: &[u8; 8]) -> u64
    ensures { to_le_bytes w64 result ≡ bytes.now }
{
    u64::from_le_bytes(*bytes)
}

/// Adds the number's 8 bytes at the end, the lowest byte first. After an `Err` the bytes are as before.
pub fn put_u64(out: &mut Vec<u8>, n: u64) -> Result<(), Memory>
    ensures put { OnOk result (out.new.items ≡ out.old.items ++ to_le_bytes w64 n) }
    ensures same { OnErr result (out.new.items ≡ out.old.items) }
{
    out.extend_from_slice(&n.to_le_bytes())?;
    Ok(())
}
