//! The pieces that an input is cut into, each with its own octets.

/// A set message or a mode message, each of whole records, one record that begins no message, or a rest
/// of less than a record.
#[derive(Clone, Copy)]
pub enum Piece<'a> {
    Set(&'a [u8]),
    Mode(&'a [u8]),
    Bad(&'a [u8; 32]),
    Short(&'a [u8]),
}
