//! Fields of fixed width in a slice of bytes, in either byte order.
//!
//! Stands on `byteorder`. `specs/Fields.antt` has the words of the contracts: `number_at` and `put` for
//! one field, `written` for a table of fields, `record_at` and `put_record` for records of one size that
//! lie one after the other. `specs/laws/ReadLaws.antt` has what is read after a write: a number that fits its
//! width, as a clause `fits` says of each that is written here, is read as it was written.
#![tactic(auto)]

ghost use Rattle.std.specs.Prelude.{◌≡◌, ◌+◌, ◌^◌, ◌<◌, ◌≤◌, length};
ghost use Rattle.byte_fields.specs.Fields.{Order, number_at, put, zeros};
ghost use Rattle.byte_fields.specs.Fields.Order.{little, big};

mod laws;

use byteorder::{BigEndian, ByteOrder, LittleEndian};
pub use laws::{fields_are_read, numbers_are_read, records_are_read};

/// So many bytes of 0.
#[tactic(auto, unfolding(crate::specs::Fields::zeros))]
pub fn zeroed<const N: usize>() -> [u8; N]
    ensures { result ≡ zeros N }
{
    [0; N]
}

/// The byte at place `at`, a number of one byte in either order.
pub fn u8_at(bytes: &[u8], at: usize) -> u8
    requires { at < length bytes.now }
    ensures { (order : Order) → result ≡ number_at order 1 at bytes.now }
{
    bytes[at]
}

/// Writes a number of one byte at place `at`.
pub fn put_u8(bytes: &mut [u8], at: usize, n: u8)
    requires { at < length bytes.old }
    ensures value { (order : Order) → bytes.new ≡ put order 1 at n bytes.old }
    ensures fits { n < 2 ^ 8 }
{
    bytes[at] = n;
}

/// The 16 bits at place `at`, the lowest byte first.
pub fn u16_at_le(bytes: &[u8], at: usize) -> u16
    requires { at + 2 ≤ length bytes.now }
    ensures { result ≡ number_at little 2 at bytes.now }
{
    LittleEndian::read_u16(&bytes[at..])
}

/// Writes 16 bits at place `at`, the lowest byte first.
pub fn put_u16_le(bytes: &mut [u8], at: usize, n: u16)
    requires { at + 2 ≤ length bytes.old }
    ensures value { bytes.new ≡ put little 2 at n bytes.old }
    ensures fits { n < 2 ^ 16 }
{
    LittleEndian::write_u16(&mut bytes[at..at + 2], n);
}

/// The 16 bits at place `at`, the highest byte first.
pub fn u16_at_be(bytes: &[u8], at: usize) -> u16
    requires { at + 2 ≤ length bytes.now }
    ensures { result ≡ number_at big 2 at bytes.now }
{
    BigEndian::read_u16(&bytes[at..])
}

/// Writes 16 bits at place `at`, the highest byte first.
pub fn put_u16_be(bytes: &mut [u8], at: usize, n: u16)
    requires { at + 2 ≤ length bytes.old }
    ensures value { bytes.new ≡ put big 2 at n bytes.old }
    ensures fits { n < 2 ^ 16 }
{
    BigEndian::write_u16(&mut bytes[at..at + 2], n);
}

/// The 32 bits at place `at`, the lowest byte first.
pub fn u32_at_le(bytes: &[u8], at: usize) -> u32
    requires { at + 4 ≤ length bytes.now }
    ensures { result ≡ number_at little 4 at bytes.now }
{
    LittleEndian::read_u32(&bytes[at..])
}

/// Writes 32 bits at place `at`, the lowest byte first.
pub fn put_u32_le(bytes: &mut [u8], at: usize, n: u32)
    requires { at + 4 ≤ length bytes.old }
    ensures value { bytes.new ≡ put little 4 at n bytes.old }
    ensures fits { n < 2 ^ 32 }
{
    LittleEndian::write_u32(&mut bytes[at..at + 4], n);
}

/// The 32 bits at place `at`, the highest byte first.
pub fn u32_at_be(bytes: &[u8], at: usize) -> u32
    requires { at + 4 ≤ length bytes.now }
    ensures { result ≡ number_at big 4 at bytes.now }
{
    BigEndian::read_u32(&bytes[at..])
}

/// Writes 32 bits at place `at`, the highest byte first.
pub fn put_u32_be(bytes: &mut [u8], at: usize, n: u32)
    requires { at + 4 ≤ length bytes.old }
    ensures value { bytes.new ≡ put big 4 at n bytes.old }
    ensures fits { n < 2 ^ 32 }
{
    BigEndian::write_u32(&mut bytes[at..at + 4], n);
}
