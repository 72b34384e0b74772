//! Numbers of 64 bits in a slice of bytes, with their highest byte first.
ghost use Rattle.std.specs.Prelude.{◌≡◌, ◌+◌, ◌≤◌, length};
ghost use Rattle.byte_fields.specs.Fields.{number_at, put};
ghost use Rattle.byte_fields.specs.Fields.Order.{big};

use byteorder::{BigEndian, ByteOrder};

// The 64 bits at place `at`.
pub(crate) fn u64_at_be(bytes: &[u8], at: usize) -> u64
    requires { at + 8 ≤ length bytes.now }
    ensures { result ≡ number_at big 8 at bytes.now }
{
    BigEndian::read_u64(&bytes[at..])
}

// Writes 64 bits at place `at`.
pub(crate) fn put_u64_be(bytes: &mut [u8], at: usize, n: u64)
    requires { at + 8 ≤ length bytes.old }
    ensures { bytes.new ≡ put big 8 at n bytes.old }
{
    BigEndian::write_u64(&mut bytes[at..at + 8], n);
}
