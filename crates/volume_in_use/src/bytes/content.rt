//! What is written to a file.
ghost use Rattle.std.specs.Prelude.{◌≡◌, ◌≤◌, ◌<◌, ◌+◌, ◌^◌, length, take, drop};
ghost use Rattle.volume_in_use.specs.bytes.Contents.{bytes_of};

/// What is written: a byte over and over, or these bytes.
#[derive(Clone, Copy, Debug)]
pub enum Content<'a> {
    Same { len: u32, value: u8 },
    Bytes(&'a [u8]),
}

impl Content<'_> {
    /// How many bytes are written.
    pub fn count(&self) -> u32
        requires { length (bytes_of self.now) < 2 ^ 32 }
        ensures { result ≡ length (bytes_of self.now) }
    {
        match self {
            Content::Same { len, .. } => *len,
            Content::Bytes(bytes) => bytes.len() as u32,
        }
    }

    // Those bytes from `from` on that `place` has room for.
    pub(crate) fn copy_to(&self, from: usize, place: &mut [u8])
        requires { from + length place.old ≤ length (bytes_of self.now) }
        ensures { place.new ≡ take (length place.old) (drop from (bytes_of self.now)) }
    {
        match self {
            Content::Same { value, .. } => place.fill(*value),
            Content::Bytes(bytes) => {
                let end = from + place.len();
                place.copy_from_slice(&bytes[from..end]);
            }
        }
    }
}
