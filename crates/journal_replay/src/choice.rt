//! What the device is to do next in a recovery.

/// A device step of a recovery: a transfer or a persist at that place of the eligible list, or what a recovery does by
/// itself, which is to transfer where it can and else to persist.
#[derive(Clone, Copy, Debug, PartialEq, Eq)]
pub enum Choice {
    Transfer(u32),
    Persist(u32),
    Default,
}

/// The same choice so many times, one after the other.
#[derive(Clone, Copy, Debug, PartialEq, Eq)]
pub struct Repeated {
    pub choice: Choice,
    pub times: u32,
}
