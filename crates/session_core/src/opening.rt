//! Sessions that are opened: from the sizes of a volume and its journal to the image for the device and the host on it.
//!
//! `volume` has the volume in use of an image that was made, `programs` the calls that a host is given, and `opening` the
//! session.
//!
//! Stands on `mount_make`, which makes the image, on `volume_in_use::now`, which has the volume, and on `host_core`; `call_sessions::made` says what a session on such an image begins with.
mod opening;
mod programs;
mod volume;

pub use opening::{OpenedSession, open_session};
