//! What calls and actors change.
use crate::at_once::PlainVolume;
use crate::known::Known;
use commit_actor::JournalPart;
use page_cache::Pages;

/// The journal's part, the volume, its cached pages, for each zone the transaction that took it for a file, and what is
/// known of the volume.
#[derive(Drop)]
pub struct HostParts {
    pub journal: JournalPart,
    pub volume: PlainVolume,
    pub pages: Pages,
    pub owners: Vec<u64>,
    pub known: Known,
}
