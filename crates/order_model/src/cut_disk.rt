//! What a power cut leaves, and what the device did.
ghost use Rattle.std.specs.Prelude.{◌≡◌, ◌==◌, List, length, slice_get, Some};
ghost use Rattle.std.specs.Option.{option_copied};

use crate::DeviceRecord;
use blk_base::Image;
use std::marker::Model;

/// For each block of a medium the id of the request whose body it holds, or none.
#[derive(Drop, Debug)]
pub struct Origins {
    ids: Vec<Option<u64>>,
}

impl Model for Origins {
    ghost use Rattle.std.specs.Prelude.{List, Option, ℕ};

    ghost Value = { List (Option ℕ) };

    ghost view = { λ o. o.ids.items };
}

impl Origins {
    pub fn new(ids: Vec<Option<u64>>) -> Origins
        ensures { result ≡ ids.items }
    {
        Origins { ids }
    }

    pub fn as_slice(&self) -> &[Option<u64>]
        ensures { result.now ≡ self.now }
    {
        &self.ids
    }
}

/// What a power cut leaves: the medium with the origin of each block, and what the device did.
#[derive(Drop)]
pub struct CutDisk {
    pub image: Image,
    pub origins: Origins,
    pub trace: DeviceRecord,
}
