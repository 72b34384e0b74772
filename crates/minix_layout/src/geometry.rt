//! Superblocks: read, written and tested.
ghost use Rattle.std.specs.Prelude.{◌≡◌, ◌≢◌, ◌≤◌, ◌↔◌, IfOk, IsErr};
ghost use Rattle.minix_layout.specs.Widths.{IsWidth};
ghost use Rattle.minix_layout.specs.Words.{first_zone};
ghost use Rattle.minix_layout.specs.Geometry.{geometry_made, is_consistent, IsSound};

use crate::division::{Geometry, TooSmall};

impl Geometry {
    /// A new volume of so many inodes, and so many blocks in all. The maps have a bit for each inode and each
    /// block, and one more. `TooSmall` where the tables would leave no zone of data.
    pub fn make(inodes: u16, zones: u16, width: u16) -> Result<Geometry, TooSmall>
        requires some { inodes ≢ 0 }
        requires width { IsWidth width }
        ensures made { IfOk result (λ g. g ≡ geometry_made inodes zones width) }
        ensures sound { IfOk result (λ g. IsSound g) }
        ensures too_small { IsErr result ↔ (zones ≤ first_zone inodes zones) }
    {
        let imap = (u32::from(inodes) + 1).div_ceil(8192);
        let zmap = (u32::from(zones) + 1).div_ceil(8192);
        let first = 2 + imap + zmap + u32::from(inodes).div_ceil(32);
        if first >= u32::from(zones) {
            return Err(TooSmall);
        }
        Ok(Geometry {
            inodes,
            zones,
            imap: imap as u16,
            zmap: zmap as u16,
            first: first as u16,
            width,
        })
    }
}

// Whether the numbers of a volume agree.
pub fn is_consistent(g: &Geometry) -> bool
    ensures { result ≡ is_consistent g.now }
{
    let (inodes, zones, first) = (u32::from(g.inodes), u32::from(g.zones), u32::from(g.first));
    let (imap, zmap) = (u32::from(g.imap), u32::from(g.zmap));
    inodes != 0
        && first < zones
        && 2 + imap + zmap + inodes.div_ceil(32) <= first
        && inodes < imap * 8192
        && zones - first < zmap * 8192
}
