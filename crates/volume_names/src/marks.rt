//! The bit of an inode is written.
ghost use Rattle.std.specs.Prelude.{◌≡◌, ◌≤◌, ◌+◌, [], ◌∷◌};
ghost use Rattle.volume_model.specs.Edits.{edited_all};
ghost use Rattle.volume_model.specs.Touched.{and_then};
ghost use Rattle.volume_steps.specs.Now.{tells_writes};
ghost use Rattle.volume_steps.specs.Zones.{inode_bit};

use blk_base::Image;
use minix_layout::Geometry;
use volume_in_use::now::Touched;
use volume_model::editing::set_bit;

/// Writes the bit of an inode: whether it is in use.
pub fn mark_inode(blocks: &mut Image, g: &Geometry, value: bool, number: u16, touched: &mut Touched)
    requires { 1 ≤ touched.old.spare }
    ensures blocks { blocks.new ≡ edited_all g.now blocks.old (inode_bit number value ∷ []) }
    ensures touched { touched.new.touched ≡ and_then touched.old.touched (tells_writes g.now (inode_bit number value ∷ [])) }
    ensures spare { touched.new.spare + 1 ≡ touched.old.spare }
{
    set_bit(blocks, g, 2, number, value);
    touched.note_block(2 + u32::from(number / 8192));
}
