//! What refuses a call that takes no zone.
ghost use Rattle.std.specs.Prelude.{◌≡◌, ℕ};
ghost use Rattle.tree_model.specs.Calls.{rmdir, unlink, truncate, read, list, stat, barrier};
ghost use Rattle.volume_steps.specs.Now.{tree_of_now};
ghost use Rattle.volume_calls.specs.code.Rows.{Agrees};

use crate::PlainVolume;
use crate::directories::has_no_names;
use minix_layout::LARGEST_SIZE;
use tree_model::{ByteList, Reply, names_of};
use volume_model::Part;

impl PlainVolume {
    pub(crate) fn rmdir(&self, path: &ByteList) -> Result<(), Reply>
        ensures { Agrees result (rmdir (tree_of_now self.now) path.now) }
    {
        let names = names_of(path)?;
        if names.is_empty() {
            return Err(Reply::Invalid);
        }
        let _ = self.place_of(names)?;
        let found = self.found(names)?;
        let Part::Directory(directory) = &found.placed.part else {
            return Err(Reply::NotDir);
        };
        if !has_no_names(directory) {
            return Err(Reply::NotEmpty);
        }
        Ok(())
    }

    pub(crate) fn unlink(&self, path: &ByteList) -> Result<(), Reply>
        ensures { Agrees result (unlink (tree_of_now self.now) path.now) }
    {
        let names = names_of(path)?;
        if names.is_empty() {
            return Err(Reply::Invalid);
        }
        let _ = self.place_of(names)?;
        let found = self.found(names)?;
        match &found.placed.part {
            Part::Directory(_) => Err(Reply::IsDir),
            Part::File(_) => Ok(()),
        }
    }

    pub(crate) fn truncate(&self, path: &ByteList, size: u32) -> Result<(), Reply>
        ensures { Agrees result (truncate (tree_of_now self.now) path.now size) }
    {
        let names = names_of(path)?;
        let found = self.found(names)?;
        if let Part::Directory(_) = &found.placed.part {
            return Err(Reply::IsDir);
        }
        if size > LARGEST_SIZE {
            return Err(Reply::TooBig);
        }
        Ok(())
    }

    pub(crate) fn read(&self, path: &ByteList) -> Result<(), Reply>
        ensures { (off len : ℕ) → Agrees result (read (tree_of_now self.now) path.now off len) }
    {
        let names = names_of(path)?;
        let found = self.found(names)?;
        match &found.placed.part {
            Part::Directory(_) => Err(Reply::IsDir),
            Part::File(_) => Ok(()),
        }
    }

    pub(crate) fn list(&self, path: &ByteList) -> Result<(), Reply>
        ensures { Agrees result (list (tree_of_now self.now) path.now) }
    {
        let names = names_of(path)?;
        let found = self.found(names)?;
        match &found.placed.part {
            Part::Directory(_) => Ok(()),
            Part::File(_) => Err(Reply::NotDir),
        }
    }

    pub(crate) fn stat(&self, path: &ByteList) -> Result<(), Reply>
        ensures { Agrees result (stat (tree_of_now self.now) path.now) }
    {
        let names = names_of(path)?;
        let found = self.found(names)?;
        match &found.placed.part {
            Part::Directory(_) => Ok(()),
            Part::File(_) => Ok(()),
        }
    }

    pub(crate) fn barrier(&self, path: &ByteList) -> Result<(), Reply>
        ensures { Agrees result (barrier (tree_of_now self.now) path.now) }
    {
        let names = names_of(path)?;
        let _ = self.found(names)?;
        Ok(())
    }
}
