//! The lists of a block of the log.
ghost use Rattle.std.specs.Prelude.{◌≡◌, [], IfOk};

use crate::Tag;
use blk_base::NoMemory;
use std::alloc::Global;
use std::marker::Model;

/// The tags of a descriptor, in their order.
#[derive(Drop, Debug)]
pub struct TagList {
    tags: Vec<Tag>,
}

impl Model for TagList {
    ghost use Rattle.std.specs.Prelude.{List};
    ghost use Rattle.journal_blocks.specs.declared.tag.Tag.{Tag};

    ghost Value = { List Tag };

    ghost view = { λ l. l.tags.items };
}

impl TagList {
    /// No tag.
    pub fn new(alloc: Global) -> TagList
        ensures { result ≡ [] }
    {
        TagList {
            tags: Vec::new(alloc),
        }
    }

    pub(crate) fn of(tags: Vec<Tag>) -> TagList
        ensures { result ≡ tags.items }
    {
        TagList { tags }
    }

    pub fn as_slice(&self) -> &[Tag]
        ensures { result.now ≡ self.now }
    {
        &self.tags
    }

    /// The same tags again.
    pub fn copy(&self, alloc: Global) -> Result<TagList, NoMemory>
        ensures { IfOk result (λ l. l ≡ self.now) }
    {
        Ok(TagList {
            tags: Vec::from_slice(alloc, &self.tags)?,
        })
    }
}

/// The block numbers of a revoke block, in their order.
#[derive(Drop, Debug)]
pub struct NumberList {
    numbers: Vec<u64>,
}

impl Model for NumberList {
    ghost use Rattle.std.specs.Prelude.{List, ℕ};

    ghost Value = { List ℕ };

    ghost view = { λ l. l.numbers.items };
}

impl NumberList {
    pub(crate) fn of(numbers: Vec<u64>) -> NumberList
        ensures { result ≡ numbers.items }
    {
        NumberList { numbers }
    }

    pub fn as_slice(&self) -> &[u64]
        ensures { result.now ≡ self.now }
    {
        &self.numbers
    }

    /// The same numbers again.
    pub fn copy(&self, alloc: Global) -> Result<NumberList, NoMemory>
        ensures { IfOk result (λ l. l ≡ self.now) }
    {
        Ok(NumberList {
            numbers: Vec::from_slice(alloc, &self.numbers)?,
        })
    }
}
