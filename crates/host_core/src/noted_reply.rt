//! A reply that is given and noted.
ghost use Rattle.std.specs.Prelude.{◌≡◌, true, IfOk, OnErr};
ghost use Rattle.host_core.specs.at_once.Replies.{is_of_tree};
ghost use Rattle.host_core.specs.code.Replies.{has_list};

use blk_base::NoMemory;
use std::alloc::Global;
use std::marker::Model;
use tree_model::Reply;

/// A reply of the tree, twice: one is given to the caller, and one is noted.
#[derive(Drop)]
pub struct NotedReply {
    given: Reply,
    noted: Reply,
}

impl Model for NotedReply {
    ghost use Rattle.std.specs.Prelude.{◌≡◌, true};
    ghost use Rattle.tree_model.specs.declared.call.Reply.{Reply};
    ghost use Rattle.host_core.specs.at_once.Replies.{is_of_tree};

    ghost Value = { Reply };

    ghost view = { λ a. a.given };

    ghost invariant = { λ a. (a.noted ≡ a.given) × (is_of_tree a.given ≡ true) };
}

impl NotedReply {
    /// That of a reply. Only one that has a list takes memory.
    pub fn of(alloc: Global, reply: Reply) -> Result<NotedReply, NoMemory>
        requires { is_of_tree reply ≡ true }
        ensures ok { IfOk result (λ a. a ≡ reply) }
        ensures err { OnErr result (has_list reply ≡ true) }
    {
        let noted = copy_reply(alloc, &reply)?;
        Ok(NotedReply {
            given: reply,
            noted,
        })
    }

    /// The one that is given, and the one that is noted.
    pub fn split(self) -> (Reply, Reply)
        ensures given { result.0 ≡ self }
        ensures noted { result.1 ≡ self }
        ensures tree { is_of_tree self ≡ true }
    {
        let NotedReply { given, noted } = self;
        (given, noted)
    }
}

// The same reply again.
fn copy_reply(alloc: Global, reply: &Reply) -> Result<Reply, NoMemory>
    ensures ok { IfOk result (λ r. r ≡ reply.now) }
    ensures err { OnErr result (has_list reply.now ≡ true) }
{
    let copy = match reply {
        Reply::Bytes(bytes) => Reply::Bytes(bytes.copy(alloc)?),
        Reply::Names(names) => Reply::Names(names.copy(alloc)?),
        Reply::Stat { dir, size, links } => Reply::Stat {
            dir: *dir,
            size: *size,
            links: *links,
        },
        Reply::ReadOnly(id) => Reply::ReadOnly(*id),
        Reply::Ok => Reply::Ok,
        Reply::NotFound => Reply::NotFound,
        Reply::Exists => Reply::Exists,
        Reply::NotDir => Reply::NotDir,
        Reply::IsDir => Reply::IsDir,
        Reply::NotEmpty => Reply::NotEmpty,
        Reply::NameTooLong => Reply::NameTooLong,
        Reply::TooManyLinks => Reply::TooManyLinks,
        Reply::TooBig => Reply::TooBig,
        Reply::NoSpace => Reply::NoSpace,
        Reply::NoInode => Reply::NoInode,
        Reply::BadPath => Reply::BadPath,
        Reply::Invalid => Reply::Invalid,
        Reply::Down => Reply::Down,
        Reply::SessionFull => Reply::SessionFull,
    };
    Ok(copy)
}
