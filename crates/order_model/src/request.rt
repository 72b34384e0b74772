//! Requests: what a host submits.
ghost use Rattle.std.specs.Prelude.{◌≡◌};

use blk_base::Block;

/// What a request asks for.
#[derive(Drop, PartialEq, Eq, Debug)]
pub enum Kind {
    /// The block gets this body.
    Put { block: u32, body: Block },
    /// All that was submitted before is to be on the medium.
    Flush,
}

/// A request of the host. The request at place i of a submission has the id i.
#[derive(Drop, PartialEq, Eq, Debug)]
pub struct Request {
    pub id: u64,
    pub kind: Kind,
    /// It keeps the order that barriers fix. A barrier and a flush are order-preserving.
    pub ordered: bool,
    /// Order-preserving puts up to this one become persistent before any later put.
    pub barrier: bool,
}

impl Kind {
    /// A copy. It takes no memory.
    pub fn copy(&self) -> Kind
        ensures { result ≡ self.now }
    {
        match self {
            Kind::Put { block, body } => Kind::Put {
                block: *block,
                body: body.copy(),
            },
            Kind::Flush => Kind::Flush,
        }
    }
}

impl Request {
    /// A copy. It takes no memory.
    pub fn copy(&self) -> Request
        ensures { result ≡ self.now }
    {
        Request {
            id: self.id,
            kind: self.kind.copy(),
            ordered: self.ordered,
            barrier: self.barrier,
        }
    }
}
