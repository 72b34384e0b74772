//! Kinds of calls.
ghost use Rattle.std.specs.Prelude.{◌≡◌};
ghost use Rattle.flush_actor.specs.Kinds.{is_begun, is_data, is_durable, is_reading, is_whole, makes_durable};

/// What a call of a user is, as far as flushes and transactions go.
#[derive(Clone, Copy, PartialEq, Eq, Debug)]
pub enum CallKind {
    /// It reads, lists or tells of a node.
    Reading,
    /// It may change the tree.
    Changing,
    /// Order for a file and its metadata.
    FileBarrier,
    /// Order for the data of a file.
    DataBarrier,
    /// A file and its metadata are to be durable.
    FileSync,
    /// The data of a file is to be durable.
    DataSync,
    /// All is to be durable.
    WholeSync,
}

impl CallKind {
    /// Whether such a call begins and ends. All others are answered in one step.
    pub fn is_begun(self) -> bool
        ensures { result ≡ is_begun self }
    {
        !matches!(self, CallKind::Reading | CallKind::Changing)
    }

    pub fn is_data(self) -> bool
        ensures { result ≡ is_data self }
    {
        matches!(self, CallKind::DataBarrier | CallKind::DataSync)
    }

    /// Whether it waits for the device.
    pub fn is_durable(self) -> bool
        ensures { result ≡ is_durable self }
    {
        matches!(
            self,
            CallKind::FileSync | CallKind::DataSync | CallKind::WholeSync
        )
    }

    /// Whether no failed completion ends it.
    pub fn is_reading(self) -> bool
        ensures { result ≡ is_reading self }
    {
        matches!(self, CallKind::Reading)
    }

    /// Whether it is about all files.
    pub fn is_whole(self) -> bool
        ensures { result ≡ is_whole self }
    {
        matches!(self, CallKind::WholeSync)
    }

    /// Whether it makes a transaction durable, whose commit block it then needs.
    pub fn makes_durable(self) -> bool
        ensures { result ≡ makes_durable self }
    {
        matches!(self, CallKind::FileSync | CallKind::WholeSync)
    }
}
