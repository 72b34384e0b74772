//! The words that begin lines of calls, in groups by what stands behind them.

/// The calls on one path that have nothing but the path.
#[derive(Clone, Copy, PartialEq, Eq, Debug)]
pub enum PathWord {
    Mkdir,
    Rmdir,
    Create,
    Unlink,
    List,
    Stat,
    Fsync,
    Fdatasync,
    Fbarrier,
    Fdatabarrier,
}

/// The calls on two paths.
#[derive(Clone, Copy, PartialEq, Eq, Debug)]
pub enum PairWord {
    Link,
    Rename,
}

/// The calls on a place in a file.
#[derive(Clone, Copy, PartialEq, Eq, Debug)]
pub enum PlaceWord {
    Write,
    Bytes,
    Read,
}

/// The first word of a call's line.
#[derive(Clone, Copy, PartialEq, Eq, Debug)]
pub enum CallWord {
    OfPath(PathWord),
    OfPair(PairWord),
    OfPlace(PlaceWord),
    Truncate,
    Sync,
}
