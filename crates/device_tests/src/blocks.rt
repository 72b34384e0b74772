//! Streams that fail, and blocks and images at concrete values.
ghost use Rattle.std.specs.Prelude.{Some};

use crate::steps::expect;
use blk_base::{
    Block, Failed, Image, MemSink, MemSource, ReadEnd, Sink, SinkFault, Source, StdSink, StdSource,
    read_all, read_image, write_all,
};
use std::alloc::Global;
use std::process::Abort;

// A sink that takes one byte a call, and whose call `fails` fails.
#[derive(Drop)]
struct ByteSink {
    bytes: Vec<u8>,
    calls: u64,
    fails: u64,
    faults: u64,
}

impl Sink for ByteSink {
    ghost taken = { λ s. Some s.bytes.items };

    ghost faults = { λ s. s.faults };

    fn write(&mut self, buf: &[u8]) -> Result<usize, Failed> {
        self.calls = self.calls.saturating_add(1);
        if buf.is_empty() {
            return Ok(0);
        }
        if self.calls == self.fails || self.bytes.push(buf[0]).is_err() {
            self.faults = self.faults.saturating_add(1);
            return Err(Failed);
        }
        Ok(1)
    }
}

// A source that gives so many bytes a call, or one where `piece` is 0, and whose call `fails` fails.
#[derive(Drop)]
struct PieceSource<'a> {
    bytes: &'a [u8],
    piece: usize,
    calls: u64,
    fails: u64,
    faults: u64,
}

impl Source for PieceSource<'_> {
    ghost left = { λ s. Some s.bytes.now };

    ghost faults = { λ s. s.faults };

    fn read(&mut self, buf: &mut [u8]) -> Result<usize, Failed> {
        self.calls = self.calls.saturating_add(1);
        if self.calls == self.fails {
            self.faults = self.faults.saturating_add(1);
            return Err(Failed);
        }
        let n = self.piece.max(1).min(buf.len()).min(self.bytes.len());
        let (piece, rest) = self.bytes.split_at(n);
        buf[..n].copy_from_slice(piece);
        self.bytes = rest;
        Ok(n)
    }
}

// How each read ends, and the buffer behind it.
static READS: [(Result<usize, Failed>, [u8; 3]); 4] = [
    (Ok(3), [1, 2, 3]),
    (Err(Failed), [1, 2, 3]),
    (Ok(2), [4, 5, 3]),
    (Ok(0), [4, 5, 3]),
];

#[test]
fn reads_in_pieces(rt: HostRuntime) {
    let bytes = [1, 2, 3, 4, 5].to_vec(rt.alloc()).expect(&rt, "no bytes");
    let fails = [2].to_vec(rt.alloc()).expect(&rt, "no calls");
    let mut source = MemSource::new(bytes, fails);
    let mut buf = [9; 3];
    for (row, wanted) in READS.iter().enumerate() {
        let came = (source.read(&mut buf), buf);
        expect(&rt, "row", row, &came, wanted);
    }
}

static STD_READS: [(Result<usize, Failed>, [u8; 2]); 3] = [
    (Ok(2), [1, 2]),
    (Ok(1), [3, 2]),
    (Ok(0), [3, 2]),
];

#[test]
fn reads_from_std(rt: HostRuntime) {
    let bytes: &[u8] = &[1, 2, 3];
    let mut source = StdSource::new(bytes);
    let mut buf = [0; 2];
    for (row, wanted) in STD_READS.iter().enumerate() {
        let came = (source.read(&mut buf), buf);
        expect(&rt, "row", row, &came, wanted);
    }
}

// What is written, how the write ends, and the sink's bytes behind it.
static WRITES: [(&[u8], Result<usize, Failed>, &[u8]); 3] = [
    (&[1, 2], Ok(2), &[1, 2]),
    (&[3], Err(Failed), &[1, 2]),
    (&[4], Ok(1), &[1, 2, 4]),
];

#[test]
fn writes_in_memory(rt: HostRuntime) {
    let fails = [2].to_vec(rt.alloc()).expect(&rt, "no calls");
    let mut sink = MemSink::new(Vec::new(rt.alloc()), fails);
    for (row, (bytes, answer, written)) in WRITES.iter().enumerate() {
        let came = sink.write(bytes);
        expect(&rt, "row", row, &(came, sink.bytes()), &(*answer, *written));
    }
}

#[test]
fn writes_to_std(rt: HostRuntime) {
    let mut out = Vec::new(rt.alloc());
    let written = StdSink::new(&mut out).write(&[4, 5]);
    expect(&rt, "row", 0, &written, &Ok(2));
    expect(&rt, "row", 1, &out.as_slice(), &[4, 5].as_slice());
}

// The bytes of a source, its call that fails, how many are read at most, and how reading ends.
static WHOLES: [(&[u8], u64, u64, Result<&[u8], ReadEnd>); 6] = [
    (&[], 0, 0, Ok(&[])),
    (&[7, 8, 9], 0, 3, Ok(&[7, 8, 9])),
    (&[7, 8, 9], 0, 2, Err(ReadEnd::TooLong)),
    (&[7, 8, 9], 1, 3, Err(ReadEnd::Fault)),
    (&[7, 8, 9], 2, 3, Err(ReadEnd::Fault)),
    (&[0; 5000], 0, 5000, Ok(&[0; 5000])),
];

#[test]
fn reads_all(rt: HostRuntime) {
    for (row, (bytes, fails, most, wanted)) in WHOLES.iter().enumerate() {
        let bytes = bytes.to_vec(rt.alloc()).expect(&rt, "no bytes");
        let fails = [*fails].to_vec(rt.alloc()).expect(&rt, "no calls");
        let read = read_all(rt.alloc(), &mut MemSource::new(bytes, fails), *most);
        let came = match &read {
            Ok(read) => Ok(read.as_slice()),
            Err(end) => Err(*end),
        };
        expect(&rt, "row", row, &came, wanted);
    }
}

// The call of the sink that fails, how writing the bytes 5, 6 and 7 ends, and what the sink took.
static SINKS: [(u64, Result<(), SinkFault>, &[u8]); 3] = [
    (0, Ok(()), &[5, 6, 7]),
    (1, Err(SinkFault), &[]),
    (3, Err(SinkFault), &[5, 6]),
];

#[test]
fn writes_all(rt: HostRuntime) {
    for (row, (fails, answer, taken)) in SINKS.iter().enumerate() {
        let mut sink = ByteSink {
            bytes: Vec::new(rt.alloc()),
            calls: 0,
            fails: *fails,
            faults: 0,
        };
        let came = write_all(&mut sink, &[5, 6, 7]);
        expect(
            &rt,
            "row",
            row,
            &(came, sink.bytes.as_slice()),
            &(*answer, *taken),
        );
    }
}

#[test]
fn makes_blocks(rt: HostRuntime) {
    let mut block = Block::from_slice(&[4; 1024]).expect(&rt, "no block");
    let copy = block.copy();
    block.set(1023, 6);
    let bytes = block.as_slice();
    let is_same = copy == Block::fill(4);
    let came = (bytes[0], bytes[1022], bytes[1023], is_same);
    expect(&rt, "row", 0, &came, &(4, 4, 6, true));
}

// The byte that fills a block, the place and the value of one that differs, and whether the block is zeros and which byte
// fills it.
static FILLS: [(u8, Option<(usize, u8)>, (bool, Option<u8>)); 12] = [
    (0, None, (true, Some(0))),
    (0, Some((0, 1)), (false, None)),
    (0, Some((511, 1)), (false, None)),
    (0, Some((1023, 1)), (false, None)),
    (7, None, (false, Some(7))),
    (7, Some((0, 6)), (false, None)),
    (7, Some((511, 6)), (false, None)),
    (7, Some((1023, 6)), (false, None)),
    (255, None, (false, Some(255))),
    (255, Some((0, 0)), (false, None)),
    (255, Some((511, 0)), (false, None)),
    (255, Some((1023, 0)), (false, None)),
];

#[test]
fn sees_blocks_of_one_byte(rt: HostRuntime) {
    for (row, (fill, other, wanted)) in FILLS.iter().enumerate() {
        let mut block = Block::fill(*fill);
        if let Some((at, byte)) = other {
            assert!(rt; *at < 1024);
            block.set(*at, *byte);
        }
        expect(
            &rt,
            "row",
            row,
            &(block.is_zeros(), block.fill_byte()),
            wanted,
        );
    }
}

// The image has a block for each of these bytes, filled with it.
fn is_filled(image: &Image, fills: &[u8]) -> bool {
    if image.len() as usize != fills.len() {
        return false;
    }
    for b in 0..image.len() {
        if *image.block(b) != Block::fill(fills[b as usize]) {
            return false;
        }
    }
    true
}

// How bytes become an image.
enum Way {
    // From a source that gives so many bytes a call, and whose call of this number fails.
    Pieces(usize, u64),
    // From a source that gives what there is room for.
    AtOnce,
    // As they lie in memory.
    Memory,
}

// The bytes that fill the blocks, how many bytes lie behind them, how they are read and at most how many of them, and the
// blocks that are read or how reading ends.
type ImageRow = (
    &'static [u8],
    usize,
    Way,
    u64,
    Result<&'static [u8], ReadEnd>,
);

// What is left behind the last whole block is no block, and counts among the bytes. Of 700 bytes a call most end within a
// block, whose first bytes wait at the front of the buffer then. Calls fail in a block, behind one, where the end would be
// told, and behind it.
static IMAGES: [ImageRow; 21] = [
    (&[], 0, Way::Pieces(1, 0), 0, Ok(&[])),
    (&[], 0, Way::Pieces(700, 0), 0, Ok(&[])),
    (&[], 0, Way::AtOnce, 0, Ok(&[])),
    (&[], 1023, Way::Pieces(1, 0), 1023, Ok(&[])),
    (&[], 1023, Way::Pieces(700, 0), 1023, Ok(&[])),
    (&[], 1023, Way::AtOnce, 1023, Ok(&[])),
    (
        &[0, 7, 0, 0, 8, 9],
        5,
        Way::Pieces(1, 0),
        6149,
        Ok(&[0, 7, 0, 0, 8, 9]),
    ),
    (
        &[0, 7, 0, 0, 8, 9],
        5,
        Way::Pieces(700, 0),
        6149,
        Ok(&[0, 7, 0, 0, 8, 9]),
    ),
    (
        &[0, 7, 0, 0, 8, 9],
        5,
        Way::AtOnce,
        6149,
        Ok(&[0, 7, 0, 0, 8, 9]),
    ),
    (
        &[0, 7, 0, 0, 8, 9],
        5,
        Way::Pieces(1, 0),
        6148,
        Err(ReadEnd::TooLong),
    ),
    (
        &[0, 7, 0, 0, 8, 9],
        5,
        Way::Pieces(700, 0),
        6148,
        Err(ReadEnd::TooLong),
    ),
    (
        &[0, 7, 0, 0, 8, 9],
        5,
        Way::AtOnce,
        6148,
        Err(ReadEnd::TooLong),
    ),
    (&[0, 0], 0, Way::Pieces(1, 0), 2047, Err(ReadEnd::TooLong)),
    (&[0, 0], 0, Way::Pieces(700, 0), 2047, Err(ReadEnd::TooLong)),
    (&[0, 0], 0, Way::AtOnce, 2047, Err(ReadEnd::TooLong)),
    (&[4, 0], 1, Way::Pieces(1, 1), 2049, Err(ReadEnd::Fault)),
    (&[4, 0], 1, Way::Pieces(1, 1000), 2049, Err(ReadEnd::Fault)),
    (&[4, 0], 1, Way::Pieces(1, 1025), 2049, Err(ReadEnd::Fault)),
    (&[4, 0], 1, Way::Pieces(1, 2050), 2049, Err(ReadEnd::Fault)),
    (&[4, 0], 1, Way::Pieces(1, 2051), 2049, Ok(&[4, 0])),
    (&[1, 2, 0], 1023, Way::Memory, 4095, Ok(&[1, 2, 0])),
];

// A block for each of these bytes, filled with it, and as many bytes more.
fn bytes_of(rt: &impl Abort, alloc: Global, fills: &[u8], more: usize) -> Vec<u8> {
    let mut bytes = Vec::new(alloc);
    for fill in fills {
        let added: Result<_, _> = bytes.extend_from_slice(&[*fill; 1024]);
        added.expect(rt, "no block");
    }
    let added: Result<_, _> = bytes.extend_from_slice([3; 1023].get(..more).unwrap_or(&[]));
    added.expect(rt, "no bytes");
    bytes
}

fn image_by(alloc: Global, bytes: &[u8], way: &Way, most: u64) -> Result<Image, ReadEnd> {
    match way {
        Way::Pieces(piece, fails) => {
            let mut source = PieceSource {
                bytes,
                piece: *piece,
                calls: 0,
                fails: *fails,
                faults: 0,
            };
            read_image(alloc, &mut source, most)
        }
        Way::AtOnce => {
            let bytes = bytes.to_vec(alloc)?;
            read_image(alloc, &mut MemSource::new(bytes, Vec::new(alloc)), most)
        }
        Way::Memory => Ok(Image::from_bytes(alloc, bytes)?),
    }
}

#[test]
fn reads_images(rt: HostRuntime) {
    for (row, (fills, more, way, most, wanted)) in IMAGES.iter().enumerate() {
        let bytes = bytes_of(&rt, rt.alloc(), fills, *more);
        let is_wanted = match image_by(rt.alloc(), &bytes, way, *most) {
            Ok(image) => wanted.is_ok_and(|fills| is_filled(&image, fills)),
            Err(end) => *wanted == Err(end),
        };
        expect(&rt, "row", row, &is_wanted, &true);
    }
}

enum Step {
    Put(u32, u8),
    Push(u8),
}

// How many blocks of zeros there are, what is written then, and the bytes that fill the blocks in the end. Blocks are
// written over, also with zeros, and the last of them while there are as many bodies as blocks. An image that grows is
// then written as one that was made.
static WRITTEN: [(u32, &[Step], &[u8]); 3] = [
    (3, &[Step::Put(1, 8)], &[0, 8, 0]),
    (
        3,
        &[
            Step::Put(2, 7),
            Step::Put(0, 5),
            Step::Put(2, 0),
            Step::Put(1, 0),
            Step::Put(2, 9),
            Step::Put(1, 6),
            Step::Put(0, 0),
        ],
        &[0, 6, 9],
    ),
    (
        1,
        &[
            Step::Push(6),
            Step::Push(0),
            Step::Push(8),
            Step::Put(0, 5),
            Step::Put(1, 0),
            Step::Put(2, 7),
            Step::Push(9),
        ],
        &[5, 0, 7, 8, 9],
    ),
];

fn write_step(rt: &impl Abort, image: &mut Image, step: &Step) {
    match step {
        Step::Put(at, fill) => {
            assert!(rt; *at < image.len());
            image.put(*at, Block::fill(*fill));
        }
        Step::Push(fill) => {
            let pushed: Result<_, _> = image.push(Block::fill(*fill));
            pushed.expect(rt, "no block");
        }
    }
}

// Each front of the image, and its copy, has blocks that are filled with these bytes.
fn are_filled(rt: &impl Abort, alloc: Global, image: &Image, fills: &[u8]) -> bool {
    for blocks in 0..image.len() {
        let front = image.front(alloc, blocks).expect(rt, "no front");
        if !is_filled(&front, fills.get(..blocks as usize).unwrap_or(fills)) {
            return false;
        }
    }
    is_filled(&image.copy(alloc).expect(rt, "no copy"), fills)
}

#[test]
fn writes_images(rt: HostRuntime) {
    for (row, (zeros, steps, fills)) in WRITTEN.iter().enumerate() {
        let mut image = Image::zeroed(rt.alloc(), *zeros).expect(&rt, "no image");
        for it in *steps {
            write_step(&rt, &mut image, it);
        }
        let copied = are_filled(&rt, rt.alloc(), &image, fills);
        expect(
            &rt,
            "row",
            row,
            &(is_filled(&image, fills), copied),
            &(true, true),
        );
    }
}
