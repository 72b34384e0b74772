//! The calls of a store's session.
ghost use Rattle.std.specs.Prelude.{◌≡◌, ◌<◌, ◌≤◌, ◌+◌, ◌*◌, ◌++◌, [], ◌∷◌, IfOk, OnOk};
ghost use Rattle.wal_store.specs.declared.calls.calls.TheConstants.{MOST_ROOM};
ghost use Rattle.wal_store.specs.declared.puts.Op.TheVariants as op;
ghost use Rattle.tree_model.specs.declared.call.Call.TheVariants.{Bytes};
ghost use Rattle.wal_store.specs.Blocks.{encode};
ghost use Rattle.wal_store.specs.Puts.{IsPut};
ghost use Rattle.wal_store.specs.calls.Calls.{log_path, fill_call, fill_count, fills, op_calls, next, calls_from, calls_of, put_count, ArePuts, Fits};

use crate::{Op, Put, encode};
use blk_base::NoMemory;
use line_grammar::calls::Program;
use std::alloc::Global;
use tree_model::{ByteList, Call};

/// The most blocks of a log: as many as a file has.
pub const MOST_ROOM: u32 = 262_663;

// The bytes of a block, and those that one call fills.
const BLOCK: u32 = 1_024;

const FILL: u32 = 65_536;

fn log_path(alloc: Global) -> Result<ByteList, NoMemory>
    ensures { IfOk result (λ p. p ≡ log_path) }
{
    Ok(ByteList::of(b"/log".to_vec(alloc)?))
}

/// How many calls fill so many blocks.
pub fn fill_count(room: u32) -> u32
    requires { room ≤ MOST_ROOM }
    ensures { result ≡ fill_count room }
{
    (room + 63) / 64
}

fn fill_call(alloc: Global, room: u32, j: u32) -> Result<Call, NoMemory>
    requires room { room ≤ MOST_ROOM }
    requires within { 64 * j < room }
    ensures { IfOk result (λ c. c ≡ fill_call room j) }
{
    Ok(Call::Write {
        path: log_path(alloc)?,
        off: FILL * j,
        len: FILL.min(BLOCK * room - FILL * j),
        value: 0,
    })
}

fn put_fills(alloc: Global, calls: &mut Program, room: u32) -> Result<(), NoMemory>
    requires { room ≤ MOST_ROOM }
    ensures { OnOk result (calls.new ≡ calls.old ++ fills room) }
{
    for j in 0..fill_count(room) {
        calls.push(fill_call(alloc, room, j)?)?;
    }
    Ok(())
}

fn bytes_call(alloc: Global, i: u32, put: &Put) -> Result<Call, NoMemory>
    requires few { i < MOST_ROOM }
    requires put { IsPut put.now }
    ensures { IfOk result (λ c. c ≡ Bytes log_path (1024 * i) (encode (i + 1) put.now)) }
{
    let block = encode(i + 1, put);
    Ok(Call::Bytes {
        path: log_path(alloc)?,
        off: BLOCK * i,
        bytes: ByteList::of(block.as_slice().to_vec(alloc)?),
    })
}

fn put_block(alloc: Global, calls: &mut Program, i: u32, put: &Put) -> Result<(), NoMemory>
    requires few { i < MOST_ROOM }
    requires put { IsPut put.now }
    ensures { OnOk result (calls.new ≡ calls.old ++ op_calls i (op.Put put.now)) }
{
    calls.push(bytes_call(alloc, i, put)?)?;
    calls.push(Call::Fdatabarrier(log_path(alloc)?))
}

// What is asked, as put number i where it is a put; and the number of the put that comes next.
fn put_op(alloc: Global, calls: &mut Program, i: u32, op: &Op) -> Result<u32, NoMemory>
    requires { Fits i op.now }
    ensures made { OnOk result (calls.new ≡ calls.old ++ op_calls i op.now) }
    ensures next { IfOk result (λ n. n ≡ next i op.now) }
{
    match op {
        Op::Put(put) => {
            put_block(alloc, calls, i, put)?;
            Ok(i + 1)
        }
        Op::Flush => {
            calls.push(Call::Fdatasync(log_path(alloc)?))?;
            Ok(i)
        }
    }
}

fn put_ops(alloc: Global, calls: &mut Program, ops: &[Op]) -> Result<(), NoMemory>
    requires few { put_count ops.now ≤ MOST_ROOM }
    requires puts { ArePuts ops.now }
    ensures { OnOk result (calls.new ≡ calls.old ++ calls_from 0 ops.now) }
{
    let mut i = 0;
    for op in ops {
        i = put_op(alloc, calls, i, op)?;
    }
    Ok(())
}

/// The calls of a store whose log has so many blocks.
pub fn calls_of(alloc: Global, room: u32, ops: &[Op]) -> Result<Program, NoMemory>
    requires room { room ≤ MOST_ROOM }
    requires few { put_count ops.now ≤ room }
    requires puts { ArePuts ops.now }
    ensures { IfOk result (λ c. c ≡ calls_of room ops.now) }
{
    let mut calls = Program::new(alloc);
    calls.push(Call::Create(log_path(alloc)?))?;
    put_fills(alloc, &mut calls, room)?;
    calls.push(Call::Fsync(log_path(alloc)?))?;
    put_ops(alloc, &mut calls, ops)?;
    Ok(calls)
}
