//! Tests of sets of numbers.
use crate::steps::expect;
use number_sets::{add_u32, add_u64, has_u32, has_u64, sets_have_what_was_added, take_u32};

#[test]
fn adds_and_takes_numbers(rt: HostRuntime) {
    let mut blocks = Vec::<u32>::with_capacity(rt.alloc(), 4).expect(&rt, "no memory");
    add_u32(&mut blocks, 9);
    add_u32(&mut blocks, 4);
    add_u32(&mut blocks, 9);
    add_u32(&mut blocks, 7);
    let is_added = blocks.as_slice() == [4, 7, 9].as_slice();
    take_u32(&mut blocks, 7);
    take_u32(&mut blocks, 5);
    let is_taken = blocks.as_slice() == [4, 9].as_slice();
    let has = (has_u32(&blocks, 4), has_u32(&blocks, 7));
    expect(
        &rt,
        "row",
        0,
        &(is_added, is_taken, has),
        &(true, true, (true, false)),
    );
    sets_have_what_was_added();
}

#[test]
fn adds_long_numbers(rt: HostRuntime) {
    let mut births = Vec::<u64>::with_capacity(rt.alloc(), 2).expect(&rt, "no memory");
    add_u64(&mut births, 8_589_934_593);
    add_u64(&mut births, 1);
    let is_added = births.as_slice() == [1, 8_589_934_593].as_slice();
    let has = (has_u64(&births, 1), has_u64(&births, 2));
    expect(&rt, "row", 0, &(is_added, has), &(true, (true, false)));
}
