//! Numbers in both orders, with bytes worked out by hand.
use crate::steps::expect;
use byte_fields::{
    fields_are_read, numbers_are_read, put_u8, put_u16_be, put_u16_le, put_u32_be, put_u32_le,
    records_are_read, u8_at, u16_at_be, u16_at_le, u32_at_be, u32_at_le, zeroed,
};

#[test]
fn reads_and_writes_in_both_orders(rt: HostRuntime) {
    let mut bytes = zeroed::<12>();
    put_u16_le(&mut bytes, 1, 0x1234);
    put_u16_be(&mut bytes, 3, 0x1234);
    put_u32_le(&mut bytes, 5, 0xFEDC_BA98);
    put_u8(&mut bytes, 11, 0xFF);
    let written = bytes;
    let short = (
        u16_at_le(&bytes, 1),
        u16_at_be(&bytes, 1),
        u8_at(&bytes, 11),
    );
    let long = (u32_at_le(&bytes, 5), u32_at_be(&bytes, 5));
    put_u32_be(&mut bytes, 5, 0xFEDC_BA98);
    let came = (written, short, long, u32_at_le(&bytes, 5));
    let wanted = (
        [
            0, 0x34, 0x12, 0x12, 0x34, 0x98, 0xBA, 0xDC, 0xFE, 0, 0, 0xFF,
        ],
        (0x1234, 0x3412, 0xFF),
        (0xFEDC_BA98, 0x98BA_DCFE),
        0x98BA_DCFE,
    );
    expect(&rt, "row", 0, &came, &wanted);
    numbers_are_read();
    fields_are_read();
    records_are_read();
}
