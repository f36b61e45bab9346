//! Fields that are written and read.
use gw_base::Buf;
use std::test::Fail;
use wire_fields::*;

/// A message with a field of each kind, one after the other.
#[test]
fn fields_are_read(rt: HostRuntime) -> Result<(), Fail> {
    let bytes =
        b"\x0a\x032.0\x18\xe0\xb4\xc7\xb1\x06\x21\x01\0\0\0\0\0\0\x80\x2b\x08\x01\x2c\x35\x01\0\0\x80";
    let fields = list_fields(rt.alloc(), bytes).ok().ok_or("no fields")?;
    let expected = [
        Field {
            number: 1,
            value: Value::Bytes(b"2.0"),
        },
        Field {
            number: 3,
            value: Value::Varint(1_714_543_200),
        },
        Field {
            number: 4,
            value: Value::Fixed64(9_223_372_036_854_775_809),
        },
        Field {
            number: 5,
            value: Value::Group,
        },
        Field {
            number: 6,
            value: Value::Fixed32(2_147_483_649),
        },
    ];
    assert_eq!(rt; fields.as_slice(), expected.as_slice());
    assert_eq!(rt; next_field(bytes, 0), Ok(Some((expected[0], 5))));
    assert_eq!(rt; next_field(b"", 0), Ok(None));
    Ok(())
}

/// `timestamp: 1714543200` of a feed header as its third field, and `gtfs_realtime_version: "2.0"` as its first.
#[tactic(auto, unfolding(wire_fields::specs::Spelling::varint, wire_fields::specs::Spelling::seven_bits_each))]
#[test]
fn fields_are_written(rt: HostRuntime) -> Result<(), Fail> {
    let mut buf = Buf::with_room(rt.alloc(), 13)?;
    put_varint(&mut buf, 300);
    put_field_bytes(&mut buf, 1, b"2.0");
    put_field_varint(&mut buf, 3, 1_714_543_200);
    let expected = b"\xac\x02\x0a\x032.0\x18\xe0\xb4\xc7\xb1\x06";
    assert_eq!(rt; buf.as_slice(), expected.as_slice());
    Ok(())
}
