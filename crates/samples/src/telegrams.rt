use order::Order;
use std::process::Abort;
use std::test::Fail;
use telegram::{Reader, Refusal, decode};

/// The telegram is refused with the number at the place, and the table keeps what it held.
fn refuses(rt: &impl Abort, bytes: &[u8], number: u8, place: usize) -> Result<(), Fail> {
    let mut mark = Order::plain();
    mark.argument = 77;
    let mut orders = [mark; 64];
    let Err(refused) = decode(bytes, &mut orders) else {
        return Err(Fail::new("accepted"));
    };
    assert_eq!(rt; u8::from(refused.refusal), number);
    assert_eq!(rt; refused.place, place);
    assert_eq!(rt; orders[0].argument, 77);
    assert_eq!(rt; orders[63].argument, 77);
    Ok(())
}

#[test]
fn a_telegram_that_ends_early(rt: HostRuntime) -> Result<(), Fail> {
    refuses(&rt, &[], 1, 0)?;
    refuses(&rt, &[0x01], 1, 1)?;
    refuses(&rt, &[0x01, 0x01], 1, 2)?;
    refuses(&rt, &[0x01, 0x02], 1, 2)?;
    refuses(&rt, &[0x01, 0x04, 0, 0, 0], 1, 5)?;
    refuses(&rt, &[0x01, 0x08], 1, 2)?;
    refuses(&rt, &[0x01, 0x08, 2, 0, 1, 0], 1, 6)?;
    refuses(&rt, &[0x01, 0x18, 1, 0, 1, 1, 0], 1, 7)?;
    refuses(&rt, &[0x02, 0x00], 1, 2)
}

#[test]
fn a_telegram_with_a_wrong_byte(rt: HostRuntime) -> Result<(), Fail> {
    refuses(&rt, &[0x00, 0x00], 2, 1)?;
    refuses(&rt, &[0x01, 0x00, 0x00, 0x00], 2, 2)?;
    refuses(&rt, &[0x41], 3, 0)?;
    refuses(&rt, &[0xFF, 0x00], 3, 0)?;
    refuses(&rt, &[0x01, 0x40], 4, 1)?;
    refuses(&rt, &[0x02, 0x00, 0x80], 4, 2)?;
    refuses(&rt, &[0x01, 0x30], 4, 1)?;
    refuses(&rt, &[0x01, 0x01, 8], 5, 2)?;
    refuses(&rt, &[0x02, 0x00, 0x03, 255, 1], 5, 3)?;
    refuses(&rt, &[0x01, 0x08, 0], 6, 2)?;
    refuses(&rt, &[0x01, 0x18, 1, 0, 1, 9], 6, 5)
}

#[test]
fn a_cell_twice(rt: HostRuntime) -> Result<(), Fail> {
    refuses(&rt, &[0x01, 0x08, 2, 0, 1, 0, 1], 7, 5)?;
    // the telegram ends later in the same list
    refuses(&rt, &[0x01, 0x08, 8, 0, 1, 0, 1], 7, 5)?;
    refuses(&rt, &[0x01, 0x08, 4, 1, 0, 0, 1, 1, 0], 7, 7)?;
    // and an entry that is cut says nothing of its cell
    refuses(&rt, &[0x01, 0x08, 2, 0, 1, 0], 1, 6)?;
    refuses(&rt, &[0x01, 0x18, 1, 0, 1, 2, 0, 2, 0, 2], 7, 8)
}

/// A count byte, 63 records of one map byte, and then the bytes of `tail`.
fn long_telegram(rt: &HostRuntime, count: u8, tail: &[u8]) -> Result<Vec<u8>, Fail> {
    let mut bytes = Vec::new(rt.alloc());
    bytes.push(count)?;
    bytes.resize(64, 0)?;
    bytes.extend_from_slice(tail)?;
    Ok(bytes)
}

#[test]
fn long_telegrams(rt: HostRuntime) -> Result<(), Fail> {
    let mut orders = [Order::plain(); 64];
    let full = long_telegram(&rt, 64, &[0x01, 7])?;
    assert_eq!(rt; decode(full.as_slice(), &mut orders), Ok(64));
    assert_eq!(rt; orders[62].class, 4);
    assert_eq!(rt; orders[63].class, 7);
    refuses(&rt, long_telegram(&rt, 64, &[])?.as_slice(), 1, 64)?;
    refuses(
        &rt,
        long_telegram(&rt, 64, &[0x00, 0x00])?.as_slice(),
        2,
        65,
    )?;
    refuses(&rt, long_telegram(&rt, 65, &[0x00, 0x00])?.as_slice(), 3, 0)?;
    refuses(&rt, long_telegram(&rt, 64, &[0x70])?.as_slice(), 4, 64)?;
    refuses(&rt, long_telegram(&rt, 64, &[0x01, 9])?.as_slice(), 5, 65)?;
    refuses(&rt, long_telegram(&rt, 64, &[0x10, 9])?.as_slice(), 6, 65)?;
    refuses(
        &rt,
        long_telegram(&rt, 64, &[0x10, 3, 255, 255, 0, 0, 255, 255])?.as_slice(),
        7,
        70,
    )
}

#[test]
fn a_whole_telegram(rt: HostRuntime) {
    let mut orders = [Order::plain(); 64];
    let bytes = [
        0x02, 0x2C, 0, 0, 1, 7, 1, 0, 5, 0x1B, 2, 3, 2, 0, 5, 1, 6, 1, 16, 0,
    ];
    assert_eq!(rt; decode(&bytes, &mut orders), Ok(2));
    assert_eq!(rt; orders[0].class, 4);
    assert_eq!(rt; orders[0].code, 1);
    assert_eq!(rt; orders[0].argument, 263);
    assert!(rt; orders[0].reads.as_slice() == [5].as_slice());
    assert!(rt; orders[0].writes.as_slice() == [5].as_slice());
    assert_eq!(rt; orders[1].class, 2);
    assert_eq!(rt; orders[1].code, 3);
    assert_eq!(rt; orders[1].argument, 0);
    assert!(rt; orders[1].reads.as_slice() == [5, 262].as_slice());
    assert!(rt; orders[1].writes.as_slice() == [4096].as_slice());
    assert_eq!(rt; decode(&[0x00], &mut orders), Ok(0));
}

#[test]
fn a_refused_record_puts_the_reader_back(rt: HostRuntime) -> Result<(), Fail> {
    let bytes = [0x02, 0x03, 1, 9, 0x28, 2, 0, 1, 0, 1];
    let mut reader = Reader::new(&bytes);
    assert_eq!(rt; reader.count(), Ok(2));
    assert_eq!(rt; reader.place(), 1);
    assert!(rt; reader.next_record().is_ok());
    assert_eq!(rt; reader.place(), 4);
    for _ in 0..2 {
        let Err(refused) = reader.next_record() else {
            return Err(Fail::new("accepted"));
        };
        assert_eq!(rt; refused.refusal, Refusal::RepeatedCell);
        assert_eq!(rt; reader.place(), 4);
    }
    let Err(refused) = reader.end() else {
        return Err(Fail::new("bytes are left"));
    };
    assert_eq!(rt; refused.place, 4);
    Ok(())
}

#[test]
fn lists_are_parts_of_the_telegram(rt: HostRuntime) -> Result<(), Fail> {
    let bytes = [0x02, 0x28, 2, 1, 2, 3, 4, 0x20];
    let mut reader = Reader::new(&bytes);
    assert_eq!(rt; reader.count(), Ok(2));
    let Ok(record) = reader.next_record() else {
        return Err(Fail::new("refused"));
    };
    assert!(rt; record.reads.entries == [1, 2, 3, 4].as_slice());
    assert_eq!(rt; record.reads.place, 3);
    assert!(rt; record.writes.entries == [1, 2, 3, 4].as_slice());
    assert_eq!(rt; record.writes.place, 3);
    // the same list as none
    let Ok(empty) = reader.next_record() else {
        return Err(Fail::new("refused"));
    };
    assert!(rt; empty.reads.entries.is_empty());
    assert!(rt; empty.writes.entries.is_empty());
    assert!(rt; reader.end().is_ok());
    Ok(())
}
