use order::{Cells, ListRefusal, Order};
use std::test::Fail;
use telegram::{CellList, Record, Refusal};

#[test]
fn a_list_takes_eight_different_cells(rt: HostRuntime) {
    let mut cells = Cells::new();
    // Over the cells themselves, not over places.
    for cell in 0..8 {
        assert_eq!(rt; cells.push(cell), Ok(()));
    }
    assert_eq!(rt; cells.len(), 8);
    assert_eq!(rt; cells.push(8), Err(ListRefusal::TooMany));
    assert_eq!(rt; cells.push(0), Err(ListRefusal::TooMany));
    assert!(rt; cells.as_slice() == [0, 1, 2, 3, 4, 5, 6, 7].as_slice());
}

#[test]
fn a_list_takes_no_cell_twice(rt: HostRuntime) {
    let mut cells = Cells::new();
    assert_eq!(rt; cells.push(65_535), Ok(()));
    assert_eq!(rt; cells.push(0), Ok(()));
    assert_eq!(rt; cells.push(65_535), Err(ListRefusal::Repeated));
    assert!(rt; cells.contains(0));
    assert!(rt; !cells.contains(1));
    assert!(rt; cells.as_slice() == [65_535, 0].as_slice());
}

#[test]
fn lists_from_slices(rt: HostRuntime) -> Result<(), Fail> {
    let Ok(cells) = Cells::try_from([9, 4, 7].as_slice()) else {
        return Err(Fail::new("refused"));
    };
    assert!(rt; cells.as_slice() == [9, 4, 7].as_slice());
    let repeated = Cells::try_from([9, 4, 9].as_slice());
    assert_eq!(rt; repeated.err(), Some(ListRefusal::Repeated));
    let too_many = Cells::try_from([1, 2, 3, 4, 5, 6, 7, 8, 9].as_slice());
    assert_eq!(rt; too_many.err(), Some(ListRefusal::TooMany));
    Ok(())
}

#[test]
fn numbers_of_list_refusals(rt: HostRuntime) {
    assert_eq!(rt; u8::from(ListRefusal::TooMany), 6);
    assert_eq!(rt; u8::from(ListRefusal::Repeated), 7);
    assert_eq!(rt; u8::from(Refusal::from(ListRefusal::TooMany)), 6);
    assert_eq!(rt; u8::from(Refusal::from(ListRefusal::Repeated)), 7);
}

/// Why a record that no reader made is refused, if it is.
// An `Option`: orders are not compared here.
fn order_refusal<'a>(class: u8, reads: &'a [u8], writes: &'a [u8]) -> Option<Refusal> {
    let reads = CellList {
        entries: reads,
        place: 0,
    };
    let writes = CellList {
        entries: writes,
        place: 0,
    };
    Order::try_from(Record {
        class,
        code: 1,
        argument: 0,
        reads,
        writes,
    })
    .err()
}

#[test]
fn records_made_by_hand(rt: HostRuntime) {
    let nine = [0, 1, 0, 2, 0, 3, 0, 4, 0, 5, 0, 6, 0, 7, 0, 8, 0, 9];
    assert_eq!(rt; order_refusal(7, &[0, 1], &[0, 1]), None);
    assert_eq!(rt; order_refusal(8, &[0, 1], &[0, 1]), Some(Refusal::BadClass));
    assert_eq!(rt; order_refusal(7, &nine, &[]), Some(Refusal::BadListCount));
    assert_eq!(rt;
        order_refusal(7, &[], &[0, 1, 0, 1]),
        Some(Refusal::RepeatedCell)
    );
}
