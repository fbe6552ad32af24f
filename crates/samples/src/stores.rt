use stacks::WindowedCopy;
use std::process::Abort;
use std::test::Fail;
use store::{Cause, DenseStore, Fault, Refusal, SparseStore, Store, Window, copy};
use write_buffer::WriteBuffer;

// Two names for two causes: the tests say them many times.

fn missing(cell: u16, depth: u16) -> Fault {
    Fault {
        cause: Cause::NoSuchCell,
        cell,
        depth,
    }
}

fn outside(cell: u16, depth: u16) -> Fault {
    Fault {
        cause: Cause::OutsideWindow,
        cell,
        depth,
    }
}

fn holds(rt: &impl Abort, memory: &[u32], values: &[u32]) {
    assert!(rt; memory == values);
}

/// Each cell has its value.
fn reads<S: Store>(rt: &impl Abort, store: &S, wanted: &[(u16, u32)]) {
    for (cell, value) in wanted {
        assert_eq!(rt; store.check(*cell), Ok(()));
        assert_eq!(rt; store.read(*cell), Ok(*value));
    }
}

/// Each cell takes its value.
fn writes<S: Store>(rt: &impl Abort, store: &mut S, given: &[(u16, u32)]) {
    for (cell, value) in given {
        assert_eq!(rt; store.write(*cell, *value), Ok(()));
    }
}

/// Check, read and write give the same fault for a cell.
fn refuses<S: Store>(rt: &impl Abort, store: &mut S, wanted: &[(u16, Fault)]) {
    for (cell, fault) in wanted {
        assert_eq!(rt; store.check(*cell), Err(*fault));
        assert_eq!(rt; store.read(*cell), Err(*fault));
        assert_eq!(rt; store.write(*cell, 9), Err(*fault));
    }
}

#[test]
fn dense_cells(rt: HostRuntime) {
    let mut values = [7, 8, 9];
    let mut store = DenseStore::new(&mut values).store;
    writes(&rt, &mut store, &[(1, 4_294_967_295)]);
    reads(&rt, &store, &[(0, 7), (1, 4_294_967_295), (2, 9)]);
    refuses(
        &rt,
        &mut store,
        &[(3, missing(3, 0)), (65_535, missing(65_535, 0))],
    );
    holds(&rt, store.into_values(), &[7, 4_294_967_295, 9]);
}

#[test]
fn sparse_cells(rt: HostRuntime) {
    let cells = [0, 5, 6, 900, 65_535];
    let mut values = [1, 2, 3, 4, 5];
    let mut store = SparseStore::new(&cells, &mut values).store;
    writes(&rt, &mut store, &[(900, 40)]);
    reads(
        &rt,
        &store,
        &[(0, 1), (5, 2), (6, 3), (900, 40), (65_535, 5)],
    );
    refuses(
        &rt,
        &mut store,
        &[
            (1, missing(1, 0)),
            (7, missing(7, 0)),
            (65_534, missing(65_534, 0)),
        ],
    );
    holds(&rt, store.into_values(), &[1, 2, 3, 40, 5]);
}

#[test]
fn stores_without_cells(rt: HostRuntime) {
    let mut dense = DenseStore::new(&mut []);
    assert_eq!(rt; dense.refused, None);
    refuses(&rt, &mut dense.store, &[(0, missing(0, 0))]);
    let mut sparse = SparseStore::new(&[], &mut []);
    assert_eq!(rt; sparse.refused, None);
    refuses(&rt, &mut sparse.store, &[(0, missing(0, 0))]);
}

#[test]
fn the_most_cells_of_a_dense_store(rt: HostRuntime) -> Result<(), Fail> {
    let mut values = Vec::new(rt.alloc());
    values.resize(16_384, 1)?;
    let mut most = DenseStore::new(values.as_mut_slice());
    assert_eq!(rt; most.refused, None);
    reads(&rt, &most.store, &[(0, 1), (16_383, 1)]);
    refuses(&rt, &mut most.store, &[(16_384, missing(16_384, 0))]);
    Ok(())
}

#[test]
fn too_many_cells_of_a_dense_store(rt: HostRuntime) -> Result<(), Fail> {
    let mut values = Vec::new(rt.alloc());
    values.resize(16_385, 1)?;
    let mut more = DenseStore::new(values.as_mut_slice());
    assert_eq!(rt; more.refused, Some(Refusal::BadSlices));
    refuses(
        &rt,
        &mut more.store,
        &[(0, missing(0, 0)), (16_384, missing(16_384, 0))],
    );
    assert_eq!(rt; more.store.into_values().len(), 16_385);
    Ok(())
}

/// Every third cell from 0 on.
fn every_third(rt: &HostRuntime, count: u16) -> Result<Vec<u16>, Fail> {
    Ok(
        (0..u16::MAX)
            .step_by(3)
            .take(usize::from(count))
            .collect(rt.alloc())?,
    )
}

#[test]
fn the_most_cells_of_a_sparse_store(rt: HostRuntime) -> Result<(), Fail> {
    let cells = every_third(&rt, 16_384)?;
    let mut values = Vec::new(rt.alloc());
    values.resize(16_384, 2)?;
    let mut most = SparseStore::new(cells.as_slice(), values.as_mut_slice());
    assert_eq!(rt; most.refused, None);
    reads(
        &rt,
        &most.store,
        &[(0, 2), (3, 2), (24_576, 2), (49_149, 2)],
    );
    refuses(
        &rt,
        &mut most.store,
        &[(1, missing(1, 0)), (49_152, missing(49_152, 0))],
    );
    Ok(())
}

#[test]
fn too_many_cells_of_a_sparse_store(rt: HostRuntime) -> Result<(), Fail> {
    let cells = every_third(&rt, 16_385)?;
    let mut values = Vec::new(rt.alloc());
    values.resize(16_385, 2)?;
    let mut more = SparseStore::new(cells.as_slice(), values.as_mut_slice());
    assert_eq!(rt; more.refused, Some(Refusal::BadSlices));
    refuses(&rt, &mut more.store, &[(0, missing(0, 0))]);
    Ok(())
}

/// The slices are refused, and then show nothing and stay as they were.
fn bad_slices(rt: &impl Abort, cells: &[u16], values: &mut [u32]) {
    let mut built = SparseStore::new(cells, values);
    assert_eq!(rt; built.refused, Some(Refusal::BadSlices));
    for cell in cells {
        refuses(rt, &mut built.store, &[(*cell, missing(*cell, 0))]);
    }
    for value in built.store.into_values() {
        assert_eq!(rt; *value, 6);
    }
}

#[test]
fn cells_that_do_not_rise(rt: HostRuntime) {
    bad_slices(&rt, &[4, 4], &mut [6; 2]);
    bad_slices(&rt, &[4, 9, 9, 12], &mut [6; 4]);
    bad_slices(&rt, &[9, 4], &mut [6; 2]);
    bad_slices(&rt, &[1, 2, 3, 0], &mut [6; 4]);
}

#[test]
fn unequal_slices(rt: HostRuntime) {
    bad_slices(&rt, &[1, 2], &mut [6; 1]);
    bad_slices(&rt, &[1, 2], &mut [6; 3]);
    bad_slices(&rt, &[], &mut [6; 1]);
    bad_slices(&rt, &[1], &mut []);
}

#[test]
fn windows_show_their_cells(rt: HostRuntime) {
    let mut values = [10, 11, 12, 13];
    let mut window = Window::new(DenseStore::new(&mut values).store, 1, 4);
    writes(&rt, &mut window, &[(2, 33)]);
    reads(&rt, &window, &[(0, 11), (1, 12), (2, 33)]);
    refuses(&rt, &mut window, &[(3, missing(4, 1)), (4, outside(4, 0))]);
    holds(&rt, window.into_below().into_values(), &[10, 11, 12, 33]);
}

#[test]
fn a_window_at_the_end(rt: HostRuntime) {
    let mut values = [1, 2];
    let store = SparseStore::new(&[65_534, 65_535], &mut values).store;
    let mut last = Window::new(store, 65_535, 2);
    reads(&rt, &last, &[(0, 2)]);
    refuses(&rt, &mut last, &[(1, outside(1, 0)), (2, outside(2, 0))]);
}

#[test]
fn the_longest_window_and_the_shortest(rt: HostRuntime) {
    let mut values = [1, 2];
    let store = SparseStore::new(&[65_534, 65_535], &mut values).store;
    let mut longest = Window::new(store, 0, 65_535);
    reads(&rt, &longest, &[(65_534, 1)]);
    refuses(&rt, &mut longest, &[(65_535, outside(65_535, 0))]);
    let mut shortest = Window::new(longest.into_below(), 65_534, 0);
    refuses(&rt, &mut shortest, &[(0, outside(0, 0))]);
}

#[test]
fn faults_through_layers(rt: HostRuntime) {
    let mut values = [0; 10];
    let mut one = Window::new(DenseStore::new(&mut values).store, 5, 100);
    refuses(
        &rt,
        &mut one,
        &[(7, missing(12, 1)), (100, outside(100, 0))],
    );
    let mut two = WriteBuffer::new(one);
    refuses(
        &rt,
        &mut two,
        &[(7, missing(12, 2)), (100, outside(100, 1))],
    );
    let mut three = Window::new(two, 3, 98);
    refuses(
        &rt,
        &mut three,
        &[
            (4, missing(12, 3)),
            (97, outside(100, 2)),
            (98, outside(98, 0)),
        ],
    );
}

#[test]
fn depths_and_numbers(rt: HostRuntime) {
    assert_eq!(rt; missing(3, 65_534).passed_up(), missing(3, 65_535));
    assert_eq!(rt; outside(3, 65_535).passed_up(), outside(3, 65_535));
    assert_eq!(rt; u8::from(Cause::NoSuchCell), 1);
    assert_eq!(rt; u8::from(Cause::OutsideWindow), 2);
    assert_eq!(rt; u8::from(Refusal::BadSlices), 13);
}

#[test]
fn buffers_hold_back(rt: HostRuntime) {
    let mut values = [1, 2, 3];
    let mut buffer = WriteBuffer::new(DenseStore::new(&mut values).store);
    writes(&rt, &mut buffer, &[(1, 20)]);
    reads(&rt, &buffer, &[(0, 1), (1, 20), (2, 3)]);
    reads(&rt, buffer.below(), &[(0, 1), (1, 2), (2, 3)]);
    buffer.flush();
    reads(&rt, &buffer, &[(0, 1), (1, 20), (2, 3)]);
    reads(&rt, buffer.below(), &[(0, 1), (1, 20), (2, 3)]);
    writes(&rt, &mut buffer, &[(0, 10)]);
    holds(&rt, buffer.into_below().into_values(), &[10, 20, 3]);
}

/// Writes to the cells 0 to 15, each with its number and 100.
fn write_sixteen<S: Store>(rt: &impl Abort, store: &mut S) {
    // Over the cells themselves, not over places.
    for cell in 0..16 {
        assert_eq!(rt; store.write(cell, 100 + u32::from(cell)), Ok(()));
    }
}

#[test]
fn sixteen_are_held(rt: HostRuntime) {
    let mut values = [0; 20];
    let mut buffer = WriteBuffer::new(DenseStore::new(&mut values).store);
    write_sixteen(&rt, &mut buffer);
    reads(&rt, buffer.below(), &[(0, 0), (1, 0), (15, 0)]);
    writes(&rt, &mut buffer, &[(16, 116)]);
    reads(&rt, buffer.below(), &[(0, 100), (1, 0), (15, 0), (16, 0)]);
    reads(&rt, &buffer, &[(0, 100), (1, 101), (15, 115), (16, 116)]);
}

#[test]
fn a_rewrite_renews_no_age(rt: HostRuntime) {
    let mut values = [0; 20];
    let mut buffer = WriteBuffer::new(DenseStore::new(&mut values).store);
    write_sixteen(&rt, &mut buffer);
    writes(&rt, &mut buffer, &[(0, 200), (16, 116)]);
    reads(&rt, buffer.below(), &[(0, 200), (1, 0)]);
    writes(&rt, &mut buffer, &[(17, 117), (0, 300)]);
    reads(&rt, buffer.below(), &[(0, 200), (1, 101), (2, 102), (3, 0)]);
    reads(&rt, &buffer, &[(0, 300), (1, 101), (17, 117)]);
}

#[test]
fn a_cell_outside_evicts_nothing(rt: HostRuntime) {
    let mut values = [0; 16];
    let mut buffer = WriteBuffer::new(DenseStore::new(&mut values).store);
    write_sixteen(&rt, &mut buffer);
    refuses(&rt, &mut buffer, &[(16, missing(16, 1))]);
    reads(&rt, &buffer, &[(0, 100), (1, 101), (15, 115)]);
    reads(&rt, buffer.below(), &[(0, 0), (1, 0), (15, 0)]);
}

#[test]
fn buffers_over_buffers(rt: HostRuntime) {
    let mut values = [0; 20];
    let lower = WriteBuffer::new(DenseStore::new(&mut values).store);
    let mut upper = WriteBuffer::new(lower);
    write_sixteen(&rt, &mut upper);
    writes(&rt, &mut upper, &[(16, 116)]);
    reads(&rt, upper.below(), &[(0, 100), (1, 0)]);
    upper.flush();
    reads(&rt, upper.below(), &[(0, 100), (1, 101), (16, 116)]);
    reads(&rt, upper.below().below(), &[(0, 100), (1, 0), (16, 0)]);
    refuses(&rt, &mut upper, &[(20, missing(20, 2))]);
}

#[test]
fn copies_in_any_store(rt: HostRuntime) {
    let mut values = [1, 2, 3, 4];
    let mut store = DenseStore::new(&mut values).store;
    assert_eq!(rt; copy(&mut store, 1, 3), Ok(()));
    assert_eq!(rt; copy(&mut store, 4, 5), Err(missing(4, 0)));
    assert_eq!(rt; copy(&mut store, 0, 5), Err(missing(5, 0)));
    holds(&rt, store.into_values(), &[1, 2, 3, 2]);
}

#[test]
fn copies_through_dense_stacks(rt: HostRuntime) {
    let mut values = [1, 2, 3, 4];
    let inside = WindowedCopy {
        base: 1,
        len: 2,
        from: 0,
        to: 1,
    };
    let copied = inside.in_dense(&mut values);
    assert_eq!(rt; copied.answer, Ok(()));
    holds(&rt, copied.below, &[1, 2, 2, 4]);
    let past = WindowedCopy { to: 2, ..inside }.in_dense(&mut values);
    assert_eq!(rt; past.answer, Err(outside(2, 1)));
    holds(&rt, past.below, &[1, 2, 2, 4]);
}

#[test]
fn copies_through_sparse_stacks(rt: HostRuntime) {
    let mut values = [1, 2, 3];
    let listed = WindowedCopy {
        base: 10,
        len: 50,
        from: 20,
        to: 0,
    };
    let copied = listed.in_sparse(&[10, 20, 30], &mut values);
    assert_eq!(rt; copied.answer, Ok(()));
    holds(&rt, copied.below, &[3, 2, 3]);
    let other = WindowedCopy { to: 1, ..listed }.in_sparse(&[10, 20, 30], &mut values);
    assert_eq!(rt; other.answer, Err(missing(11, 2)));
    holds(&rt, other.below, &[3, 2, 3]);
}
