use sheet::{LineError, Setup, SheetLine, StoreCells, WindowSize, read_sheet_line};
use std::process::Abort;
use std::test::Fail;

fn add(rt: &HostRuntime, setup: &mut Setup, text: &[u8]) -> Result<(), Fail> {
    match read_sheet_line(rt.alloc(), text) {
        Ok(SheetLine::Setup(line)) => {
            setup.add(line)?;
            Ok(())
        }
        _ => Err(Fail::new("no set-up line")),
    }
}

// Apart from `add`: a line that comes a second time has an outcome of its own.
fn second(rt: &HostRuntime, setup: &mut Setup, text: &[u8]) -> Result<(), Fail> {
    match read_sheet_line(rt.alloc(), text) {
        Ok(SheetLine::Setup(line)) => match setup.add(line) {
            Err(LineError::NotUnderstood) => Ok(()),
            _ => Err(Fail::new("taken a second time")),
        },
        _ => Err(Fail::new("no set-up line")),
    }
}

fn dense(rt: &impl Abort, setup: &Setup, count: u16) -> Result<(), Fail> {
    match setup.store() {
        StoreCells::Dense(cells) => {
            assert!(rt; cells == count);
            Ok(())
        },
        StoreCells::Sparse(_) => Err(Fail::new("a sparse store")),
    }
}

// Apart from `dense`, by its pattern.
fn sparse(rt: &impl Abort, setup: &Setup, numbers: &[u16]) -> Result<(), Fail> {
    match setup.store() {
        StoreCells::Dense(_) => Err(Fail::new("a dense store")),
        StoreCells::Sparse(cells) => {
            assert!(rt; cells == numbers);
            Ok(())
        },
    }
}

fn memory(rt: &(impl Abort + AllocGlobal), setup: &Setup, values: &[u32]) -> Result<(), Fail> {
    let memory = setup.memory(rt.alloc())?;
    assert!(rt; memory.as_slice() == values);
    Ok(())
}

#[test]
fn nothing_set_up(rt: HostRuntime) -> Result<(), Fail> {
    let setup = Setup::new();
    dense(&rt, &setup, 64)?;
    assert!(rt; setup.store().count() == 64);
    memory(&rt, &setup, &[0; 64])?;
    assert!(rt; setup.window() == None);
    assert!(rt; !setup.has_buffer());
    Ok(())
}

#[test]
fn all_set_up(rt: HostRuntime) -> Result<(), Fail> {
    let mut setup = Setup::new();
    add(&rt, &mut setup, b"buffer")?;
    add(&rt, &mut setup, b"window 100 10")?;
    add(&rt, &mut setup, b"values 7 0 4294967295")?;
    add(&rt, &mut setup, b"store sparse 5 3 5 65535")?;
    sparse(&rt, &setup, &[5, 3, 5, 65_535])?;
    assert!(rt; setup.store().count() == 4);
    memory(&rt, &setup, &[7, 0, u32::MAX, 0])?;
    assert!(rt; setup.window() == Some(WindowSize { base: 100, len: 10 }));
    assert!(rt; setup.has_buffer());
    Ok(())
}

#[test]
fn memory_cut_and_filled(rt: HostRuntime) -> Result<(), Fail> {
    let mut setup = Setup::new();
    add(&rt, &mut setup, b"store dense 2")?;
    memory(&rt, &setup, &[0, 0])?;
    add(&rt, &mut setup, b"values 1 2 3")?;
    memory(&rt, &setup, &[1, 2])?;
    let mut empty = Setup::new();
    add(&rt, &mut empty, b"values 1")?;
    add(&rt, &mut empty, b"store sparse")?;
    sparse(&rt, &empty, &[])?;
    memory(&rt, &empty, &[])
}

#[test]
fn lines_a_second_time(rt: HostRuntime) -> Result<(), Fail> {
    let mut setup = Setup::new();
    add(&rt, &mut setup, b"store dense 3")?;
    second(&rt, &mut setup, b"store dense 3")?;
    second(&rt, &mut setup, b"store sparse 1")?;
    add(&rt, &mut setup, b"values")?;
    second(&rt, &mut setup, b"values 1")?;
    add(&rt, &mut setup, b"window 0 0")?;
    second(&rt, &mut setup, b"window 1 1")?;
    assert!(rt; !setup.has_buffer());
    add(&rt, &mut setup, b"buffer")?;
    second(&rt, &mut setup, b"buffer")?;
    dense(&rt, &setup, 3)?;
    memory(&rt, &setup, &[0, 0, 0])?;
    assert!(rt; setup.window() == Some(WindowSize { base: 0, len: 0 }));
    assert!(rt; setup.has_buffer());
    Ok(())
}
