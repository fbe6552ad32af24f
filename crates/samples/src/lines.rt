use answer::{build_answer, cell_answer, decode_answer};
use sheet::{
    Line, LineError, SetupLine, SheetLine, StoreKind, read_line, read_sheet_line, without_end,
};
use std::process::Abort;
use std::test::Fail;
use store::{DenseStore, Refusal, Store, Window};

fn not_understood<T: Drop>(read: Result<T, LineError>) -> Result<(), Fail> {
    match read {
        Err(LineError::NotUnderstood) => Ok(()),
        _ => Err(Fail::new("understood")),
    }
}

#[test]
fn lines_not_understood(rt: HostRuntime) -> Result<(), Fail> {
    not_understood(read_line(rt.alloc(), b"code 00"))?;
    not_understood(read_line(rt.alloc(), b"Decode 00"))?;
    not_understood(read_line(rt.alloc(), b"decoded 00"))?;
    not_understood(read_line(rt.alloc(), b"00"))?;
    not_understood(read_line(rt.alloc(), b"decode 0"))?;
    not_understood(read_line(rt.alloc(), b"decode 000"))?;
    not_understood(read_line(rt.alloc(), b"decode 0g"))?;
    not_understood(read_line(rt.alloc(), b"decode 0x"))?;
    not_understood(read_line(rt.alloc(), b"decode 00 1"))?;
    not_understood(read_line(rt.alloc(), b"decode 00,01"))?;
    not_understood(read_line(rt.alloc(), b"decode 0#0"))?;
    not_understood(read_line(rt.alloc(), b"decode\r"))?;
    not_understood(read_line(rt.alloc(), b"\xFF"))
}

fn none_understood(rt: &HostRuntime, lines: &[&[u8]]) -> Result<(), Fail> {
    for line in lines {
        not_understood(read_sheet_line(rt.alloc(), line))?;
    }
    Ok(())
}

#[test]
fn setup_lines_not_understood(rt: HostRuntime) -> Result<(), Fail> {
    none_understood(
        &rt,
        &[
            b"store",
            b"store dense",
            b"store dense 1 2",
            b"store dense 65536",
            b"store other 3",
            b"store Sparse 3",
            b"store 3",
            b"store sparse 1 65536",
            b"Values 1",
            b"values 4294967296",
            b"values 1 x",
            b"window",
            b"window 1",
            b"window 1 2 3",
            b"window 65536 1",
            b"window 1 65536",
            b"buffer 1",
            b"buffers",
        ],
    )
}

#[test]
fn numbers_not_understood(rt: HostRuntime) -> Result<(), Fail> {
    none_understood(
        &rt,
        &[
            b"cell",
            b"cell 1 2",
            b"cell 65536",
            b"cell 18446744073709551616",
            b"cell 18446744073709551616000000000000000000000",
            b"cell +5",
            b"cell -5",
            b"cell 5.",
            b"cell 1:",
            b"cell 1/",
            b"cell 0x1",
            b"cell 1,000",
        ],
    )
}

#[test]
fn sheet_lines_that_need_no_store(rt: HostRuntime) -> Result<(), Fail> {
    none_understood(
        &rt,
        &[
            b"code 00",
            b"Decode 00",
            b"decoded 00",
            b"00",
            b"decode 0",
            b"decode 000",
            b"decode 0g",
            b"decode 0x",
            b"decode 00 1",
            b"decode 00,01",
            b"decode 0#0",
            b"decode\r",
            b"\xFF",
        ],
    )?;
    match read_sheet_line(rt.alloc(), b"decode 09 aF") {
        Ok(SheetLine::Plain(Line::Decode(read))) => assert!(rt;
            read.as_slice() == [0x09, 0xAF].as_slice()
        ),
        _ => return Err(Fail::new("no telegram")),
    }
    match read_sheet_line(rt.alloc(), b" # cell 0") {
        Ok(SheetLine::Plain(Line::Empty)) => Ok(()),
        _ => Err(Fail::new("not empty")),
    }
}

// A helper for each kind of line that is understood, since each has a pattern of its own.

fn asks_for(rt: &(impl Abort + AllocGlobal), text: &[u8], cell: u16) -> Result<(), Fail> {
    match read_sheet_line(rt.alloc(), text) {
        Ok(SheetLine::Cell(read)) => {
            assert!(rt; read == cell);
            Ok(())
        },
        _ => Err(Fail::new("no cell")),
    }
}

#[test]
fn lines_with_cells(rt: HostRuntime) -> Result<(), Fail> {
    asks_for(&rt, b"cell 0", 0)?;
    asks_for(&rt, b"\tcell  65535 # the last", 65_535)?;
    asks_for(&rt, b"cell 0000000000000000005", 5)?;
    asks_for(&rt, b"cell 000000000000000000000000000065535", 65_535)
}

fn gives(rt: &(impl Abort + AllocGlobal), text: &[u8], values: &[u32]) -> Result<(), Fail> {
    match read_sheet_line(rt.alloc(), text) {
        Ok(SheetLine::Setup(SetupLine::Values(read))) => {
            assert!(rt; read.as_slice() == values);
            Ok(())
        },
        _ => Err(Fail::new("no values")),
    }
}

#[test]
fn lines_with_values(rt: HostRuntime) -> Result<(), Fail> {
    gives(&rt, b"values", &[])?;
    gives(&rt, b"values 4294967295 0 007", &[u32::MAX, 0, 7])
}

fn frames(rt: &(impl Abort + AllocGlobal), text: &[u8], base: u16, len: u16) -> Result<(), Fail> {
    match read_sheet_line(rt.alloc(), text) {
        Ok(SheetLine::Setup(SetupLine::Window(size))) => {
            assert!(rt; size.base == base && size.len == len);
            Ok(())
        },
        _ => Err(Fail::new("no window")),
    }
}

#[test]
fn lines_with_windows(rt: HostRuntime) -> Result<(), Fail> {
    frames(&rt, b"window 0 65535", 0, 65_535)?;
    frames(&rt, b"window 65535 0", 65_535, 0)
}

fn wants_sparse(rt: &(impl Abort + AllocGlobal), text: &[u8], numbers: &[u16]) -> Result<(), Fail> {
    match read_sheet_line(rt.alloc(), text) {
        Ok(SheetLine::Setup(SetupLine::Store(StoreKind::Sparse(cells)))) => {
            assert!(rt; cells.as_slice() == numbers);
            Ok(())
        }
        _ => Err(Fail::new("no sparse store")),
    }
}

fn wants_dense(rt: &(impl Abort + AllocGlobal), text: &[u8], count: u16) -> Result<(), Fail> {
    match read_sheet_line(rt.alloc(), text) {
        Ok(SheetLine::Setup(SetupLine::Store(StoreKind::Dense(cells)))) => {
            assert!(rt; cells == count);
            Ok(())
        },
        _ => Err(Fail::new("no dense store")),
    }
}

#[test]
fn lines_with_stores(rt: HostRuntime) -> Result<(), Fail> {
    wants_dense(&rt, b"store dense 0", 0)?;
    wants_dense(&rt, b"store\tdense 65535", 65_535)?;
    wants_sparse(&rt, b"store sparse", &[])?;
    wants_sparse(&rt, b"store sparse 9 1 9 65535", &[9, 1, 9, 65_535])
}

fn empty(rt: &HostRuntime, text: &[u8]) -> Result<(), Fail> {
    match read_line(rt.alloc(), text) {
        Ok(Line::Empty) => Ok(()),
        _ => Err(Fail::new("not empty")),
    }
}

#[test]
fn lines_without_words(rt: HostRuntime) -> Result<(), Fail> {
    empty(&rt, b"")?;
    empty(&rt, b" \t ")?;
    empty(&rt, b"# decode 00")?;
    empty(&rt, b" \t# decode 00")
}

fn decodes(rt: &(impl Abort + AllocGlobal), text: &[u8], bytes: &[u8]) -> Result<(), Fail> {
    match read_line(rt.alloc(), text) {
        Ok(Line::Decode(read)) => {
            assert!(rt; read.as_slice() == bytes);
            Ok(())
        },
        _ => Err(Fail::new("no telegram")),
    }
}

#[test]
fn lines_with_telegrams(rt: HostRuntime) -> Result<(), Fail> {
    decodes(&rt, b"decode", &[])?;
    decodes(&rt, b"decode#00", &[])?;
    decodes(&rt, b" decode\t09  aF Fa\t", &[0x09, 0xAF, 0xFA])?;
    decodes(&rt, b"decode 00 # 01", &[0x00])
}

#[test]
fn ends_of_lines(rt: HostRuntime) {
    assert!(rt; without_end(b"") == b"".as_slice());
    assert!(rt; without_end(b"\n") == b"".as_slice());
    assert!(rt; without_end(b"\r\n") == b"".as_slice());
    assert!(rt; without_end(b"a\r\n") == b"a".as_slice());
    assert!(rt; without_end(b"a\n\n") == b"a\n".as_slice());
    assert!(rt; without_end(b"a\r\r\n") == b"a\r".as_slice());
    assert!(rt; without_end(b"a\r") == b"a\r".as_slice());
}

fn answers(rt: &(impl Abort + AllocGlobal), bytes: &[u8], text: &str) -> Result<(), Fail> {
    let answer = decode_answer(rt.alloc(), bytes)?;
    assert!(rt; answer.as_str() == text);
    Ok(())
}

#[test]
fn answers_to_decode(rt: HostRuntime) -> Result<(), Fail> {
    answers(&rt, &[], "decode: refused 1 at 0\n")?;
    answers(&rt, &[0], "decode: accepted\n")?;
    answers(
        &rt,
        &[1, 0],
        "decode: accepted\norder 0: class 4, code 1, argument 0, reads, writes\n",
    )?;
    answers(
        &rt,
        &[
            1, 0x1F, 7, 255, 255, 255, 255, 255, 1, 255, 255, 2, 0, 0, 0, 1,
        ],
        "decode: accepted\norder 0: class 7, code 255, argument 4294967295, reads 65535, writes 0 1\n",
    )
}

fn cell_says<S: Store>(
    rt: &(impl Abort + AllocGlobal),
    store: &S,
    cell: u16,
    text: &str,
) -> Result<(), Fail> {
    let answer = cell_answer(rt.alloc(), store, cell)?;
    assert!(rt; answer.as_str() == text);
    Ok(())
}

#[test]
fn answers_to_cell(rt: HostRuntime) -> Result<(), Fail> {
    let mut values = [7, 4_294_967_295];
    let window = Window::new(DenseStore::new(&mut values).store, 1, 8);
    cell_says(&rt, &window, 0, "cell 0: 4294967295\n")?;
    cell_says(
        &rt,
        &window,
        1,
        "cell 1: refused 9, cause 1, cell 2, depth 1\n",
    )?;
    cell_says(
        &rt,
        &window,
        65_535,
        "cell 65535: refused 9, cause 2, cell 65535, depth 0\n",
    )
}

#[test]
fn answers_for_a_store(rt: HostRuntime) -> Result<(), Fail> {
    let taken = build_answer(rt.alloc(), None)?;
    assert!(rt; taken.as_str() == "");
    let refused = build_answer(rt.alloc(), Some(Refusal::BadSlices))?;
    assert!(rt; refused.as_str() == "store: refused 13\n");
    Ok(())
}
