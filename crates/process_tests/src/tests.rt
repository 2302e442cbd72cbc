// Each case is read as it stands; the expected answers were worked out by hand from the rules.
ghost use Rattle.std.specs.Prelude.{◌≤◌};

use process::read;
use process::tables::Tables;
use std::alloc::{AllocError, Global};
use std::process::Abort;
use std::test::Fail;
use values::{Fault, Layer};

mod cases;

fn fault_of(heap: Global, stored: &str) -> Result<Option<Fault>, Fail> {
    let input = hex::decode(heap, stored)?;
    let tables = Tables::new(heap)?;
    let mut column = [7; 257];
    let mut line = [0; 256];
    Ok(read(&input, tables, &mut column, &mut line).err())
}

// A case names the fault by its number, as the manual does, and 0 says that the process is accepted.
fn check_case(
    rt: &impl Abort,
    heap: Global,
    stored: &str,
    number: u8,
    place: usize,
    shows: &str,
) -> Result<(), Fail> {
    let expected = (number != 0).then_some((number, Layer::Reader, place));
    let got = fault_of(heap, stored)?.map(|f| (u8::from(f.cause), f.layer, f.place));
    assert_eq!(rt; got, expected, "{}", shows);
    Ok(())
}

#[test]
fn each_case_gets_its_fault(rt: HostRuntime) -> Result<(), Fail> {
    for (stored, number, place, shows) in cases::CASES {
        check_case(&rt, rt.alloc(), stored, number, place, shows)?;
    }
    Ok(())
}

// Reads the smallest process with so much memory: the fault's number, if there is one, and three bytes of the column.
fn with_memory(
    heap: Global,
    bytes: usize,
    numbers: usize,
) -> Result<(Option<u8>, [u8; 3]), AllocError>
    requires { (bytes ≤ 300) × (numbers ≤ 300) }
{
    let tables = Tables::new(heap)?;
    let mut column = [7; 300];
    let mut line = [0; 300];
    let fault = read(
        b"\x01\x02\x00\x00\x40\x10A",
        tables,
        &mut column[..bytes],
        &mut line[..numbers],
    )
    .err();
    let number = fault.map(|f| u8::from(f.cause));
    Ok((number, [column[0], column[256], column[257]]))
}

#[test]
fn memory_comes_first(rt: HostRuntime) -> Result<(), Fail> {
    assert_eq!(rt; with_memory(rt.alloc(), 256, 256)?, (Some(5), [7, 7, 7]));
    assert_eq!(rt; with_memory(rt.alloc(), 257, 255)?, (Some(5), [7, 7, 7]));
    assert_eq!(rt; with_memory(rt.alloc(), 0, 0)?, (Some(5), [7, 7, 7]));
    assert_eq!(rt; with_memory(rt.alloc(), 257, 256)?, (None, [0, 0, 7]));
    assert_eq!(rt; with_memory(rt.alloc(), 300, 300)?, (None, [0, 0, 7]));
    Ok(())
}
