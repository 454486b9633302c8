//! Bytes that are no bundle are refused, and those of one are read.
ghost use Rattle.std.specs.Prelude.{◌≤◌, length, IfOk};

use lr_bits::Bytes;
use lr_downlinks::{Bundle, BundleFault};
use std::alloc::Global;
use std::test::Fail;

fn bytes_of(alloc: Global, bytes: &[u8]) -> Result<Bytes, Fail>
    requires { length bytes.now ≤ 100 }
    ensures { IfOk result (λ made. length made ≤ 100) }
{
    let mut made = Bytes::new(alloc);
    made.extend(bytes)?;
    Ok(made)
}

/// What becomes of these bytes: the fault's number and its place or count; 0 and the number of streams where there is
/// none.
fn read(alloc: Global, bytes: &[u8]) -> Result<(u8, u64), Fail>
    requires { length bytes.now ≤ 100 }
{
    match Bundle::read(bytes_of(alloc, bytes)?) {
        Ok(bundle) => Ok((0, bundle.streams() as u64)),
        Err(BundleFault::Ended { at }) => Ok((1, at)),
        Err(BundleFault::Count { count }) => Ok((2, u64::from(count))),
        Err(BundleFault::Rest { at }) => Ok((3, at)),
    }
}

#[test]
fn bytes_may_end_early(rt: HostRuntime) -> Result<(), Fail> {
    let alloc = rt.alloc();
    assert!(rt; read(alloc, &[])? == (1, 0));
    assert!(rt; read(alloc, &[1, 0, 0, 0, 0])? == (1, 5));
    assert!(rt; read(alloc, &[1, 0, 0, 0, 0, 0, 0, 0, 1])? == (1, 9));
    Ok(())
}

#[test]
fn a_bundle_has_one_to_sixteen_streams(rt: HostRuntime) -> Result<(), Fail> {
    let alloc = rt.alloc();
    assert!(rt; read(alloc, &[0])? == (2, 0));
    assert!(rt; read(alloc, &[17, 1])? == (2, 17));
    Ok(())
}

#[test]
fn nothing_follows_a_bundle(rt: HostRuntime) -> Result<(), Fail> {
    let alloc = rt.alloc();
    assert!(rt; read(alloc, &[1, 0, 0, 0, 0, 0, 0, 0, 0, 0])? == (3, 9));
    Ok(())
}

#[test]
fn streams_stand_in_their_order(rt: HostRuntime) -> Result<(), Fail> {
    let alloc = rt.alloc();
    let bytes = [2, 0, 0, 0, 0, 0, 0, 0, 2, 7, 8, 0, 0, 0, 0, 0, 0, 0, 1, 9];
    let Ok(bundle) = Bundle::read(bytes_of(alloc, &bytes)?) else {
        return Err(Fail::from("no bundle"));
    };
    assert_eq!(rt; bundle.streams(), 2);
    assert!(rt; bundle.stream(0) == [7, 8].as_slice());
    assert!(rt; bundle.stream(1) == [9].as_slice());
    Ok(())
}
