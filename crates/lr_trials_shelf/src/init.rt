//! What `init` makes, and what it leaves alone.
use crate::shared::{at, disk, empty, init, is_not_empty, load};
use lr_shelf_format::{header_of, old_header_of};
use std::alloc::Global;
use std::test::Fail;

/// Init on a disk of these bytes leaves the header of capacity 100.
fn is_made_anew(alloc: Global, bytes: &[u8]) -> Result<bool, Fail> {
    let mut made = disk(alloc, bytes)?;
    init(&mut made, 100)?;
    Ok(made.as_slice() == header_of(100).as_slice())
}

/// Init refuses a disk of these bytes, and leaves it.
fn is_kept(alloc: Global, bytes: &[u8]) -> Result<bool, Fail> {
    let mut made = disk(alloc, bytes)?;
    let answer = init(&mut made, 100);
    Ok(is_not_empty(answer, bytes.len() as u64) && made.as_slice() == bytes)
}

fn is_loaded_empty(alloc: Global) -> Result<bool, Fail> {
    let mut made = empty(alloc, 1 << 40)?;
    let shelf = load(alloc, &mut made)?;
    Ok(at(&shelf) == (0, 20, 1 << 40))
}

#[test]
fn an_init_that_was_stopped_is_made_anew(rt: HostRuntime) -> Result<(), Fail> {
    assert!(rt; is_made_anew(rt.alloc(), &[])?);
    assert!(rt; is_made_anew(rt.alloc(), &[0])?);
    assert!(rt; is_made_anew(rt.alloc(), &header_of(100)[..19])?);
    assert!(rt; is_made_anew(rt.alloc(), &[0; 20])?);
    Ok(())
}

#[test]
fn a_shelf_is_not_made_anew(rt: HostRuntime) -> Result<(), Fail> {
    assert!(rt; is_kept(rt.alloc(), &header_of(100))?);
    assert!(rt; is_kept(rt.alloc(), &old_header_of(20))?);
    assert!(rt; is_kept(rt.alloc(), &[0; 21])?);
    Ok(())
}

#[test]
fn an_empty_shelf_is_loaded(rt: HostRuntime) -> Result<(), Fail> {
    assert!(rt; is_loaded_empty(rt.alloc())?);
    Ok(())
}
