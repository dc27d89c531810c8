//! Desks for tests.
use lrs_hall::{Desk, is_base, is_token};
use lrs_in_memory::MemDisk;
use lrs_json::Text;
use std::alloc::Global;
use std::test::Fail;

pub(crate) const NOW: u64 = 1_700_000_000_000;

// A desk over a disk of which these calls fail. There is none if one of them is a call of its founding.
pub(crate) fn if_founded(alloc: Global, failing: &[u64]) -> Result<Option<Desk<MemDisk>>, Fail> {
    let admin = Text::of(alloc, "adminadmin")?;
    let base = Text::of(alloc, "http://127.0.0.1:8080/")?;
    if !is_token(&admin) {
        return Err(Fail::from("no token"));
    }
    if !is_base(alloc, &base)? {
        return Err(Fail::from("no base"));
    }
    let failing = failing.to_vec(alloc)?;
    let disk = MemDisk::new(alloc, Vec::new(alloc), failing, 999, 16_777_216)?;
    match Desk::found(alloc, disk, 16_777_216, &admin, &base, NOW) {
        Ok(desk) => Ok(Some(desk)),
        Err(refused) => {
            drop(refused);
            Ok(None)
        }
    }
}

// A desk over a disk that doesn't fail.
pub(crate) fn founded(alloc: Global) -> Result<Desk<MemDisk>, Fail> {
    match if_founded(alloc, &[])? {
        Some(desk) => Ok(desk),
        None => Err(Fail::from("not founded")),
    }
}
