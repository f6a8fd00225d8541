//! That the calls of a vault succeed, and which calls it refuses.

use crate::asserts::same;
use copy_vault::{CopyFault, CopyId, Vault};
use page_core::{Lsn, PageNo};
use std::test::Fail;

#[test]
fn a_copy_with_a_page_left_is_not_sealed(rt: HostRuntime) -> Result<(), Fail> {
    let alloc = rt.alloc();
    let mut vault = Vault::new(alloc);
    same(
        &rt,
        &vault.open_full(alloc, 2, Lsn(64), Lsn(64)),
        &Ok(CopyId(1)),
    );
    same(
        &rt,
        &vault.seal(CopyId(1)),
        &Err(CopyFault::PagesLeft(PageNo(0))),
    );
    same(&rt, &vault.seal(CopyId(2)), &Err(CopyFault::NoCopy));
    assert!(rt; vault.reading(CopyId(1)).is_some());
    assert!(rt; vault.complete(CopyId(1)).is_none());
    drop(vault);
    Ok(())
}

#[test]
fn an_id_is_given_once(rt: HostRuntime) -> Result<(), Fail> {
    let alloc = rt.alloc();
    let mut vault = Vault::new(alloc);
    for id in 1..1_025 {
        same(
            &rt,
            &vault.open_full(alloc, 1, Lsn(64), Lsn(64)),
            &Ok(CopyId(id)),
        );
        same(&rt, &vault.drop_open(CopyId(id)), &Ok(()));
        same(&rt, &vault.drop_open(CopyId(id)), &Err(CopyFault::NoCopy));
    }
    let refused = vault.open_full(alloc, 1, Lsn(64), Lsn(64));
    same(&rt, &refused, &Err(CopyFault::TooManyCopies));
    drop(vault);
    Ok(())
}
