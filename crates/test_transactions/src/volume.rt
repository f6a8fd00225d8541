//! What the tests share: a shared engine over a small volume, its sessions, and what they are told.

ghost use Rattle.std.specs.Prelude.{[], ◌≡◌};

use imgcopy_engine::{
    ChangeKind, ChangeReceipt, Life, LogDevice, Lsn, MAX_SESSIONS, MemDevice, MemStore, PageNo,
    Receipt, Session, Setup, Shared, SlotNo, StepReceipt, TxnNo, TxnStep,
};
use std::process::Abort;
use std::sync::ledger::Blank;

pub(crate) type Volume<D, G> = Shared<MemStore, D, G>;

/// The page that the tests change.
pub(crate) const PAGE: PageNo = PageNo(0);

/// A device with room for some records.
pub(crate) fn device(rt: &(impl Abort + AllocGlobal)) -> MemDevice {
    MemDevice::new(rt.alloc(), 1024).expect(rt, "a device")
}

/// An engine over four formatted pages.
pub(crate) fn volume<D: LogDevice + Drop, G: Life, R: Abort + AllocGlobal>(
    rt: &R,
    blank: Blank,
    device: D,
) -> Volume<D, G>
    requires name { blank.name ≡ G.name }
    requires parts { blank.parts ≡ G.parts }
    requires before { G.before ≡ [] }
    requires sessions { blank.parts ≡ 65 }
{
    let setup = Setup {
        pages: 4,
        frames: 4,
    };
    let store = MemStore::new(rt.alloc(), 4).expect(rt, "a store");
    Volume::<D, G>::new(rt.alloc(), blank, setup, store, device).expect(rt, "an engine")
}

/// A session of an engine that is not shared yet.
pub(crate) fn new_session<D: LogDevice, G: Life>(
    rt: &(impl Abort + AllocGlobal),
    shared: &mut Volume<D, G>,
) -> Session<G> {
    assert!(rt; shared.sessions() < MAX_SESSIONS);
    shared.session(rt.alloc())
}

/// The receipt of a step of a transaction.
pub(crate) fn stepped(lsn: u64, txn: u32, step: TxnStep) -> Receipt {
    Receipt::Stepped(StepReceipt {
        lsn: Lsn(lsn),
        txn: TxnNo(txn),
        step,
    })
}

/// The receipt of a number that was set.
pub(crate) fn was_set(lsn: u64, txn: u32, slot: u16, number: u64) -> Receipt {
    Receipt::Changed(ChangeReceipt {
        lsn: Lsn(lsn),
        txn: TxnNo(txn),
        page: PAGE,
        slot: SlotNo(slot),
        kind: ChangeKind::Set,
        number,
    })
}
