//! A session with its engine.

use crate::calls::Calls;
use aries_core::{Refusal, SteppedBack};
use engine_run::{Life, Session, Shared};
use log_store::LogDevice;
use page_core::{Lsn, PageNo, SlotNo, TxnNo};
use page_store::PageStore;
use settlement::{ChangeReceipt, ReadReceipt, StepReceipt};
use std::sync::Wait;

/// A session with the engine that it is of, so that its calls name neither.
#[derive(Drop)]
pub struct Client<'a, S: PageStore, D: LogDevice, G: Life, R: Wait> {
    pub session: Session<G>,
    pub shared: &'a Shared<S, D, G>,
    pub rt: &'a R,
}

impl<S: PageStore, D: LogDevice, G: Life, R: Wait> Calls for Client<'_, S, D, G, R> {
    ghost use Rattle.engine_run.specs.Replies.{IsTold, MadeOn};

    ghost receipts = { λ it. it.session };

    ghost made = { MadeOn S.PageStore D.LogDevice };

    ghost called = { λ old event reply new. IsTold (MadeOn S.PageStore D.LogDevice) event reply };

    ghost told = { λ old new event reply is. is };

    fn begin(&mut self) -> Result<StepReceipt, Refusal> {
        self.session.begin(self.rt, self.shared)
    }

    fn set(
        &mut self,
        txn: TxnNo,
        page: PageNo,
        slot: SlotNo,
        number: u64,
    ) -> Result<ChangeReceipt, Refusal> {
        self.session
            .set(self.rt, self.shared, txn, page, slot, number)
    }

    fn add(
        &mut self,
        txn: TxnNo,
        page: PageNo,
        slot: SlotNo,
        amount: u64,
    ) -> Result<ChangeReceipt, Refusal> {
        self.session
            .add(self.rt, self.shared, txn, page, slot, amount)
    }

    fn read(&mut self, page: PageNo, slot: SlotNo) -> Result<ReadReceipt, Refusal> {
        self.session.read(self.rt, self.shared, page, slot)
    }

    fn peek(&self, page: PageNo, slot: SlotNo) -> Result<u64, Refusal> {
        self.session.peek(self.rt, self.shared, page, slot)
    }

    fn commit(&mut self, txn: TxnNo) -> Result<StepReceipt, Refusal> {
        self.session.commit(self.rt, self.shared, txn)
    }

    fn abort(&mut self, txn: TxnNo) -> Result<StepReceipt, Refusal> {
        self.session.abort(self.rt, self.shared, txn)
    }

    fn undo_step(&mut self, txn: TxnNo) -> Result<StepReceipt, Refusal> {
        self.session.undo_step(self.rt, self.shared, txn)
    }

    fn savepoint(&self, txn: TxnNo) -> Result<Lsn, Refusal> {
        self.session.savepoint(self.rt, self.shared, txn)
    }

    fn undo_to(&mut self, txn: TxnNo, savepoint: Lsn) -> Result<SteppedBack, Refusal> {
        self.session.undo_to(self.rt, self.shared, txn, savepoint)
    }
}
