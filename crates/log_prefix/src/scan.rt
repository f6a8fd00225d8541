//! Reads the front of an input with any sink.

ghost use Rattle.std.specs.Prelude.{◌≡◌, Err, IfOk, IfSome, OnOk};
ghost use Rattle.page_core.specs.Input.{StaysKnown};
ghost use Rattle.log_store.specs.Fault.{IsBehindLog, offset_of};
ghost use Rattle.log_prefix.specs.Front.{HasFront, HasNoFront, IsReadUp, fault_of, same_fault};
ghost use Rattle.log_prefix.specs.declared.fault.FrontFault.TheVariants.{BadHeader};

use crate::bytes::read_up;
use crate::cut::{Cut, CutReason};
use crate::fault::FrontFault;
use log_records::MAX_LOG_BYTES;
use log_store::{LogReadFault, Reached, RecordSink, Scan, scan_to_fault};
use page_core::Lsn;
use std::alloc::Global;
use std::io::Read;

/// The result of reading a front: what its records lead to, and where and why it was cut.
#[derive(Drop)]
pub struct FrontScan<S> {
    pub scan: Scan<S>,
    /// `None` where the whole input is the front.
    pub cut: Option<Cut>,
}

/// The cut at a fault behind a front.
fn cut_of(fault: LogReadFault) -> Cut
    requires { IsBehindLog fault }
    ensures why { fault ≡ fault_of result.at result.why }
    ensures at { result.at ≡ offset_of fault }
{
    let (at, why) = match fault {
        LogReadFault::Torn(at) => (at, CutReason::Torn),
        LogReadFault::BadRecord(at) => (at, CutReason::BadRecord),
        LogReadFault::BadChain(at) => (at, CutReason::BadChain),
        LogReadFault::TooLong => (Lsn(MAX_LOG_BYTES as u64), CutReason::TooLong),
        LogReadFault::OutOfMemory | LogReadFault::BadHeader | LogReadFault::ReadFault => {
            unreachable!()
        }
    };
    Cut { at, why }
}

/// Why there is no front, by the fault of the reader of a log.
fn none_by(fault: LogReadFault) -> FrontFault
    requires { ¬ IsBehindLog fault }
    ensures { fault ≡ same_fault result }
{
    match fault {
        LogReadFault::OutOfMemory => FrontFault::OutOfMemory,
        LogReadFault::BadHeader => FrontFault::BadHeader,
        LogReadFault::ReadFault => FrontFault::ReadFault,
        LogReadFault::Torn(_)
        | LogReadFault::BadRecord(_)
        | LogReadFault::BadChain(_)
        | LogReadFault::TooLong => unreachable!(),
    }
}

/// Reads the longest front of an input that is a linked log: its records go to a sink, and the
/// history has the state to which they lead.
///
/// It reads to the input's end, or until it has read more bytes than the longest log has, and keeps
/// none of them. `BadHeader` comes where the input has no front, not even one without records: then
/// it reads no further. `ReadFault` comes where the reader fails, before the cut or behind it, and
/// where it was asked 134,217,728 times there without coming to its end; an interrupted read is made
/// again. `OutOfMemory` comes where room for the sink or for the history is refused. After a fault
/// it is not said where the reader stands.
pub fn scan_front<R: Read, S: RecordSink + Drop>(
    alloc: Global,
    reader: &mut R,
) -> Result<FrontScan<S>, FrontFault>
    ensures known { StaysKnown (R.remaining reader.old) (R.remaining reader.new) }
    ensures found { IfOk result (λ it. HasFront S.holds it.scan.sink it.scan.history it.cut
        (R.remaining reader.old)) }
    ensures read { OnOk result (IsReadUp (R.remaining reader.old) (R.remaining reader.new)) }
    ensures none { result ≡ Err BadHeader → IfSome (R.remaining reader.old) HasNoFront }
{
    let Reached { scan, fault } = match scan_to_fault(alloc, reader) {
        Ok(reached) => reached,
        Err(fault) => return Err(none_by(fault)),
    };
    match fault {
        None => Ok(FrontScan { scan, cut: None }),
        Some(fault) => {
            let cut = cut_of(fault);
            read_up(alloc, reader, cut.at.0)?;
            Ok(FrontScan {
                scan,
                cut: Some(cut),
            })
        }
    }
}
