//! What is kept of contracts and notices beside the list of facts.

ghost use Rattle.std.specs.Prelude.{◌≡◌, false, None, OnErr, OnOk};
ghost use Rattle.gi_processing.specs.Readings.{RecordsContract, RecordsNotice};
ghost use Rattle.gi_processing.specs.Recording.{is_refused, notice_refusal};

use gi_day::Calendar;
use gi_processing::{Contract, ContractFault, Contracts, Notice, NoticeFault};
use std::alloc::AllocError;

pub(crate) fn record_contract(
    contracts: &mut Contracts,
    contract: Contract,
) -> Result<(), AllocError>
    requires { is_refused contract contracts.now.contracts ≡ false }
    ensures added { OnOk result (RecordsContract contracts.old contracts.new contract) }
    ensures unchanged { OnErr result (contracts.new ≡ contracts.old) }
{
    match contracts.set(contract) {
        Ok(()) => Ok(()),
        Err(ContractFault::OutOfMemory) => Err(AllocError),
        Err(ContractFault::TooManyPortfolios) => unreachable!(),
    }
}

pub(crate) fn record_notice(
    contracts: &mut Contracts,
    calendar: &Calendar,
    notice: Notice,
) -> Result<(), AllocError>
    requires { notice_refusal notice ≡ None }
    ensures added { OnOk result (RecordsNotice contracts.old contracts.new notice) }
    ensures unchanged { OnErr result (contracts.new ≡ contracts.old) }
{
    let Ok(frame) = calendar.frame(notice.day) else {
        unreachable!()
    };
    match contracts.notice(&frame, notice) {
        Ok(()) => Ok(()),
        Err(NoticeFault::OutOfMemory) => Err(AllocError),
        Err(NoticeFault::NoticeRange | NoticeFault::PermilleRange) => unreachable!(),
    }
}
