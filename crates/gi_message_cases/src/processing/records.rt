//! What a side has recorded.

ghost use Rattle.std.specs.Prelude.{◌≡◌};
ghost use Rattle.jiff_core.specs.declared.civil.date.Date.{Date};
ghost use Rattle.gi_nominations.specs.Book.{IsNewer};
ghost use Rattle.gi_nominations.specs.declared.verdict.Verdict.TheVariants as Verdict;
ghost use Rattle.gi_processing.specs.Processing.{AreSound, IsSound};

use gi_day::{Calendar, DayFrame, GasDay, NoSuchCycle};
use gi_messages::Nomint;
use gi_nominations::{Book, Setting, Verdict};
use gi_pairs::{Code, Side, Table};
use gi_processing::{Contract, ContractFault, Contracts, Notice, NoticeFault, Rule, processed};
use std::alloc::{AllocError, Global};

/// A side's contracts and notices, and the nominations that it took by them.
#[derive(Drop)]
pub struct Records {
    contracts: Contracts,
    book: Book,
    // On each gas day every nomination in force is of a portfolio with a contract, and its lines
    // have no fault.
    ghost sound: { (day : Date) → AreSound contracts book.documents day },
}

/// The frame of a gas day.
fn frame(day: GasDay) -> DayFrame
    ensures { result ≡ day }
{
    Calendar::new().unwrap().frame(day).unwrap()
}

/// Why a notice is refused, if it is.
pub(crate) fn fault(notice: &Notice) -> Option<NoticeFault> {
    notice.fault(&frame(notice.day))
}

impl Records {
    /// No contracts, no notices and no nominations.
    pub(crate) fn new(alloc: Global, point: Code) -> Records {
        Records {
            contracts: Contracts::new(alloc),
            book: Book::new(alloc, point),
        }
    }

    pub(crate) fn contracts(&self) -> &Contracts {
        &self.contracts
    }

    pub(crate) fn set(&mut self, contract: Contract) -> Result<(), ContractFault> {
        self.contracts.set(contract)
    }

    pub(crate) fn notice(&mut self, notice: Notice) -> Result<(), NoticeFault> {
        self.contracts.notice(&frame(notice.day), notice)
    }

    /// The verdict on a nomination, by the contracts and before any cycle of its gas day is closed.
    pub(crate) fn judge(&self, nomint: &Nomint) -> Verdict
        ensures newer { result ≡ Verdict.Recordable → IsNewer self.now.book.documents nomint.now }
        ensures sound { result ≡ Verdict.Recordable → IsSound self.now.contracts nomint.now.day nomint.now.portfolio nomint.now }
    {
        let setting = Setting {
            frame: frame(nomint.day),
            known: self.contracts.knows(nomint.portfolio, nomint.day),
            last_closed: None,
        };
        self.book.judge(&setting, nomint)
    }

    /// The verdict on a nomination, which is taken where it is recordable.
    pub(crate) fn take(&mut self, nomint: Nomint) -> Result<Verdict, AllocError> {
        let verdict = self.judge(&nomint);
        if let Verdict::Recordable = verdict {
            self.book.take(nomint)?;
        }
        Ok(verdict)
    }

    /// The processed table of a cycle by a rule, or what the gas day's frame says of one that it has not.
    pub(crate) fn processed(
        &self,
        alloc: Global,
        side: Side,
        day: GasDay,
        cycle: u8,
        rule: Rule,
    ) -> Result<Result<Table, NoSuchCycle>, AllocError> {
        let frame = frame(day);
        if let Err(fault) = frame.cycle_start(cycle) {
            return Ok(Err(fault));
        }
        let table = processed(
            alloc,
            &self.book,
            &self.contracts,
            side,
            &frame,
            cycle,
            rule,
        )?;
        Ok(Ok(table))
    }
}
