ghost use Rattle.std.specs.Prelude.{◌≡◌, ℕ, ◌↔◌, ◌*◌, ◌+◌, ◌≤◌, IsTrue, OnOk, OnErr, IsOk, IsOkUnless, Some, None, Err, [], true, false, length};
ghost use Rattle.std.specs.BTreeMap.{IsOrdered, get};
ghost use Rattle.std.specs.List.{IsDistinct};
ghost use Rattle.std.specs.List.Sorted.{IsPermutation};
ghost use Rattle.std.specs.Str.{bytes_eq};
ghost use Rattle.gi_pairs.specs.Quantity.{most_quantity};
ghost use Rattle.gi_processing.specs.Capacity.{available as available_of, contract_of, has_contract, has_notice, knows as knows_of, notice_of};
ghost use Rattle.gi_processing.specs.CapacityLimits.{most_portfolios};
ghost use Rattle.gi_processing.specs.HoursLeft.{IsLeft, left_at, left_under};
ghost use Rattle.gi_processing.specs.Kept.{CutsRows, left_in, notice_cmp, notice_key};
ghost use Rattle.gi_processing.specs.Readings.{RecordsContract, RecordsNotice};
ghost use Rattle.gi_processing.specs.Recording.{ContractStands, IsNotice, NoticeStands, is_refused, notice_refusal, portfolios_of};
ghost use Rattle.gi_processing.specs.declared.contract.Contract.{Contract};
ghost use Rattle.gi_processing.specs.declared.notice_fault.NoticeFault.{NoticeFault};

use crate::contract::Contract;
use crate::contract_fault::ContractFault;
use crate::contract_key::ContractKey;
use crate::contracted::Contracted;
use crate::hours_left::{HoursLeft, Thousandths};
use crate::notice::Notice;
use crate::notice_fault::NoticeFault;
use crate::notice_key::NoticeKey;
use crate::portfolios::Portfolios;
use gi_day::{DayFrame, GasDay};
use gi_pairs::{Code, Direction};
use std::alloc::{AllocError, Global};
use std::collections::BTreeMap;
use std::marker::Model;

/// The contracts that stand at a side, and what the notices leave of them.
#[derive(Drop)]
pub struct Contracts {
    contracts: BTreeMap<ContractKey, Contracted>,
    /// A row for each gas day and direction that has a notice.
    notices: BTreeMap<NoticeKey, HoursLeft>,
    portfolios: Portfolios,
}

impl Model for Contracts {
    ghost use Rattle.gi_processing.specs.Capacity.{Capacity};
    ghost use Rattle.gi_processing.specs.ContractsRepr.{capacity_of, ContractsInvariant};

    ghost Value = { Capacity };

    ghost view = { capacity_of };

    ghost invariant = { ContractsInvariant };
}

fn hours_of(rows: &BTreeMap<NoticeKey, HoursLeft>, key: &NoticeKey) -> HoursLeft
    ensures { (hour : ℕ) → left_at result.hours hour ≡ left_in (get notice_cmp rows.now key.now) hour }
{
    match rows.get(key) {
        Some(row) => *row,
        None => HoursLeft::new(),
    }
}

fn cut_hours(rows: &mut BTreeMap<NoticeKey, HoursLeft>, notice: &Notice) -> Result<(), AllocError>
    requires { IsNotice notice.now }
    ensures cut { OnOk result (CutsRows notice.now rows.old rows.new) }
    ensures ordered { IsOrdered notice_cmp rows.new }
    ensures absent { OnErr result (get notice_cmp rows.old (notice_key notice.now.day notice.now.direction) ≡ None) }
    ensures unchanged { OnErr result (rows.new.entries ≡ rows.old.entries) }
{
    let key = notice.key();
    let row = hours_of(rows, &key).cut(notice);
    rows.insert(key, row)?;
    Ok(())
}

impl Contracts {
    /// No contracts and no notices.
    #[tactic(auto, unfolding(crate::specs::Recording::portfolios_of))]
    pub fn new(alloc: Global) -> Contracts
        ensures { result ≡ record { contracts = []; notices = [] } }
    {
        Contracts {
            contracts: BTreeMap::new(alloc),
            notices: BTreeMap::new(alloc),
            portfolios: Portfolios::new(),
        }
    }

    /// Records a contract, in place of the one that stood for its portfolio, gas day and direction;
    /// where one did, no memory is taken. `TooManyPortfolios` where its portfolio has no contract yet,
    /// on any day, and 64 portfolios have one, then `OutOfMemory`; after either nothing is changed.
    pub fn set(&mut self, contract: Contract) -> Result<(), ContractFault>
        ensures refused { (result ≡ Err ContractFault.TooManyPortfolios) ↔ IsTrue (is_refused contract self.old.contracts) }
        ensures stands { OnOk result (ContractStands self.old.contracts self.new.contracts contract) }
        ensures reads { OnOk result (RecordsContract self.old self.new contract) }
        ensures replaces { has_contract contract.portfolio contract.day contract.direction self.old.contracts ≡ true → IsOk result }
        ensures notices { self.new.notices ≡ self.old.notices }
        ensures unchanged { OnErr result (self.new ≡ self.old) }
    {
        if self.portfolios.is_too_many(contract.portfolio) {
            return Err(ContractFault::TooManyPortfolios);
        }
        let Ok(_) = self.contracts.insert(contract.key(), contract.contracted()) else {
            return Err(ContractFault::OutOfMemory);
        };
        self.portfolios.add(contract.portfolio);
        Ok(())
    }

    /// Whether a contract would be refused: its portfolio has none yet, on any day, and 64 portfolios
    /// have one. It takes no memory.
    pub fn refuses(&self, contract: &Contract) -> bool
        ensures { result ≡ is_refused contract.now self.now.contracts }
    {
        self.portfolios.is_too_many(contract.portfolio)
    }

    /// Records a notice, under the frame of its day. The refusals, in their order, are `NoticeRange`,
    /// `PermilleRange` and `OutOfMemory`; after each nothing is changed. No memory is taken where its
    /// gas day and direction have a notice already.
    pub fn notice(&mut self, frame: &DayFrame, notice: Notice) -> Result<(), NoticeFault>
        requires { frame.now ≡ notice.day }
        ensures refused { (fault : NoticeFault) → notice_refusal notice ≡ Some fault → result ≡ Err fault }
        ensures taken { notice_refusal notice ≡ None → IsOkUnless result NoticeFault.OutOfMemory }
        ensures stands { OnOk result (NoticeStands self.old.notices self.new.notices notice) }
        ensures reads { OnOk result (RecordsNotice self.old self.new notice) }
        // A row has all 25 hours, so the first hour is there exactly where the gas day and direction are.
        ensures covered { notice_refusal notice ≡ None → has_notice notice.day notice.direction notice.first self.old.notices ≡ true → IsOk result }
        ensures contracts { self.new.contracts ≡ self.old.contracts }
        ensures unchanged { OnErr result (self.new ≡ self.old) }
    {
        if let Some(fault) = notice.fault(frame) {
            return Err(fault);
        }
        let Ok(()) = cut_hours(&mut self.notices, &notice) else {
            return Err(NoticeFault::OutOfMemory);
        };
        Ok(())
    }

    fn contract(&self, portfolio: Code, day: GasDay, direction: Direction) -> Option<Contract>
        ensures { result ≡ contract_of portfolio day direction self.now.contracts }
    {
        let key = ContractKey {
            portfolio,
            day,
            direction,
        };
        match self.contracts.get(&key) {
            Some(contracted) => Some(Contract::at(key, *contracted)),
            None => None,
        }
    }

    fn left(&self, day: GasDay, direction: Direction, hour: u8) -> Thousandths
        ensures value { result ≡ left_under (notice_of day direction hour self.now.notices) }
        ensures in_range { IsLeft result }
    {
        match self.notices.get(&NoticeKey { day, direction }) {
            Some(row) => row.at(hour),
            None => Thousandths::WHOLE,
        }
    }

    /// Whether a contract of the portfolio stands for the day, in either direction. It is two look-ups
    /// at most.
    #[tactic(auto, unfolding(crate::specs::Capacity::knows))]
    pub fn knows(&self, portfolio: Code, day: GasDay) -> bool
        ensures { result ≡ knows_of portfolio day self.now.contracts }
    {
        self.contract(portfolio, day, Direction::IM).is_some()
            || self.contract(portfolio, day, Direction::MI).is_some()
    }

    /// What is available to the portfolio in an hour of a gas day and direction, in kWh/h: the parts
    /// of the firm and of the interruptible quantity of its contract that the last notice for the
    /// hour leaves, all of both where there is none, and 0 without a contract.
    pub fn available(&self, portfolio: Code, day: GasDay, direction: Direction, hour: u8) -> u64
        ensures value { result ≡ available_of self.now.contracts self.now.notices portfolio day direction hour }
        ensures in_range { result ≤ 2 * most_quantity }
        ensures no_contract { has_contract portfolio day direction self.now.contracts ≡ false → result ≡ 0 }
        ensures no_notice { (contract : Contract) → contract_of portfolio day direction self.now.contracts ≡ Some contract
            → has_notice day direction hour self.now.notices ≡ false
            → result ≡ contract.firm + contract.interruptible }
    {
        match self.contract(portfolio, day, direction) {
            Some(contract) => contract.parts(self.left(day, direction, hour)),
            None => 0,
        }
    }

    pub(crate) fn portfolios(&self) -> &[Code]
        ensures value { IsPermutation (portfolios_of self.now.contracts) result.now }
        ensures few { length result.now ≤ most_portfolios }
        ensures distinct { IsDistinct bytes_eq result.now }
    {
        self.portfolios.as_slice()
    }
}
