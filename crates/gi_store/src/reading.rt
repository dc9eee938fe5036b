//! Rows are read as facts.

ghost use Rattle.std.specs.Prelude.{ℤ, ◌≡◌, ◌≤◌, ◌+◌, ◌++◌, length, IfOk, IfErr, OnOk};
ghost use Rattle.sqlite_value.specs.Order.{column};
ghost use Rattle.sqlite_value.specs.declared.value.Value.TheVariants.{Int};
ghost use Rattle.gi_store.specs.Facts.{AreFactsFrom, Covers, HasBody, IsBodyFault, IsReadFault, IsRowFault, body_fault as fault_of_body};

use crate::store_fault::StoreFault;
use gi_facts::{Fact, FactFault, decode_batch};
use sqlite::Row;
use sqlite::types::ValueRef;
use std::alloc::Global;

/// Each row of a table has a whole number here, so anything else is a failure of the database.
fn number_of(row: &Row) -> Result<i64, StoreFault>
    ensures number { IfOk result (λ m. column row.now 0 ≡ Int m) }
    ensures refused { IfErr result (λ fault. (fault ≡ StoreFault.Store) × ((m : ℤ) → ¬ (column row.now 0 ≡ Int m))) }
{
    match row.get_ref(0) {
        Ok(ValueRef::Int(number)) => Ok(number),
        _ => Err(StoreFault::Store),
    }
}

/// Which fault it is takes no memory to tell.
fn body_fault(fault: FactFault, number: i64) -> StoreFault
    ensures { result ≡ fault_of_body number fault }
{
    match fault {
        FactFault::NotAFact => StoreFault::Damaged(number),
        FactFault::OutOfMemory => StoreFault::OutOfMemory,
    }
}

fn body_of(alloc: Global, row: &Row, number: i64) -> Result<Vec<Fact>, StoreFault>
    ensures body { IfOk result (λ facts. HasBody row.now facts.items) }
    ensures refused { IfErr result (IsBodyFault row.now number) }
{
    match row.get_ref(1) {
        Ok(ValueRef::Text(text)) => match decode_batch(alloc, text) {
            Ok(facts) => Ok(facts),
            Err(fault) => Err(body_fault(fault, number)),
        },
        Ok(_) => Err(StoreFault::Damaged(number)),
        Err(_) => Err(StoreFault::Store),
    }
}

fn read_row(alloc: Global, row: &Row, next: u64) -> Result<Vec<Fact>, StoreFault>
    requires { 1 ≤ next }
    ensures facts { IfOk result (λ facts. Covers next row.now facts.items) }
    ensures refused { IfErr result (IsRowFault next row.now) }
{
    let number = number_of(row)?;
    if number < 1 || (number as u64) < next {
        return Err(StoreFault::Damaged(number));
    }
    if next < number as u64 {
        return Err(StoreFault::Gap(next));
    }
    body_of(alloc, row, number)
}

fn append_row(alloc: Global, row: &Row, facts: &mut Vec<Fact>) -> Result<(), StoreFault>
    ensures appended { OnOk result ((batch : _) × Covers (length facts.old.items + 1) row.now batch × (facts.new.items ≡ facts.old.items ++ batch)) }
    ensures refused { IfErr result (IsRowFault (length facts.old.items + 1) row.now) }
{
    let next = facts.len() as u64 + 1;
    let mut batch = read_row(alloc, row, next)?;
    facts.append(&mut batch)?;
    Ok(())
}

/// The first fault is the first by number only where the rows come in the order of their numbers.
pub fn read_facts(alloc: Global, rows: &[Row]) -> Result<Vec<Fact>, StoreFault>
    ensures facts { IfOk result (λ facts. AreFactsFrom 1 rows.now facts.items) }
    ensures refused { IfErr result (IsReadFault rows.now) }
{
    let mut facts = Vec::new(alloc);
    for row in rows {
        append_row(alloc, row, &mut facts)?;
    }
    Ok(facts)
}
