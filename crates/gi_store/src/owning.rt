//! Whose a book is, by its table of the owner.

ghost use Rattle.std.specs.Prelude.{◌≡◌, ◌⊎◌, ◌↔◌, ◌≢◌, [], ◌∷◌, false, IsTrue, None, Err, IfErr, IfOk, IfSome, OnErr, OnOk, IsErrAnd};
ghost use Rattle.gi_pairs.specs.Code.{IsCode};
ghost use Rattle.gi_store.specs.Clean.{IsClean};
ghost use Rattle.sqlite.specs.Held.{state};
ghost use Rattle.gi_store.specs.Keeping.{AddsNoOutcome, IsBook, IsIdle, IsReady, IsVersion, Keeps, KeepsOrRaises, KeepsOrUpgrades, LeavesOr, Raises, Upgrades};
ghost use Rattle.gi_store.specs.Failing.{Endures, IsCausedAtAll};
ghost use Rattle.gi_store.specs.FaultText.{IsFailure, IsPreparingRefusal, IsRefusal};
ghost use Rattle.gi_store.specs.Opening.{IsNameFault, IsOwnerFault};
ghost use Rattle.gi_store.specs.Owner.{owner_text};
ghost use Rattle.gi_store.specs.Rows.{IsOwned, row_of};
ghost use Rattle.gi_store.specs.Tables.{HasOwnerTable, StandsAlone, TakesOwner};
ghost use Rattle.gi_store.specs.Version.{version_number};
ghost use Rattle.gi_store.specs.declared.version.BookVersion.TheVariants.{One, Two};
ghost use Rattle.gi_store.specs.declared.store_fault.StoreFault.TheVariants.{OtherBook, Store, Version};

use crate::making::{add_owner, raise_version};
use crate::owner::Owner;
use crate::statements::owner_rows;
use crate::store_fault::StoreFault;
use crate::tables::{has_owner, stands_alone, takes_owner};
use crate::version::BookVersion;
use sqlite::types::ValueRef;
use sqlite::{Alter, Connection, Row};
use sqlite_schema::schema::Schema;
use std::alloc::Global;

fn owner_in_row(row: &Row) -> Option<Owner>
    ensures owner { IfSome result (λ owner. IsCode owner.point × (row.now ≡ row_of 1 (owner_text owner))) }
    ensures none { result ≡ None → (owner : _) → IsCode owner.point → ¬ (row.now ≡ row_of 1 (owner_text owner)) }
{
    if row.column_count() != 2 || !matches!(row.get_ref(0), Ok(ValueRef::Int(1))) {
        return None;
    }
    match row.get_ref(1) {
        Ok(ValueRef::Text(text)) => Owner::of_text(text),
        _ => None,
    }
}

/// Whose the rows are takes no memory to tell.
fn owner_in(rows: &[Row]) -> Result<Owner, StoreFault>
    ensures owner { IfOk result (λ owner. IsCode owner.point × (rows.now ≡ row_of 1 (owner_text owner) ∷ [])) }
    ensures refused { IfErr result (λ fault. (fault ≡ Version) × ((owner : _) → IsCode owner.point → ¬ (rows.now ≡ row_of 1 (owner_text owner) ∷ []))) }
{
    let [row] = rows else {
        return Err(StoreFault::Version);
    };
    match owner_in_row(row) {
        Some(owner) => Ok(owner),
        None => Err(StoreFault::Version),
    }
}

/// The owner that the database says.
#[tactic(auto, using(crate::proofs::Causes::endures_still))]
pub fn read_owner<S: Alter>(connection: &mut Connection<S>) -> Result<Owner, StoreFault>
    requires { IsClean S.Store connection.old → IsIdle (state S.Store connection.old) }
    ensures early { IsClean S.Store connection.new → IsClean S.Store connection.old }
    ensures mode { (state S.Store connection.old).in_transaction ≡ false → (state S.Store connection.new).in_transaction ≡ false }
    ensures code { IfOk result (λ owner. IsCode owner.point) }
    ensures owner { IsClean S.Store connection.new → IfOk result (λ owner. IsTrue (state S.Store connection.new).is_open × IsOwned owner (state S.Store connection.new).now) }
    ensures refused { IsClean S.Store connection.new → IfErr result (IsNameFault (state S.Store connection.old)) }
    ensures named { IfErr result IsRefusal }
    ensures other { ¬ (HasOwnerTable (state S.Store connection.old).now.schema) → result ≡ Err Version }
    ensures idle { IsClean S.Store connection.new → IsIdle (state S.Store connection.new) }
    ensures kept { IsClean S.Store connection.new → Keeps (state S.Store connection.old) (state S.Store connection.new) }
    ensures crash { IsClean S.Store connection.new → AddsNoOutcome (state S.Store connection.old) (state S.Store connection.new) }
    ensures endures { IsClean S.Store connection.new → Endures (state S.Store connection.old) (state S.Store connection.new) }
    ensures failed { IsClean S.Store connection.new → IfErr result (IsCausedAtAll (state S.Store connection.old) (state S.Store connection.new)) }
{
    if !has_owner(connection.schema()) {
        return Err(StoreFault::Version);
    }
    let rows = owner_rows(connection)?;
    owner_in(rows.as_slice())
}

fn require_owner(theirs: Owner, owner: Owner) -> Result<(), StoreFault>
    ensures same { OnOk result (theirs ≡ owner) }
    ensures refused { IfErr result (λ fault. (fault ≡ OtherBook theirs) × (theirs ≢ owner)) }
{
    if theirs == owner {
        Ok(())
    } else {
        Err(StoreFault::OtherBook(theirs))
    }
}

/// Requires that the database says this owner.
fn check_owner<S: Alter>(connection: &mut Connection<S>, owner: Owner) -> Result<(), StoreFault>
    requires { IsClean S.Store connection.old → IsIdle (state S.Store connection.old) }
    ensures early { IsClean S.Store connection.new → IsClean S.Store connection.old }
    ensures mode { (state S.Store connection.old).in_transaction ≡ false → (state S.Store connection.new).in_transaction ≡ false }
    ensures owner { IsClean S.Store connection.new → OnOk result (IsTrue (state S.Store connection.new).is_open × IsOwned owner (state S.Store connection.new).now) }
    ensures refused { IsClean S.Store connection.new → IfErr result (IsOwnerFault owner (state S.Store connection.old)) }
    ensures named { IfErr result IsPreparingRefusal }
    ensures idle { IsClean S.Store connection.new → IsIdle (state S.Store connection.new) }
    ensures kept { IsClean S.Store connection.new → Keeps (state S.Store connection.old) (state S.Store connection.new) }
    ensures crash { IsClean S.Store connection.new → AddsNoOutcome (state S.Store connection.old) (state S.Store connection.new) }
    ensures failed { IsClean S.Store connection.new → IfErr result (IsCausedAtAll (state S.Store connection.old) (state S.Store connection.new)) }
{
    let theirs = read_owner(connection)?;
    require_owner(theirs, owner)
}

/// No other row may change with that of the version: none does where no foreign key is to its table,
/// and no other table has its tree, as in each database that SQLite makes.
fn require_alone(schema: &Schema) -> Result<(), StoreFault>
    ensures alone { OnOk result (StandsAlone schema.now) }
    ensures refused { IfErr result (λ fault. (fault ≡ Store) × ¬ (StandsAlone schema.now)) }
{
    if stands_alone(schema) {
        Ok(())
    } else {
        Err(StoreFault::Store)
    }
}

/// An older book is given its owner, and is of version 2.
fn adopt<S: Alter>(
    alloc: Global,
    connection: &mut Connection<S>,
    owner: Owner,
) -> Result<(), StoreFault>
    requires autocommit { (state S.Store connection.old).in_transaction ≡ false }
    requires idle { IsClean S.Store connection.old → IsIdle (state S.Store connection.old) }
    requires takes { TakesOwner (state S.Store connection.old).now.schema }
    requires book { IsClean S.Store connection.old → IsBook (state S.Store connection.old).now }
    ensures early { IsClean S.Store connection.new → IsClean S.Store connection.old }
    ensures mode { (state S.Store connection.new).in_transaction ≡ false }
    ensures ready { IsClean S.Store connection.new → OnOk result (IsReady owner (state S.Store connection.new)) }
    ensures failed { IfErr result IsFailure }
    ensures unmade { IsClean S.Store connection.new → OnErr result (Keeps (state S.Store connection.old) (state S.Store connection.new)) }
    ensures kept { IsClean S.Store connection.new → IsTrue (state S.Store connection.new).is_open → KeepsOrUpgrades owner (state S.Store connection.old) (state S.Store connection.new) }
    ensures crash { IsClean S.Store connection.new → LeavesOr (Upgrades owner) (state S.Store connection.old) (state S.Store connection.new) }
{
    require_alone(connection.schema())?;
    let name = owner.text(alloc)?;
    add_owner(connection, name.as_str())?;
    Ok(())
}

/// A book of version 1 becomes one of version 2.
fn raise_to_2<S: Alter>(
    connection: &mut Connection<S>,
    version: BookVersion,
) -> Result<(), StoreFault>
    requires autocommit { (state S.Store connection.old).in_transaction ≡ false }
    requires idle { IsClean S.Store connection.old → IsIdle (state S.Store connection.old) }
    requires book { IsClean S.Store connection.old → IsTrue (state S.Store connection.old).is_open × IsVersion (version_number version) (state S.Store connection.old).now }
    ensures early { IsClean S.Store connection.new → IsClean S.Store connection.old }
    ensures mode { (state S.Store connection.new).in_transaction ≡ false }
    ensures ready { IsClean S.Store connection.new → OnOk result (IsIdle (state S.Store connection.new) × IsTrue (state S.Store connection.new).is_open × IsVersion 2 (state S.Store connection.new).now) }
    ensures failed { IfErr result (λ fault. IsFailure fault × (version ≡ One)) }
    ensures unmade { IsClean S.Store connection.new → OnErr result (Keeps (state S.Store connection.old) (state S.Store connection.new)) }
    ensures kept { IsClean S.Store connection.new → IsTrue (state S.Store connection.new).is_open → KeepsOrRaises (state S.Store connection.old) (state S.Store connection.new) }
    ensures crash { IsClean S.Store connection.new → LeavesOr Raises (state S.Store connection.old) (state S.Store connection.new) }
{
    match version {
        BookVersion::One => {
            require_alone(connection.schema())?;
            raise_version(connection)?;
            Ok(())
        }
        BookVersion::Two => Ok(()),
    }
}

/// Of an older book the owner is written; of another one it has to be this. Then it is of version 2.
pub fn own<S: Alter>(
    alloc: Global,
    connection: &mut Connection<S>,
    owner: Owner,
    version: BookVersion,
) -> Result<(), StoreFault>
    requires autocommit { (state S.Store connection.old).in_transaction ≡ false }
    requires idle { IsClean S.Store connection.old → IsIdle (state S.Store connection.old) }
    requires book { IsClean S.Store connection.old → IsTrue (state S.Store connection.old).is_open × IsVersion (version_number version) (state S.Store connection.old).now }
    ensures early { IsClean S.Store connection.new → IsClean S.Store connection.old }
    ensures mode { (state S.Store connection.new).in_transaction ≡ false }
    ensures ready { IsClean S.Store connection.new → OnOk result (IsReady owner (state S.Store connection.new)) }
    ensures refused { IsClean S.Store connection.new → IfErr result (IsOwnerFault owner (state S.Store connection.old)) }
    ensures takes { TakesOwner (state S.Store connection.old).now.schema → IfErr result (λ fault. ¬ (fault ≡ Version)) }
    ensures named { IfErr result IsPreparingRefusal }
    ensures failed { IsClean S.Store connection.new → ¬ (TakesOwner (state S.Store connection.old).now.schema) → (version ≡ Two) ⊎ ¬ (IsOwned owner (state S.Store connection.old).now) → IfErr result (IsCausedAtAll (state S.Store connection.old) (state S.Store connection.new)) }
    ensures unmade { IsClean S.Store connection.new → OnErr result (Keeps (state S.Store connection.old) (state S.Store connection.new)) }
    ensures kept { IsClean S.Store connection.new → IsTrue (state S.Store connection.new).is_open → KeepsOrUpgrades owner (state S.Store connection.old) (state S.Store connection.new) }
    ensures crash { IsClean S.Store connection.new → LeavesOr (Upgrades owner) (state S.Store connection.old) (state S.Store connection.new) }
{
    if takes_owner(connection.schema()) {
        return adopt(alloc, connection, owner);
    }
    check_owner(connection, owner)?;
    raise_to_2(connection, version)
}
