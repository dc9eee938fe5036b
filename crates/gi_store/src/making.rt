//! Making a book's tables.

ghost use Rattle.std.specs.Prelude.{◌≡◌, false, IsTrue, OnOk, OnErr};
ghost use Rattle.gi_store.specs.Clean.{IsClean};
ghost use Rattle.sqlite.specs.Held.{state};
ghost use Rattle.sqlite.specs.State.{KeepsCommit, Survives};
ghost use Rattle.gi_store.specs.Keeping.{AddsName, IsBook, IsMade, IsVersion, KeepsCommitted, LeavesOr, MakesNamed, MakesThird, MakesTwo, Raises, SetsVersion};
ghost use Rattle.gi_store.specs.Tables.{IsFree, StandsAlone, TakesOwner};

use sqlite::types::ToSql;
use sqlite::{Alter, Connection, Error, Transaction};

/// Writes the two tables that every book has, and the row of the version.
fn write_book<S: Alter>(tx: &mut Transaction<'_, S>) -> Result<usize, Error>
    requires inside { IsTrue (state S.Store tx.old.conn.now).in_transaction }
    requires free { IsFree (state S.Store tx.old.conn.now).now.schema }
    ensures same_reference { tx.new.conn.ghost_name ≡ tx.old.conn.ghost_name }
    ensures made { IsClean S.Store tx.new.conn.now → OnOk result (IsTrue (state S.Store tx.new.conn.now).in_transaction × MakesTwo (state S.Store tx.old.conn.now).now (state S.Store tx.new.conn.now).now) }
    ensures kept { IsClean S.Store tx.new.conn.now → KeepsCommit (state S.Store tx.old.conn.now) (state S.Store tx.new.conn.now) }
    ensures survives { Survives (state S.Store tx.old.conn.now) (state S.Store tx.new.conn.now) (λ _. ⊥) }
{
    tx.execute(
        "CREATE TABLE book (id INTEGER PRIMARY KEY, version INTEGER NOT NULL)",
        &[],
    )?;
    tx.execute(
        "CREATE TABLE facts (n INTEGER PRIMARY KEY, body TEXT NOT NULL)",
        &[],
    )?;
    tx.execute("INSERT INTO book (id, version) VALUES (1, 2)", &[])
}

/// Writes the table of the owner, and the row of its name.
fn write_owner<S: Alter>(tx: &mut Transaction<'_, S>, name: &str) -> Result<usize, Error>
    requires takes { IsClean S.Store tx.old.conn.now → IsTrue (state S.Store tx.old.conn.now).in_transaction × TakesOwner (state S.Store tx.old.conn.now).now.schema }
    ensures same_reference { tx.new.conn.ghost_name ≡ tx.old.conn.ghost_name }
    ensures made { IsClean S.Store tx.new.conn.now → OnOk result (IsTrue (state S.Store tx.new.conn.now).in_transaction × MakesThird name.now (state S.Store tx.old.conn.now).now (state S.Store tx.new.conn.now).now) }
    ensures kept { IsClean S.Store tx.new.conn.now → KeepsCommit (state S.Store tx.old.conn.now) (state S.Store tx.new.conn.now) }
    ensures survives { Survives (state S.Store tx.old.conn.now) (state S.Store tx.new.conn.now) (λ _. ⊥) }
{
    let number = 1u32.to_sql();
    let text = name.to_sql();
    tx.execute(
        "CREATE TABLE owner (id INTEGER PRIMARY KEY, name TEXT NOT NULL)",
        &[],
    )?;
    tx.execute(
        "INSERT INTO owner (id, name) VALUES (?1, ?2)",
        &[number, text],
    )
}

/// The row of the version tells 2 from now on.
fn set_version<S: Alter>(tx: &mut Transaction<'_, S>) -> Result<usize, Error>
    requires inside { IsTrue (state S.Store tx.old.conn.now).in_transaction }
    requires alone { StandsAlone (state S.Store tx.old.conn.now).now.schema }
    requires book { IsClean S.Store tx.old.conn.now → IsBook (state S.Store tx.old.conn.now).now }
    ensures same_reference { tx.new.conn.ghost_name ≡ tx.old.conn.ghost_name }
    ensures set { IsClean S.Store tx.new.conn.now → OnOk result (IsTrue (state S.Store tx.new.conn.now).in_transaction × SetsVersion (state S.Store tx.old.conn.now).now (state S.Store tx.new.conn.now).now) }
    ensures kept { IsClean S.Store tx.new.conn.now → KeepsCommit (state S.Store tx.old.conn.now) (state S.Store tx.new.conn.now) }
    ensures survives { Survives (state S.Store tx.old.conn.now) (state S.Store tx.new.conn.now) (λ _. ⊥) }
{
    tx.execute("UPDATE book SET version = 2", &[])
}

/// Of an older book: the row of the version, and the owner.
fn write_older<S: Alter>(tx: &mut Transaction<'_, S>, name: &str) -> Result<usize, Error>
    requires inside { IsTrue (state S.Store tx.old.conn.now).in_transaction }
    requires alone { StandsAlone (state S.Store tx.old.conn.now).now.schema }
    requires takes { TakesOwner (state S.Store tx.old.conn.now).now.schema }
    requires book { IsClean S.Store tx.old.conn.now → IsBook (state S.Store tx.old.conn.now).now }
    ensures same_reference { tx.new.conn.ghost_name ≡ tx.old.conn.ghost_name }
    ensures made { IsClean S.Store tx.new.conn.now → OnOk result (IsTrue (state S.Store tx.new.conn.now).in_transaction × AddsName name.now (state S.Store tx.old.conn.now).now (state S.Store tx.new.conn.now).now) }
    ensures kept { IsClean S.Store tx.new.conn.now → KeepsCommit (state S.Store tx.old.conn.now) (state S.Store tx.new.conn.now) }
    ensures survives { Survives (state S.Store tx.old.conn.now) (state S.Store tx.new.conn.now) (λ _. ⊥) }
{
    set_version(tx)?;
    write_owner(tx, name)
}

/// Writes the three tables, and both rows.
fn write_all<S: Alter>(tx: &mut Transaction<'_, S>, name: &str) -> Result<usize, Error>
    requires inside { IsTrue (state S.Store tx.old.conn.now).in_transaction }
    requires free { IsFree (state S.Store tx.old.conn.now).now.schema }
    ensures same_reference { tx.new.conn.ghost_name ≡ tx.old.conn.ghost_name }
    ensures made { IsClean S.Store tx.new.conn.now → OnOk result (IsTrue (state S.Store tx.new.conn.now).in_transaction × MakesNamed name.now (state S.Store tx.old.conn.now).now (state S.Store tx.new.conn.now).now) }
    ensures kept { IsClean S.Store tx.new.conn.now → KeepsCommit (state S.Store tx.old.conn.now) (state S.Store tx.new.conn.now) }
    ensures survives { Survives (state S.Store tx.old.conn.now) (state S.Store tx.new.conn.now) (λ _. ⊥) }
{
    write_book(tx)?;
    write_owner(tx, name)
}

/// In one transaction, so that no crash leaves one table without the others, or all without the rows.
pub fn make_tables<S: Alter>(connection: &mut Connection<S>, name: &str) -> Result<(), Error>
    requires autocommit { (state S.Store connection.old).in_transaction ≡ false }
    requires free { IsFree (state S.Store connection.old).now.schema }
    ensures early { IsClean S.Store connection.new → IsClean S.Store connection.old }
    ensures ended { (state S.Store connection.new).in_transaction ≡ false }
    ensures made { IsClean S.Store connection.new → OnOk result (IsMade (MakesNamed name.now) (state S.Store connection.old) (state S.Store connection.new)) }
    ensures kept { IsClean S.Store connection.new → OnErr result (KeepsCommitted (state S.Store connection.old) (state S.Store connection.new)) }
    ensures crash { IsClean S.Store connection.new → LeavesOr (MakesNamed name.now) (state S.Store connection.old) (state S.Store connection.new) }
{
    let mut tx = connection.transaction();
    write_all(&mut tx, name)?;
    tx.commit()
}

/// In one transaction, so that no crash leaves the table without its row, or with another version.
pub fn add_owner<S: Alter>(connection: &mut Connection<S>, name: &str) -> Result<(), Error>
    requires autocommit { (state S.Store connection.old).in_transaction ≡ false }
    requires alone { StandsAlone (state S.Store connection.old).now.schema }
    requires takes { TakesOwner (state S.Store connection.old).now.schema }
    requires book { IsClean S.Store connection.old → IsBook (state S.Store connection.old).now }
    ensures early { IsClean S.Store connection.new → IsClean S.Store connection.old }
    ensures ended { (state S.Store connection.new).in_transaction ≡ false }
    ensures made { IsClean S.Store connection.new → OnOk result (IsMade (AddsName name.now) (state S.Store connection.old) (state S.Store connection.new)) }
    ensures kept { IsClean S.Store connection.new → OnErr result (KeepsCommitted (state S.Store connection.old) (state S.Store connection.new)) }
    ensures crash { IsClean S.Store connection.new → LeavesOr (AddsName name.now) (state S.Store connection.old) (state S.Store connection.new) }
{
    let mut tx = connection.transaction();
    write_older(&mut tx, name)?;
    tx.commit()
}

/// A book of version 1 is of version 2 from now on.
pub fn raise_version<S: Alter>(connection: &mut Connection<S>) -> Result<(), Error>
    requires autocommit { (state S.Store connection.old).in_transaction ≡ false }
    requires alone { StandsAlone (state S.Store connection.old).now.schema }
    requires first { IsClean S.Store connection.old → IsVersion 1 (state S.Store connection.old).now }
    ensures early { IsClean S.Store connection.new → IsClean S.Store connection.old }
    ensures ended { (state S.Store connection.new).in_transaction ≡ false }
    ensures made { IsClean S.Store connection.new → OnOk result (IsMade Raises (state S.Store connection.old) (state S.Store connection.new)) }
    ensures kept { IsClean S.Store connection.new → OnErr result (KeepsCommitted (state S.Store connection.old) (state S.Store connection.new)) }
    ensures crash { IsClean S.Store connection.new → LeavesOr Raises (state S.Store connection.old) (state S.Store connection.new) }
{
    let mut tx = connection.transaction();
    set_version(&mut tx)?;
    tx.commit()
}
