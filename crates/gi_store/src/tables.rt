//! Whether a database has a book's tables, or can take them.

ghost use Rattle.std.specs.Prelude.{◌≡◌, ◌↔◌, [], ◌∷◌, true, false, Some, IsTrue, is_some, option_and_then, slice_get};
ghost use Rattle.std.specs.List.{list_any};
ghost use Rattle.gi_store.specs.Tables.{IsBare, IsFree, HasOwnerTable, HasTables, LacksOwner, StandsAlone, TakesOwner, book_tree, named_column, plain_table, refers_to_book, shares_tree, table_at, tree_of};
ghost use Rattle.sqlite.specs.Does.{lacks_sequence};
ghost use Rattle.sqlite_schema.specs.Names.{table_named};
ghost use Rattle.sqlite_schema.specs.declared.schema.Kind.TheVariants.{Integer};

use sqlite_catalog::layout::is_used;
use sqlite_schema::code::Terms;
use sqlite_schema::names::same_name;
use sqlite_schema::schema::{Column, Kind, Schema, Stamps, Table};
use sqlite_value::keys::Collation;
use sqlite_value::value::Value;

fn has_none(terms: &Terms) -> bool
    ensures { IsTrue result ↔ (terms.now ≡ []) }
{
    terms.roots.is_empty()
}

fn is_column(column: &Column, name: &[u8], kind: Kind, not_null: bool) -> bool
    ensures { IsTrue result ↔ (column.now ≡ named_column name.now kind not_null) }
{
    column.name.as_slice() == name
        && column.kind == kind
        && !column.is_strict
        && column.not_null == not_null
        && matches!(column.default, Value::Null)
        && column.collation == Collation::Binary
}

fn is_bare(table: &Table) -> bool
    ensures { IsTrue result ↔ IsBare table.now }
{
    table.uniques.is_empty()
        && table.orders.is_empty()
        && has_none(&table.checks)
        && table.references.is_empty()
        && table.computed.is_empty()
        && is_unstamped(&table.stamps)
        && !table.is_counted
}

/// Stamps are the defaults of columns that read the time.
fn is_unstamped(stamps: &Stamps) -> bool
    ensures { IsTrue result ↔ (stamps.now ≡ record { places = []; terms = []; formats = [] }) }
{
    stamps.places.is_empty() && has_none(&stamps.terms) && stamps.formats.is_empty()
}

fn is_keyed(table: &Table) -> bool
    ensures { IsTrue result ↔ (table.now.key ≡ Some 0) × (table.now.primary ≡ 0 ∷ []) }
{
    table.key == Some(0) && table.primary.as_slice() == [0].as_slice()
}

fn has_columns(table: &Table, key: &[u8], value: &[u8], kind: Kind) -> bool
    ensures { IsTrue result ↔ (table.now.columns ≡ named_column key.now Integer false ∷ named_column value.now kind true ∷ []) }
{
    match table.columns.as_slice() {
        [first, second] => is_column(first, key, Kind::Integer, false)
            && is_column(second, value, kind, true),
        _ => false,
    }
}

fn is_table(table: &Table, name: &[u8], key: &[u8], value: &[u8], kind: Kind) -> bool
    ensures { IsTrue result ↔ (table.now ≡ plain_table name.now table.now.tree (named_column key.now Integer false) (named_column value.now kind true)) }
{
    table.name.as_slice() == name
        && has_columns(table, key, value, kind)
        && is_keyed(table)
        && is_bare(table)
}

#[tactic(auto, unfolding(crate::specs::Tables::table_at, crate::specs::Tables::tree_of))]
fn lists_table(schema: &Schema, name: &[u8], key: &[u8], value: &[u8], kind: Kind) -> bool
    ensures { IsTrue result ↔ (table_at schema.now name.now ≡ Some (plain_table name.now (tree_of schema.now name.now) (named_column key.now Integer false) (named_column value.now kind true))) }
{
    let Some(at) = schema.table_named(name) else {
        return false;
    };
    match schema.tables.as_slice().get(at) {
        Some(table) => is_table(table, name, key, value, kind),
        None => false,
    }
}

pub fn is_book(schema: &Schema) -> bool
    ensures { IsTrue result ↔ HasTables schema.now }
{
    lists_table(schema, b"book", b"id", b"version", Kind::Integer)
        && lists_table(schema, b"facts", b"n", b"body", Kind::Text)
}

pub fn has_owner(schema: &Schema) -> bool
    ensures { IsTrue result ↔ HasOwnerTable schema.now }
{
    lists_table(schema, b"owner", b"id", b"name", Kind::Text)
}

fn any_counted(tables: &[Table]) -> bool
    ensures { result ≡ list_any (λ t. t.is_counted) tables.now }
{
    tables.iter().any(|t| t.is_counted)
}

/// A table is counted where it has AUTOINCREMENT, and SQLite counts in `sqlite_sequence`.
fn lacks_sequence(schema: &Schema) -> bool
    ensures { result ≡ lacks_sequence schema.now }
{
    any_counted(schema.tables.as_slice()) && !lists(schema, b"sqlite_sequence")
}

fn lists(schema: &Schema, name: &[u8]) -> bool
    ensures { result ≡ is_some (option_and_then (slice_get schema.now.tables) (table_named schema.now name.now)) }
{
    match schema.table_named(name) {
        Some(at) => schema.tables.as_slice().get(at).is_some(),
        None => false,
    }
}

fn refers_to_book(table: &Table) -> bool
    ensures { result ≡ refers_to_book table.now }
{
    table
        .references
        .as_slice()
        .iter()
        .any(|key| same_name(b"book", key.parent.as_slice()))
}

fn any_refers(tables: &[Table]) -> bool
    ensures { result ≡ list_any refers_to_book tables.now }
{
    tables.iter().any(refers_to_book)
}

fn shares_tree(table: &Table, tree: u32) -> bool
    ensures { result ≡ shares_tree tree table.now }
{
    table.tree == tree && table.name.as_slice() != b"book".as_slice()
}

fn any_shares(tables: &[Table], tree: u32) -> bool
    ensures { result ≡ list_any (shares_tree tree) tables.now }
{
    tables.iter().any(|table| shares_tree(table, tree))
}

#[tactic(auto, unfolding(crate::specs::Tables::table_at, crate::specs::Tables::tree_of))]
fn book_tree(schema: &Schema) -> u32
    ensures { result ≡ book_tree schema.now }
{
    let Some(at) = schema.table_named(b"book") else {
        return 0;
    };
    match schema.tables.as_slice().get(at) {
        Some(table) => table.tree,
        None => 0,
    }
}

pub fn stands_alone(schema: &Schema) -> bool
    ensures { IsTrue result ↔ StandsAlone schema.now }
{
    let tables = schema.tables.as_slice();
    !any_refers(tables) && !any_shares(tables, book_tree(schema))
}

pub fn lacks_owner(schema: &Schema) -> bool
    ensures { IsTrue result ↔ LacksOwner schema.now }
{
    !is_used(schema, b"owner")
}

pub fn takes_owner(schema: &Schema) -> bool
    ensures { IsTrue result ↔ TakesOwner schema.now }
{
    lacks_owner(schema) && !lacks_sequence(schema)
}

pub fn is_free(schema: &Schema) -> bool
    ensures { IsTrue result ↔ IsFree schema.now }
{
    !is_used(schema, b"book") && !is_used(schema, b"facts") && takes_owner(schema)
}
