//! Quantities, codes, pairs of portfolios and tables of quantities by pair, direction and hour.
#![tactic(auto)]

mod code;
mod cycle_id;
mod direction;
mod hours;
mod join_fault;
mod key;
mod pair;
mod quantity;
mod row;
mod rows;
mod side;
mod table;

pub use code::{Code, CodeText};
pub use cycle_id::{CycleId, by_day_then_number};
pub use direction::{Direction, DirectionText};
pub use hours::Hours;
pub use join_fault::JoinFault;
pub use key::Key;
pub use pair::Pair;
pub use quantity::{Quantity, QuantityRange};
pub use row::Row;
pub use side::{Side, SideText};
pub use table::{LAST_HOUR, MOST_PROCESSED_ROWS, MOST_ROWS, Table, TableFault};
