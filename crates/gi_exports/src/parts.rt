//! The parts of JSON lines, for lines that are made of the same parts.

pub use crate::objects::{
    ended, object_begun, object_ended, put_number_or_null, put_portfolio, put_whole, put_word,
};
