//! How a value is a word, and where each area of the table lies.
#![tactic(auto)]

mod field_word;
mod layout;
mod limits;
mod operand;

pub use field_word::{FieldWord, pack, same_value, unpack};
pub use layout::{Layout, LayoutFault};
pub use limits::{
    ADDRESS_LIMIT, BIRTH_LIMIT, BIRTHS_BETWEEN_PASSES, BIRTHS_OF_PASS, COMMON_BIRTH, COMMON_LEN,
    MOST_FIELDS, MOST_PASSES, MOST_POOL, MOST_QUOTA, MOST_REGIONS, MOST_WIDE, NUMBER_LIMIT,
    REGION_WORDS, REGISTERS,
};
pub use operand::Operand;
