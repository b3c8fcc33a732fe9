//! What all schemes share: bytes by class, cuts and pieces of texts, numbers of any size, sinks and what is written into
//! them, codes of bytes that compare as values do, and what a version of a scheme gives. No call allocates.
#![tactic(auto)]

mod byte_set;
mod bytes;
mod class;
mod compared;
mod digits;
mod ends;
mod facts;
mod laws;
mod numbers;
mod pieces;
mod scheme_version;
mod sink;
mod sinks;
mod stop;
mod texts;

pub use byte_set::{ByteSet, are_of, split_begun, split_set};
pub use bytes::{compare_bytes, first_eight};
pub use class::{
    COLON, Class, DOT, END, HYPHEN, PLUS, begins_with, is_sign, rank_at, run_end, run_length,
    split_byte, split_run,
};
pub use compared::Compared;
pub use digits::{
    compare_epochs, compare_if_numbers, compare_numbers, is_digits, one_digit, without_zeros,
};
pub use ends::{End, Kept};
pub use facts::{Facts, Operators};
pub use numbers::{put_length, put_long_number, put_number, put_run};
pub use pieces::{behind_first, piece_is_empty, place_of, split_piece, through_dot};
pub use scheme_version::{SchemeVersion, most_key_bytes, put_end};
pub use sink::{Sink, put_all};
pub use sinks::{Beside, Count, Room};
pub use stop::Stop;
pub use texts::{after_byte, common_length, cut_first, cut_last, is_epoch, run_start, split_epoch};
