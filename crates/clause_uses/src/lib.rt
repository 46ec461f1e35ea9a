//! Calls that need clauses of public calls, in words of their own: if such a clause says less, one
//! of these calls is not proved. No other call rests on these clauses.
#![tactic(auto)]

mod apart;
mod branches;
mod run_answers;
mod run_faults;
mod run_one_file;
mod run_output;
mod solutions;
mod stated;
mod sums;
mod tree;
mod verdicts;

pub use apart::shared_places_are_bad;
pub use branches::{count_branch, counts_a_first_branch};
pub use run_answers::{
    a_bad_place_is_reported, a_failed_check_is_reported, a_missing_file_is_reported,
    bad_arguments_give_usage,
};
pub use run_faults::{
    a_failed_call_is_reported, a_read_fault_has_a_cause, a_write_fault_has_a_cause,
    files_are_opened_in_order,
};
pub use run_one_file::one_file_is_counted;
pub use run_output::{
    a_cut_off_output_is_a_first_part, a_done_output_is_complete, a_touched_output_is_reported,
    files_stay, good_files_are_done,
};
pub use solutions::{accepts_each_solution, accepts_what_build_writes};
pub use stated::{stated_count, text_of_stated};
pub use sums::a_refused_sum_stays;
pub use tree::count_of;
pub use verdicts::{accepted_prices_fit, accepts_a_cut, accepts_fitting_prices, is_a_cut};
