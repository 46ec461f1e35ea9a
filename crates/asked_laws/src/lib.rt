//! What follows from which addresses a command asks a program for: that what is written of samples,
//! blocks and profiles hangs on the places of no others.
// Why: The functions that are not asked for have no places, which is another program
// (`program_asked`). It answers samples and blocks alike, so no definition of what is written
// speaks of maps.
#![tactic(auto)]

mod laws;

pub use laws::{
    builds_ask_no_more, cold_lines_ask_no_more, lifts_ask_no_more, profiles_ask_no_more,
    summaries_ask_no_more,
};
