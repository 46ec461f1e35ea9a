//! Tests of the top call: what its clauses leave open, with values from outside.
#![tactic(auto)]

#[cfg(test)]
mod of_pgo_run;
