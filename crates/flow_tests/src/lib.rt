//! Tests of weights, of the solver and of the checker: values from outside.
#![tactic(auto)]

#[cfg(test)]
mod of_block_weights;
#[cfg(test)]
mod of_dual_check;
#[cfg(test)]
mod of_flow_scaling;
#[cfg(test)]
mod of_flow_solver;
