//! The generated case of one function, computed by the definitions from its bytes to what is
//! written of it.
//!
//! Examples alone, in `proofs/`: each joins all models, where those of a model stop at its own
//! door. `LawExamples` has values of which laws speak.
#![tactic(auto)]
