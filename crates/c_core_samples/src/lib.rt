//! Samples of the C text and its machine: the texts of whole modules, what they are, and how they run, computed by the definitions of
//! `c_core` (`proofs/Modules.antt`). There is no code to run, and nothing stands on it.
#![tactic(auto)]
