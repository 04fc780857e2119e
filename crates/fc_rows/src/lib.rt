//! Worked replies, requests, queries, messages and scripts, as theorems about the definitions by computation.
//!
//! Each row stands in a file of `proofs/`, in the folders of the definitions. There is no code.
#![tactic(auto)]
