//! The definitions of the kernel: its state as plain lists, what each service does to it, and the
//! micro-steps of a service. They stand in `specs/` and are cited by the contracts of the crates above;
//! `proofs/` has the laws that these crates share.
#![tactic(auto)]
