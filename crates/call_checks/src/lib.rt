//! The checks of a call that come before the kernel looks at its state: whether the service may be called at this moment, and its option, its object or task, and its table.
#![tactic(auto)]

mod existence;
mod refusals;
mod rules;

pub use existence::{existence_refusal, named_task};
pub use refusals::{Moment, argument_refusal, call_refusal, moment_refusal, table_refusal};
pub use rules::{Options, Target, interrupt_error, is_post, options_of, target_of};

#[cfg(test)]
mod tests;
