//! What one database answers to a statement, and whether the replies of a record are such answers. The sorts and values of
//! expressions, which `sk_eval` has, are offered here too.
#![tactic(auto)]

mod answers;
mod changes;
mod concerned;
mod database;
mod judged;
mod keys;
mod laws;
mod names;
mod reads;
mod refusals;
mod rooms;
mod sameness;
mod shapes;
mod sorts;
mod states;
mod told;

pub use answers::comes_to;
pub use concerned::concerns;
pub use keys::{key_read, target_table};
pub use laws::only_rows_that_concern_count;
pub use refusals::refusal;
pub use sk_eval::{holds, type_check, typed_has_value, value};
pub use sk_rows::{TypeFault, ValueFault};
pub use told::explain;

#[cfg(test)]
mod tests;
