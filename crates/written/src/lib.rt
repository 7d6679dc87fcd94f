// The law of plan files: what the reader accepts is exactly what can be written. Each function's contract is the law.
#![tactic(auto)]

mod laws;

pub use laws::{opening_is_exact, written_form_tells};
