// The library, with its answers as plain values.
mod answers;
pub(crate) mod any_run;
pub(crate) mod whole_plan;
