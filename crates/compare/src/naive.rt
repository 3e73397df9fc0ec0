// The second implementation: written from docs/RULES.md, docs/FORMATS.md and docs/REFUSALS.md in the plainest way.
pub(crate) mod bytes;
pub(crate) mod lines;
pub(crate) mod list;
mod pieces;
pub(crate) mod plain_run;
pub(crate) mod refusal;
pub(crate) mod response;
mod row;
mod server_row;
mod task_row;
mod tick;
