// The calls on a run, each answered by a row.
ghost use Rattle.std.specs.Prelude.{◌≡◌, codes};
ghost use Rattle.text.specs.Written.{written};
ghost use Rattle.run.specs.Answers.{refusal_number};
ghost use Rattle.run.specs.Machine.{ticked, offered, finished, fetched, asked};
ghost use Rattle.run.specs.Sessions.{played};
ghost use Rattle.replay.specs.Rows.{tick_row, report_row, number_row, reply_row, fetch_row};

use crate::rows::{completion_row, none_row, number_row, report_row, tick_row};
use run::refusal::RunRefusal;
use run::session::Session;
use server::kind::Server;
use text::Text;

fn refused(refusal: RunRefusal) -> Text
    ensures { written result ≡ number_row (codes "refused ") (refusal_number refusal) }
{
    number_row(b"refused ", refusal.number())
}

pub(crate) fn tick<S: Server + Copy>(session: &mut Session<'_, S>) -> Text
    ensures shown { written result ≡ reply_row tick_row (ticked (played S.Server session.old)).0 }
    ensures after { played S.Server session.new ≡ (ticked (played S.Server session.old)).1 }
{
    match session.tick() {
        Ok(ticked) => tick_row(&ticked),
        Err(refusal) => refused(refusal),
    }
}

pub(crate) fn offer<S: Server + Copy>(session: &mut Session<'_, S>, line: u32, amount: u32) -> Text
    ensures shown { written result ≡ reply_row (number_row (codes "offer ")) (offered line amount (played S.Server session.old)).0 }
    ensures after { played S.Server session.new ≡ (offered line amount (played S.Server session.old)).1 }
{
    match session.offer(line, amount) {
        Ok(number) => number_row(b"offer ", number),
        Err(refusal) => refused(refusal),
    }
}

pub(crate) fn finish<S: Server + Copy>(session: &mut Session<'_, S>, line: u32) -> Text
    ensures shown { written result ≡ reply_row (λ _. number_row (codes "finish ") line) (finished line (played S.Server session.old)).0 }
    ensures after { played S.Server session.new ≡ (finished line (played S.Server session.old)).1 }
{
    match session.finish(line) {
        Ok(()) => number_row(b"finish ", line),
        Err(refusal) => refused(refusal),
    }
}

pub(crate) fn fetch<S: Server + Copy>(session: &mut Session<'_, S>) -> Text
    ensures shown { written result ≡ fetch_row (fetched (played S.Server session.old)).0 }
    ensures after { played S.Server session.new ≡ (fetched (played S.Server session.old)).1 }
{
    match session.fetch() {
        Some(completion) => completion_row(&completion),
        None => none_row(),
    }
}

pub(crate) fn ask<S: Server + Copy>(session: &Session<'_, S>, line: u32) -> Text
    ensures { written result ≡ reply_row report_row (asked line (played S.Server session.now)) }
{
    match session.ask(line) {
        Ok(report) => report_row(&report),
        Err(refusal) => refused(refusal),
    }
}
