// The rows that answer the calls on a run.
ghost use Rattle.std.specs.Prelude.{◌≡◌, ◌≤◌, length, codes};
ghost use Rattle.text.specs.Written.{written};
ghost use Rattle.run.specs.Answers.{tick_of};
ghost use Rattle.run.specs.Machine.{task_report, server_report};
ghost use Rattle.run.specs.Reports.{report};
ghost use Rattle.replay.specs.Rows.{row, tick_row, completion_row, report_row, number_row};

use run::answers::Ticked;
use run::items::Completion;
use run::report::LineReport;
use text::Text;

// Rows are pushed and not written by `write!`: of a text that is cut off it promises nothing.
pub(crate) fn tick_row(ticked: &Ticked) -> Text
    ensures { written result ≡ tick_row (tick_of ticked.now) }
{
    let Ticked {
        number,
        line,
        ready,
    } = *ticked;
    let mut text = Text::new();
    text.push_labelled(b"tick ", number);
    text.push_labelled(b" line ", line);
    text.push_all(b" ready ");
    text.push_hex(ready, 8);
    text.push(b'\n');
    text
}

pub(crate) fn completion_row(completion: &Completion) -> Text
    ensures { written result ≡ completion_row completion.now }
{
    let Completion {
        line,
        number,
        ticks,
        early,
    } = *completion;
    let mut text = Text::new();
    text.push_labelled(b"completion ", line);
    text.push_labelled(b" ", number);
    text.push_labelled(b" ", ticks);
    text.push_labelled(b" ", u8::from(early));
    text.push(b'\n');
    text
}

pub(crate) fn none_row() -> Text
    ensures { written result ≡ row (codes "none") }
{
    let mut text = Text::new();
    text.push_all(b"none\n");
    text
}

fn task_row(unfinished: u64, next: u64) -> Text
    ensures { written result ≡ report_row (task_report unfinished next) }
{
    let mut text = Text::new();
    text.push_labelled(b"work ", unfinished);
    text.push_labelled(b" next ", next);
    text.push(b'\n');
    text
}

fn server_row(held: u32, waits: u32, needs: u64) -> Text
    ensures { written result ≡ report_row (server_report held waits needs) }
{
    let mut text = Text::new();
    text.push_labelled(b"holds ", held);
    text.push_labelled(b" waits ", waits);
    text.push_labelled(b" needs ", needs);
    text.push(b'\n');
    text
}

pub(crate) fn report_row(line: &LineReport) -> Text
    ensures { written result ≡ report_row (report line.now) }
{
    match line {
        LineReport::Task { unfinished, next } => task_row(*unfinished, *next),
        LineReport::Server { held, waits, needs } => server_row(*held, *waits, *needs),
    }
}

// A short word and a number.
pub(crate) fn number_row(word: &[u8], n: u32) -> Text
    requires { length word.now ≤ 200 }
    ensures { written result ≡ number_row word.now n }
{
    let mut text = Text::new();
    text.push_labelled(word, n);
    text.push(b'\n');
    text
}
