// What a tick does to one line.
ghost use Rattle.std.specs.Prelude.{◌≡◌, ◌+◌, ◌-◌, if◌then◌else◌, nat_eq};
ghost use Rattle.plan.specs.Records.{Fit};
ghost use Rattle.run.specs.Rows.{fresh, opened_by, ready_by, shut_by};
ghost use Rattle.run.specs.Views.{view};

use crate::line::{RunLine, TaskLine};
use plan::line::Line;
use server::kind::Server;
use server::terms::ServerTerms;

impl TaskLine {
    // A job that arrives now adds its work.
    fn arrive(&mut self, time: u32)
        ensures task { self.new.task ≡ self.old.task }
        ensures unfinished { self.new.unfinished ≡ (if nat_eq self.old.next time then self.old.unfinished + self.old.task.work else self.old.unfinished) }
        ensures next { self.new.next ≡ (if nat_eq self.old.next time then self.old.next + self.old.task.period else self.old.next) }
    {
        if self.next == time as u64 {
            self.unfinished += self.task.work as u64;
            self.next += self.task.period as u64;
        }
    }

    // A tick of work, if it ran.
    fn work(&mut self, ran: bool)
        ensures task { self.new.task ≡ self.old.task }
        ensures unfinished { self.new.unfinished ≡ (if ran then self.old.unfinished - 1 else self.old.unfinished) }
        ensures next { self.new.next ≡ self.old.next }
    {
        if ran {
            self.unfinished = self.unfinished.saturating_sub(1);
        }
    }
}

impl<S: Server> RunLine<S> {
    // A line at time 0.
    pub(crate) fn fresh(line: &Line) -> Self
        requires { Fit line.now }
        ensures { view S.Server result ≡ fresh line.now }
    {
        match line {
            Line::Task(task) => RunLine::Task(TaskLine {
                task: *task,
                unfinished: 0,
                next: task.first as u64,
            }),
            Line::Server(server) => {
                RunLine::Server(S::make(ServerTerms::try_from(*server).unwrap()))
            }
        }
    }

    // The start of a tick: a job that arrives now adds its work, and a server is told the start.
    pub(crate) fn open(&mut self, time: u32, wants: bool)
        ensures { view S.Server self.new ≡ opened_by time wants (view S.Server self.old) }
    {
        match self {
            RunLine::Task(line) => line.arrive(time),
            RunLine::Server(server) => server.begin(time, wants),
        }
    }

    pub(crate) fn is_ready(&self, wants: bool) -> bool
        ensures { result ≡ ready_by wants (view S.Server self.now) }
    {
        match self {
            RunLine::Task(line) => line.unfinished >= 1,
            RunLine::Server(server) => wants && server.held() >= 1,
        }
    }

    // The end of a tick: a chosen job has 1 less to do, and a server is told whether it ran.
    pub(crate) fn shut(&mut self, ran: bool)
        ensures { view S.Server self.new ≡ shut_by ran (view S.Server self.old) }
    {
        match self {
            RunLine::Task(line) => line.work(ran),
            RunLine::Server(server) => server.end(ran),
        }
    }
}
