// What a run keeps of a line.
use crate::naive::lines::PlainLine;
use crate::naive::server_row::ServerRow;
use crate::naive::task_row::TaskRow;

#[derive(Drop)]
pub(crate) enum Row {
    Task(TaskRow),
    Server(ServerRow),
}

// What stands in a table where no line is.
impl Default for Row {
    fn default() -> Row {
        Row::Task(TaskRow::default())
    }
}

impl Row {
    // The line in a run that has just been started.
    pub(crate) fn new(line: &PlainLine) -> Row {
        match line {
            PlainLine::Task(task) => Row::Task(TaskRow::new(*task)),
            PlainLine::Server(server) => Row::Server(ServerRow::new(*server)),
        }
    }

    // An arrival, or the start of a tick to a server. Answers whether the line is ready.
    pub(crate) fn begin(&mut self, tick: u64, wanted: bool) -> bool {
        match self {
            Row::Task(task) => {
                task.arrive(tick);
                task.unfinished > 0
            }
            Row::Server(server) => {
                server.start(tick, wanted);
                wanted && server.held > 0
            }
        }
    }

    // The end of a tick, to a server.
    pub(crate) fn end(&mut self, tick: u64, ran: bool) {
        match self {
            Row::Task(_) => {}
            Row::Server(server) => server.end(tick, ran),
        }
    }

    // How often a slice was added to the latest of 16 pending entries.
    pub(crate) fn merged(&self) -> u64 {
        match self {
            Row::Task(_) => 0,
            Row::Server(server) => server.pieces.merged,
        }
    }
}
