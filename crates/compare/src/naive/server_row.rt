// What a run keeps of a server: what it holds, and the pieces of a sporadic one.
use crate::kind::Kind;
use crate::naive::lines::PlainServer;
use crate::naive::pieces::Pieces;

#[derive(Drop)]
pub(crate) struct ServerRow {
    server: PlainServer,
    pub(crate) held: u64,
    pub(crate) pieces: Pieces,
}

impl ServerRow {
    // The server in a run that has just been started.
    pub(crate) fn new(server: PlainServer) -> ServerRow {
        ServerRow {
            server,
            held: match server.kind {
                Kind::Polling => 0,
                Kind::Deferrable | Kind::Sporadic => server.budget,
            },
            pieces: Pieces::default(),
        }
    }

    // The start of a tick.
    pub(crate) fn start(&mut self, tick: u64, wanted: bool) {
        let PlainServer {
            kind,
            budget,
            period,
        } = self.server;
        let turn = tick.checked_rem(period) == Some(0);
        match kind {
            Kind::Polling if !wanted => self.held = 0,
            Kind::Polling | Kind::Deferrable => if turn {
                self.held = budget;
            },
            Kind::Sporadic => {
                let more = self.pieces.replenish(tick, period).unwrap_or(0);
                self.held = self.held.saturating_add(more);
            }
        }
    }

    // The end of a tick.
    pub(crate) fn end(&mut self, tick: u64, ran: bool) {
        if ran {
            self.held = self.held.saturating_sub(1);
        }
        if self.server.kind == Kind::Sporadic {
            if ran {
                self.pieces.serve(tick, self.held, self.server.period);
            } else {
                self.pieces.close(self.server.period);
            }
        }
    }
}
