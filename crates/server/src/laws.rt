// The laws of a kind, to be cited.
ghost use Rattle.server.specs.Laws.{Lawful, Alive, Anywhere};
ghost use Rattle.server.specs.SporadicKind.{sporadic};

use crate::kind::Server;

// Says of a kind what every implementation has shown: its laws for every history. So no kind that never holds anything is one.
pub fn laws<S: Server>()
    ensures lawful { Lawful S.Server.kind }
    ensures alive { Alive S.Server.kind }
{}

// A sporadic server keeps to its ceiling in any window, wherever it begins.
pub fn sporadic_windows()
    ensures { Anywhere sporadic }
{}
