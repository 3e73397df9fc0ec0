// Which lines of a run are ready.
ghost use Rattle.std.specs.Prelude.{◌≡◌, ◌^◌, ◌<◌, List, if◌then◌else◌};
ghost use Rattle.run.specs.declared.items.Request.{Request};
ghost use Rattle.run.specs.Requests.{Marks};
ghost use Rattle.run.specs.Rows.{first_ready, ready_bits};
ghost use Rattle.run.specs.Views.{views};

use crate::rows::Rows;
use server::kind::Server;

// The bit of the line at place i, if it is on.
fn bit(on: bool, i: usize) -> u32
    requires { i < 20 }
    ensures { result ≡ (if on then 2 ^ i else 0) }
{
    u32::from(on) << i
}

impl<S: Server> Rows<S> {
    // The first line that is ready, 0 where none is.
    pub(crate) fn first_ready(&self, wants: &[bool; 20]) -> u32
        ensures { (ws : List Request) → Marks ws wants.now → result ≡ first_ready ws 1 (views S.Server self.now) }
    {
        // A rule of the project: a loop over the lines that `break` leaves with the number, and no `position`.
        'found: {
            for (i, row) in self.all[..self.count].iter().enumerate() {
                if row.is_ready(wants[i]) {
                    break 'found i as u32 + 1;
                }
            }
            0
        }
    }

    // The ready lines as bits, the lowest for line 1.
    pub(crate) fn ready_bits(&self, wants: &[bool; 20]) -> u32
        ensures { (ws : List Request) → Marks ws wants.now → result ≡ ready_bits ws 1 (views S.Server self.now) }
    {
        // `wants` by place, and no `zip`: its invariant would speak of the inside of both iterators.
        let mut bits = 0;
        for (i, row) in self.all[..self.count].iter().enumerate() {
            bits += bit(row.is_ready(wants[i]), i);
        }
        bits
    }
}
