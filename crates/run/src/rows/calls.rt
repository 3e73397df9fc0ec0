// What a run does with its lines.
ghost use Rattle.std.specs.Prelude.{◌≡◌, ◌-◌, ◌≤◌, List, map, length, slice_set};
ghost use Rattle.std.specs.Option.{option_map};
ghost use Rattle.std.specs.List.{All};
ghost use Rattle.plan.specs.Records.{Fit};
ghost use Rattle.run.specs.Machine.{row_of};
ghost use Rattle.run.specs.declared.items.Request.{Request};
ghost use Rattle.run.specs.Requests.{Marks};
ghost use Rattle.run.specs.Rows.{fresh, lined, opened, shut};
ghost use Rattle.run.specs.Views.{view, views};

use crate::line::RunLine;
use crate::rows::Rows;
use plan::line::Line;
use server::kind::Server;

impl<S: Server + Copy> Rows<S> {
    // The lines of a plan at time 0.
    pub(crate) fn new(lines: &[Line]) -> Rows<S>
        requires few { length lines.now ≤ 20 }
        requires fit { All Fit lines.now }
        ensures { views S.Server result ≡ map fresh lines.now }
    {
        let mut all = [RunLine::default(); 20];
        // By place, and no `zip`: its invariant would speak of the inside of both iterators.
        for (i, line) in lines.iter().enumerate() {
            all[i] = RunLine::fresh(line);
        }
        Rows {
            all,
            count: lines.len(),
        }
    }

    // The line of this number; none for 0 and past the last line.
    pub(crate) fn get(&self, line: u32) -> Option<RunLine<S>>
        ensures { option_map (view S.Server) result ≡ row_of (views S.Server self.now) line }
    {
        let place = (line as usize).checked_sub(1)?;
        self.all[..self.count].get(place).copied()
    }

    // Puts a row in the place of the line of this number; changes nothing past the last line.
    pub(crate) fn put(&mut self, line: u32, row: RunLine<S>)
        ensures { views S.Server self.new ≡ slice_set (views S.Server self.old) (line - 1) (view S.Server row) }
    {
        let place = (line as usize).saturating_sub(1);
        if place < self.count {
            self.all[place] = row;
        }
    }

    // The starts of a tick.
    pub(crate) fn open(&mut self, time: u32, wants: &[bool; 20])
        ensures { (ws : List Request) → Marks ws wants.now → views S.Server self.new ≡ lined (opened time ws) 1 (views S.Server self.old) }
    {
        // `wants` by place, and no `zip`: its invariant would speak of the inside of both iterators.
        for (i, row) in self.all[..self.count].iter_mut().enumerate() {
            row.open(time, wants[i]);
        }
    }

    // The ends of a tick in which a line was chosen.
    pub(crate) fn shut(&mut self, chosen: u32)
        ensures { views S.Server self.new ≡ lined (shut chosen) 1 (views S.Server self.old) }
    {
        for (i, row) in self.all[..self.count].iter_mut().enumerate() {
            row.shut(i as u32 + 1 == chosen);
        }
    }
}
