// The walk: module by module, the first in module order after which the rest still fits in what is left.
ghost use Rattle.std.specs.Prelude.{◌≡◌, [], ◌≤◌, ◌<◌};
ghost use Rattle.layout.specs.Layout.{encode_plan};
ghost use Rattle.search.specs.Walk.{chosen};
ghost use Rattle.slack.specs.Problem.{problem, sparing_on, fewest_on};
ghost use Rattle.weights.specs.Cells.{no_plan, light_on, weight_on};
ghost use Rattle.walk.specs.Walk.{plan_on, room_of, FirstCores, FirstCopies, SomeNext};
ghost use Rattle.walk.specs.Tables.{chain_in};

use crate::rooms::Passed;
use crate::tables::Tables;
use crate::turn::Turn;
use modules::Module;
use sketch::SIDE;

impl Turn<'_> {
    // The first cores of a module with that last task and those copies that may come next, where some may.
    fn first_cores(&self, l: u8, r: u8) -> Option<u8>
        requires { (self.now.passed.last < l) × (l ≤ self.now.tables.board.tasks) × (1 ≤ r) × (r ≤ self.now.tables.board.cores) }
        ensures { FirstCores (chain_in self.now.tables) self.now.tables.n self.now.passed l r result }
    {
        for p in 1..=self.tables.board.cores / r {
            if self.may_come(l, r, p) {
                return Some(p);
            }
        }
        None
    }

    // The first copies, with their first cores, of a module with that last task that may come next, where some may. A function of its own in the
    // library too: inlined, its loops took twice the code.
    #[inline(never)]
    fn first_copies(&self, l: u8) -> Option<Module>
        requires { (self.now.passed.last < l) × (l ≤ self.now.tables.board.tasks) }
        ensures { FirstCopies (chain_in self.now.tables) self.now.tables.n self.now.passed l result }
    {
        for r in 1..=self.tables.board.cores {
            if let Some(p) = self.first_cores(l, r) {
                return Some(Module {
                    first: self.passed.last + 1,
                    last: l,
                    copies: r,
                    cores: p,
                });
            }
        }
        None
    }

    // The module that comes next, where some may.
    fn next_module(&self) -> Module
        requires { (self.now.passed.last < self.now.tables.board.tasks) × SomeNext (chain_in self.now.tables) self.now.tables.n self.now.passed }
        ensures { result ≡ chosen (problem (chain_in self.now.tables)) (sparing_on (chain_in self.now.tables) self.now.tables.n)
            (weight_on (chain_in self.now.tables) self.now.tables.n) self.now.passed.cores self.now.passed.last
            (room_of (chain_in self.now.tables) self.now.tables.n self.now.passed) }
    {
        for l in self.passed.last + 1..=self.tables.board.tasks {
            if let Some(x) = self.first_copies(l) {
                return x;
            }
        }
        unreachable!()
    }
}

impl Tables<'_> {
    // Fills blank plan bytes with the first of the lightest plans of so many cores, the fewest, within n.
    pub(crate) fn lay_path(&self, whole: u8, weight: u32, plan: &mut [u8])
        requires { (whole ≡ fewest_on (chain_in self.now) self.now.n) × (whole ≤ self.now.board.cores) × (weight ≡ light_on (chain_in self.now) self.now.n)
            × (weight < no_plan self.now.board.cores) × (plan.old ≡ encode_plan []) }
        ensures { plan.new ≡ encode_plan (plan_on (chain_in self.now) self.now.n) }
    {
        let left = weight + 1;
        let mut m = Passed {
            before: 0,
            from: 0,
            last: 0,
            copies: 0,
            cores: 0,
            spare: 0,
            whole,
            left,
        };
        let mut i: u32 = 0;
        // No `for`: a turn goes from the last task of a module to that of the next.
        while m.last < self.board.tasks {
            let mut rooms = [0u32; SIDE];
            self.rooms_of(m, &mut rooms);
            let turn = Turn {
                tables: *self,
                passed: m,
                rooms: &rooms,
            };
            let x = turn.next_module();
            let room = turn.rooms[x.cores as usize];
            let spare = turn.cores_left(x.cores) - x.copies * x.cores;
            layout::put_module(plan, i, x);
            m = Passed {
                before: m.cores,
                from: m.last,
                last: x.last,
                copies: x.copies,
                cores: x.cores,
                spare,
                whole,
                left: room,
            };
            i += 1;
        }
    }
}
