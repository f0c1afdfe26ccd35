// Whether a module may come next: the lightest rest after it still fits in what is left.
ghost use Rattle.std.specs.Prelude.{◌≡◌, ◌&&◌, ◌+◌, ◌-◌, ◌*◌, ◌≤◌, ◌<◌, length, get_or, eqb};
ghost use Rattle.search.specs.Walk.{goes_on};
ghost use Rattle.slack.specs.Problem.{problem, sparing_on, Reached, need_on};
ghost use Rattle.sketch.specs.Slacks.{slack_at};
ghost use Rattle.weights.specs.Cells.{Closed, weight_on};
ghost use Rattle.walk.specs.Walk.{LeftBy, marked_by, may_come};
ghost use Rattle.walk.specs.Tables.{chain_in};

use crate::turn::Turn;
use records::Board;
use rests::cores_needed;
use sketch::SIDE;
use threshold::REACHES;
use weights::weight_of;

// Whether a rest that weighs so much is marked, the one that comes after task l and has a first module of q cores; behind the last task, whether none
// comes.
fn marked(board: Board, l: u8, q: u8, weight: u32) -> bool
    ensures { result ≡ marked_by board.tasks l q weight }
{
    if l == board.tasks {
        q == 0
    } else {
        weight != 0
    }
}

impl Turn<'_> {
    // Whether the module l r p, which spares so many of the fewest cores, is one of a plan of the fewest cores where the next has q cores, and
    // there is room for it and the lightest rest.
    fn goes_on(&self, room: u32, l: u8, r: u8, p: u8, q: u8, spare: u8) -> bool
        requires { Reached (chain_in self.now.tables) self.now.passed.last l × (spare ≤ self.now.tables.board.cores)
            × (r * p ≤ need_on (chain_in self.now.tables) self.now.tables.n self.now.passed.cores self.now.passed.last p)
            × (spare ≡ need_on (chain_in self.now.tables) self.now.tables.n self.now.passed.cores self.now.passed.last p - r * p)
            × Closed (chain_in self.now.tables) self.now.tables.n self.now.tables.work.now self.now.passed.cores self.now.passed.last p
            × (1 ≤ p) × (p ≤ self.now.tables.board.cores) × (q ≤ self.now.tables.board.cores) }
        ensures { result ≡ goes_on (problem (chain_in self.now.tables)) (sparing_on (chain_in self.now.tables) self.now.tables.n)
            (weight_on (chain_in self.now.tables) self.now.tables.n) self.now.passed.cores self.now.passed.last (λ _. room) l r p q }
    {
        let rest = weight_of(self.tables.work, self.tables.board, p, l, q);
        if !marked(self.tables.board, l, q, rest) {
            return false;
        }
        if !self
            .tables
            .spares_at(self.passed.cores, self.passed.last, l, r, p, q, spare)
        {
            return false;
        }
        let weight = self.tables.price(self.passed.last, l, r, p, q) + (rest as u64);
        weight < (room as u64)
    }

    // The fewest cores of the rest after the module passed whose first module has p; of a whole plan where none is.
    pub(crate) fn cores_left(&self, p: u8) -> u8
        requires { (self.now.passed.last < self.now.tables.board.tasks) × (1 ≤ p) × (self.now.passed.cores + p ≤ self.now.tables.board.cores) }
        ensures { LeftBy (chain_in self.now.tables) self.now.tables.work.now self.now.passed p result }
    {
        if self.passed.last == 0 {
            return self.passed.whole;
        }
        let received = modules::transfer(
            self.tables.costs,
            self.tables.board,
            self.passed.last,
            self.passed.cores,
            p,
        );
        cores_needed(
            self.tables.work,
            self.tables.board,
            self.passed.last,
            p,
            received,
        )
    }

    // Whether no plan of the fewest cores starts with a module of p, where none is passed: without a slack none does.
    fn starts_short(&self, p: u8) -> bool
        requires { p ≤ self.now.tables.board.cores }
        ensures { result ≡ (eqb self.now.passed.last 0 && eqb (get_or self.now.tables.work.now (slack_at 0 p self.now.passed.whole) 0) 0) }
    {
        self.passed.last == 0
            && self.tables.work[(p as usize) * SIDE + (self.passed.whole as usize)] == 0
    }

    // Whether the module l r p may come next.
    pub(crate) fn may_come(&self, l: u8, r: u8, p: u8) -> bool
        requires { (self.now.passed.last < l) × (l ≤ self.now.tables.board.tasks) × (1 ≤ r) × (1 ≤ p) × (r * p ≤ self.now.tables.board.cores) }
        ensures { result ≡ may_come (chain_in self.now.tables) self.now.tables.n self.now.passed l r p }
    {
        let room = self.rooms[p as usize];
        if room == 0 {
            return false;
        }
        if self.tables.work[REACHES + (self.passed.last as usize) * SIDE + (p as usize)]
            < (l as u32)
        {
            return false;
        }
        if self.starts_short(p) {
            return false;
        }
        let left = self.cores_left(p);
        let used = r * p;
        if left < used {
            return false;
        }
        let spare = left - used;
        for q in 0..=spare {
            if self.goes_on(room, l, r, p, q, spare) {
                return true;
            }
        }
        false
    }
}
