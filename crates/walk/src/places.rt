// A module in its place: whether it may stand there, and what it weighs.
ghost use Rattle.std.specs.Prelude.{◌≡◌, ◌-◌, ◌*◌, ◌≤◌, ◌<◌};
ghost use Rattle.search.specs.Best.{fits_at};
ghost use Rattle.slack.specs.Problem.{problem, sparing_on, price as price_of, Reached, need_on};
ghost use Rattle.walk.specs.Tables.{chain_in};

use crate::tables::Tables;
use guess::GRAIN;
use modules::Module;
use rests::served_in;
use weights::UNIT;

impl Tables<'_> {
    // Whether the module of tasks t + 1 to l, which ends within its reach, keeps the rules, is within n and has room, between modules of s
    // and q cores.
    fn fits_at(&self, s: u8, t: u8, l: u8, r: u8, p: u8, q: u8) -> bool
        requires { Reached (chain_in self.now) t l }
        ensures { result ≡ fits_at (problem (chain_in self.now)) self.now.n s t l r p q }
    {
        if r < 1 || p < 1 {
            return false;
        }
        if (self.board.cores as u32) < (s as u32) + (r as u32) * (p as u32) + (q as u32) {
            return false;
        }
        let first = t + 1;
        if !modules::rules_met(self.costs, self.board, first, l, r, p) {
            return false;
        }
        let m = Module {
            first,
            last: l,
            copies: r,
            cores: p,
        };
        let response = modules::response_of(self.costs, self.board, s, m, q);
        response * GRAIN <= self.n * (r as u64)
    }

    // What the module of tasks t + 1 to l, which ends within its reach, weighs before one of q cores (document 02, M-104): its cores, and what
    // it adds to the single-block time.
    pub(crate) fn price(&self, t: u8, l: u8, r: u8, p: u8, q: u8) -> u64
        requires { Reached (chain_in self.now) t l }
        ensures { (result ≡ price_of (chain_in self.now) t l r p q) × (result < 17592186044416) }
    {
        let m = Module {
            first: t + 1,
            last: l,
            copies: r,
            cores: p,
        };
        let ticks = modules::passage(self.costs, self.board, m, q);
        (UNIT as u64) * ((r as u64) * (p as u64)) + ticks
    }

    // Whether the module of tasks t + 1 to l, which ends within its reach and spares so many of the fewest cores, is one of a plan of the fewest
    // cores, between modules of s and q cores.
    pub(crate) fn spares_at(&self, s: u8, t: u8, l: u8, r: u8, p: u8, q: u8, spare: u8) -> bool
        requires { Reached (chain_in self.now) t l × (spare ≤ self.now.board.cores)
            × (r * p ≤ need_on (chain_in self.now) self.now.n s t p) × (spare ≡ need_on (chain_in self.now) self.now.n s t p - r * p) }
        ensures { result ≡ sparing_on (chain_in self.now) self.now.n s t l r p q }
    {
        let sent = modules::transfer(self.costs, self.board, l, p, q);
        served_in(self.work, self.board, l, q, spare, sent) && self.fits_at(s, t, l, r, p, q)
    }
}
