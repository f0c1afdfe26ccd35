// The module that the walk has passed, and what it leaves for those after it.
ghost use Rattle.std.specs.Prelude.{◌≡◌, length};
ghost use Rattle.walk.specs.Walk.{PassedRight, room_of, RoomsOf};
ghost use Rattle.walk.specs.Tables.{chain_in};

use crate::tables::Tables;

// The module that the walk has passed: in its place, with its copies and cores, what was left for it and all after it, and how many of the
// fewest cores it spares. A whole plan has so many.
#[derive(Clone, Copy)]
pub(crate) struct Passed {
    pub before: u8,
    pub from: u8,
    pub last: u8,
    pub copies: u8,
    pub cores: u8,
    pub spare: u8,
    pub whole: u8,
    pub left: u32,
}

impl Tables<'_> {
    // What is left for a module of q cores and all after it, one more than they may weigh.
    fn room_of(&self, m: Passed, q: u8) -> u32
        requires { PassedRight (chain_in self.now) self.now.n self.now.work.now m }
        ensures { result ≡ room_of (chain_in self.now) self.now.n m q }
    {
        if m.last == 0 {
            return m.left;
        }
        if !self.spares_at(m.before, m.from, m.last, m.copies, m.cores, q, m.spare) {
            return 0;
        }
        let own = self.price(m.from, m.last, m.copies, m.cores, q);
        (m.left as u64).saturating_sub(own) as u32
    }

    // That for each number of cores.
    pub(crate) fn rooms_of(&self, m: Passed, rooms: &mut [u32])
        requires { PassedRight (chain_in self.now) self.now.n self.now.work.now m × (length rooms.old ≡ 33) }
        ensures { RoomsOf (chain_in self.now) self.now.n m rooms.new × (length rooms.new ≡ 33) }
    {
        for q in 0..=self.board.cores {
            let room = self.room_of(m, q);
            rooms[q as usize] = room;
        }
    }
}
