// A turn of the walk.
ghost use Rattle.std.specs.Prelude.{◌≡◌, length};
ghost use Rattle.walk.specs.Tables.{chain_in};
ghost use Rattle.walk.specs.Walk.{PassedRight, RoomsOf};

use crate::rooms::Passed;
use crate::tables::Tables;

// A turn of the walk: what it reads, the module that it has passed, and what that leaves for a module of each number of cores and all after it.
#[derive(Clone, Copy)]
pub(crate) struct Turn<'a> {
    pub tables: Tables<'a>,
    pub passed: Passed,
    pub rooms: &'a [u32],
    ghost passed_right: { PassedRight (chain_in tables) tables.n tables.work.now passed },
    ghost rooms_right: { RoomsOf (chain_in tables) tables.n passed rooms.now },
    ghost rooms_long: { length rooms.now ≡ 33 },
}
