ghost use Rattle.std.specs.Prelude.{◌≡◌, true};
ghost use Rattle.mt_chain.specs.Shelf.{Shelf, Opens, TakesBack};

use crate::keeper::Keeper;
use std::alloc::Global;

/// Why no store was handed out.
#[derive(Clone, Copy, Debug, PartialEq, Eq)]
pub enum DepotFault {
    /// The depot failed; its count of faults rose.
    Failed,
    /// The allocator had no memory; the count of faults stayed.
    NoMemory,
}

/// What hands stores out by their numbers, and takes them back.
///
/// It counts its faults, those of the stores that came back among them; the count stands still at
/// its end.
pub trait Depot: Drop {
    type Keeper: Keeper;

    ghost shelf: { Self → Shelf };

    /// Hands a store out. After a refusal all that the depot tells is as before.
    fn open_store(&mut self, alloc: Global, store: u32) -> Result<Self::Keeper, DepotFault>
        ensures { Opens Self.Keeper.state (shelf self.old) store result (shelf self.new) };

    /// Takes a store back that is out.
    fn take_back(&mut self, keeper: Self::Keeper)
        requires { (shelf self.old).out (Self.Keeper.state keeper).number ≡ true }
        ensures { TakesBack (shelf self.old) (Self.Keeper.state keeper) (shelf self.new) };
}
