//! A pile with every layer over solids of any make, and a picture of it: what the calls promise,
//! put together.
ghost use Rattle.std.specs.Prelude.{◌≡◌, IfOk, length};
ghost use Rattle.std.specs.Result.{result_map_both};
ghost use Rattle.refusal.specs.Codes.{pair};
ghost use Rattle.march.specs.Checks.{view_answer};
ghost use Rattle.checks.specs.Chained.{opened_view, first_refusal};
ghost use Rattle.checks.specs.Piles.{full_pile, layer_refusal, pile_refusal, picture_refusal};
ghost use Rattle.checks.specs.Piles.{IsFullPile, PictureRecords, PilePicture};

use crate::chained::two_sweeps;
use lattice::Point;
use layers::{Cap, LayerFault, Meet, Shift, Thicken, Unite};
use march::{Pixel, ViewNumbers};
use refusal::RefusalCode;
use solid::{Exact, Solid};

/// The numbers of the layers that take one.
#[derive(Clone, Copy)]
pub struct LayerNumbers {
    pub by: Point,
    pub thickness: i32,
    pub most: i32,
}

/// What a pile is made of: `moved`, shifted, united with `grown`, thickened; what that meets of
/// `clip`; and over it all a cap.
#[derive(Drop)]
pub struct PileParts<S, T, U> {
    pub moved: S,
    pub grown: T,
    pub clip: U,
    pub numbers: LayerNumbers,
}

/// A pile with every layer.
pub type FullPile<S, T, U> = Cap<Meet<Unite<Shift<S>, Thicken<T>>, U>>;

impl<S: Solid + Drop, T: Exact + Drop, U: Solid + Drop> PileParts<S, T, U> {
    /// Makes the pile. The first layer that is refused ends it, with its fault.
    pub fn pile(self) -> Result<FullPile<S, T, U>, LayerFault>
        ensures refused { layer_refusal result
            ≡ pile_refusal (S.body self.moved).reach self.numbers }
        ensures made { IfOk result (λ pile. IsFullPile self.numbers
            (S.body self.moved) (T.body self.grown) (U.body self.clip)
            (⟦<FullPile<S, T, U> as Solid>⟧.body pile)) }
    {
        let moved = Shift::new(self.moved, self.numbers.by)?;
        let grown = Thicken::new(self.grown, self.numbers.thickness)?;
        let clipped = Meet::new(Unite::new(moved, grown), self.clip);
        Cap::new(clipped, self.numbers.most)
    }

    /// Makes the pile, brings it to two sweeps of so many probes each, and reads a pixel. The first
    /// layer or call that is refused ends it, by its number and place.
    pub fn picture(
        self,
        records: &mut [Pixel],
        view: ViewNumbers,
        budget: u32,
        i: u32,
        j: u32,
    ) -> Result<Pixel, RefusalCode>
        ensures refused { let pile = full_pile self.numbers
            (S.body self.moved) (T.body self.grown) (U.body self.clip) in
            let layers = pile_refusal (S.body self.moved).reach self.numbers in
            let opened = opened_view (view_answer view) (length records.old) in
            let calls = first_refusal opened pile pile i j in
            result_map_both (λ _. tt) pair result ≡ picture_refusal layers calls }
        ensures records { let pile = full_pile self.numbers
            (S.body self.moved) (T.body self.grown) (U.body self.clip) in
            let layers = pile_refusal (S.body self.moved).reach self.numbers in
            let opened = opened_view (view_answer view) (length records.old) in
            PictureRecords layers opened pile budget records.old records.new }
        ensures shown { IfOk result (PilePicture view self.numbers
            (S.body self.moved) (T.body self.grown) (U.body self.clip) budget i j) }
    {
        let pile = self.pile().map_err(|fault| RefusalCode::of(&fault))?;
        let read = two_sweeps(records, view, &pile, &pile, budget, budget, i, j);
        read.map_err(|fault| RefusalCode::of(&fault))
    }
}
