//! A plate, and the calls on it.
ghost use Rattle.std.specs.Prelude.{◌≡◌, ◌≤◌, [], length, take, IsTrue, MatchResult};
ghost use Rattle.march.specs.Checks.{plain_view, blank_view};
ghost use Rattle.plate_log.specs.Sweep.{are_sane};
ghost use Rattle.plate_log.specs.Log.{area, pixels_after};
ghost use Rattle.plate_log.specs.Log.{sweeping, touching, reading, writing};
ghost use Rattle.plate_log.specs.Records.{pixels_of, line_on_records};
ghost use Rattle.plate_log.specs.Answers.{counted_answer, read_answer, write_answer, write_on_bytes};
ghost use Rattle.plate_log.specs.Opening.{opening};
ghost use Rattle.plate_log.specs.Example.{ExampleHolds};
ghost use Rattle.plate_log.specs.Law.{Promise, Whole};

use crate::image::put_image;
use crate::pixels::{count_marching, is_marching, renew, settle, sweep_all};
use march::{Deep, Pixel, View, ViewNumbers};
use plate_log::{HEAD, PlateFault};
use solid::Solid;
use words::WORD;

/// A plate over the records that its user lends. It has one pixel for each of its view's, row by
/// row; the records past the last pixel are never written.
#[derive(Drop)]
pub struct Plate<'a> {
    records: &'a mut [Pixel],
    view: View,
    ghost room: { area view ≤ length records.now },
    ghost are_sane: { IsTrue (are_sane view.far (take (area view) records.now)) },
}

impl<'a> Plate<'a> {
    ghost use Rattle.plate.specs.Plate.{view_of, records_of, StandsOver, SameLoan};

    /// A plate that is not opened: its view is one of no pixels, so that every call has a view to
    /// answer by.
    pub fn new(records: &'a mut [Pixel]) -> Plate<'a>
        ensures records { records_of result ≡ records.old }
        ensures view { plain_view (view_of result) ≡ blank_view }
        ensures empty { pixels_of (view_of result) (records_of result) ≡
            pixels_after (view_of result) [] }
        ensures lender { StandsOver result records.entry }
        ensures example { ExampleHolds }
    {
        Plate {
            records,
            view: View::blank(),
        }
    }

    /// Opens the plate anew, with a marching record for each pixel of the view. Refused as the view
    /// is, then with 18 for fewer records than pixels, it leaves the plate as it was.
    pub fn open(&mut self, numbers: ViewNumbers) -> Result<(), PlateFault>
        ensures value { (result, plain_view (view_of self.new), records_of self.new) ≡
            opening numbers (plain_view (view_of self.old)) (records_of self.old) }
        ensures begins { MatchResult result
            (λ _. pixels_of (view_of self.new) (records_of self.new) ≡
            pixels_after (view_of self.new) [])
            (λ _. self.new ≡ self.old) }
        ensures lender { SameLoan self.old self.new }
        ensures whole { Whole }
    {
        let view = View::new(numbers)?;
        let n = view.pixels();
        if n > self.records.len() {
            return Err(PlateFault::TooFewRecords);
        }
        renew(&mut self.records[..n]);
        self.view = view;
        Ok(())
    }

    /// Steps the marching pixels row by row, each until it settles, and stops once the budget is
    /// spent. The probes spent, and the pixels that still march. Refused, with 16, over a reach
    /// under 32,767, it leaves every record as it was.
    pub fn sweep<S: Solid>(&mut self, solid: &S, budget: u32) -> Result<(u32, u32), PlateFault>
        ensures line { (counted_answer result, records_of self.new) ≡
            line_on_records (view_of self.old) (records_of self.old)
            (sweeping (S.Solid.body solid.now) budget) }
        ensures promise { Promise (view_of self.old) (records_of self.old) (records_of self.new)
            (sweeping (S.Solid.body solid.now) budget) }
        ensures view { view_of self.new ≡ view_of self.old }
        ensures lender { SameLoan self.old self.new }
    {
        let deep = Deep::of(solid)?;
        let view = self.view;
        let pixels = &mut self.records[..view.pixels()];
        let spent = sweep_all(pixels, view, &deep, budget);
        let left = count_marching(pixels);
        Ok((spent, left))
    }

    /// Steps one pixel until it settles or the budget is spent. The probes spent, and 1 while the
    /// pixel marches, else 0. Refused with 19 for no such pixel, then with 16 over a reach under
    /// 32,767; it then leaves every record as it was.
    pub fn touch<S: Solid>(
        &mut self,
        i: u32,
        j: u32,
        solid: &S,
        budget: u32,
    ) -> Result<(u32, u32), PlateFault>
        ensures line { (counted_answer result, records_of self.new) ≡
            line_on_records (view_of self.old) (records_of self.old)
            (touching i j (S.Solid.body solid.now) budget) }
        ensures promise { Promise (view_of self.old) (records_of self.old) (records_of self.new)
            (touching i j (S.Solid.body solid.now) budget) }
        ensures view { view_of self.new ≡ view_of self.old }
        ensures lender { SameLoan self.old self.new }
    {
        let ray = self.view.ray_of(i, j)?;
        let deep = Deep::of(solid)?;
        let place = self.view.place_of(i, j).unwrap();
        let records = &mut *self.records;
        let pixel = &mut records[place];
        let spent = settle(pixel, ray, &deep, budget);
        Ok((spent, u32::from(is_marching(*pixel))))
    }

    /// The state of one pixel; refused, with 19, where the view has no such pixel.
    pub fn read(&self, i: u32, j: u32) -> Result<Pixel, PlateFault>
        ensures line { (read_answer result, records_of self.now) ≡
            line_on_records (view_of self.now) (records_of self.now) (reading i j) }
        ensures promise { Promise (view_of self.now) (records_of self.now) (records_of self.now)
            (reading i j) }
    {
        let place = self.view.place_of(i, j)?;
        Ok(self.records[place])
    }

    /// Writes the image; its length. Refused with 20 while a pixel marches, then with 21 for no
    /// room; it then writes no byte.
    pub fn write(&self, out: &mut [u8]) -> Result<usize, PlateFault>
        ensures line { (write_answer result out.new, out.new) ≡
            write_on_bytes (view_of self.now) (records_of self.now) out.old }
        ensures promise { Promise (view_of self.now) (records_of self.now) (records_of self.now)
            (writing (length out.old)) }
    {
        let pixels = &self.records[..self.view.pixels()];
        if count_marching(pixels) > 0 {
            return Err(PlateFault::StillMarching);
        }
        let size = WORD * (HEAD + pixels.len());
        if out.len() < size {
            return Err(PlateFault::NoRoom);
        }
        put_image(pixels, self.view, out);
        Ok(size)
    }
}
