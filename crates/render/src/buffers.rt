//! The drawing on what the caller lends: from a model's bytes to the image of its pile.
ghost use Rattle.std.specs.Prelude.{◌≡◌, ◌≤◌, ◌++◌, length, drop, unsigned_abs, IsOk, OnOk};
ghost use Rattle.lattice.specs.declared.TheConstants.{MOST_OFFSET};
ghost use Rattle.march.specs.declared.view.TheConstants.{MOST_PIXELS};
ghost use Rattle.march.specs.Deep.{IsDeep};
ghost use Rattle.march.specs.Checks.{view_answer};
ghost use Rattle.words.specs.declared.writing.TheConstants.{WORD};
ghost use Rattle.words.specs.Words.{four_bytes};
ghost use Rattle.readers.specs.Jobs.{job_numbers};
ghost use Rattle.scene.specs.Scenes.{scene_body};
ghost use Rattle.render.specs.declared.TheConstants.{MOST_BYTES};
ghost use Rattle.render.specs.Models.{job_pile, checked_model, input_model};
ghost use Rattle.render.specs.Render.{plain_of, body_drawing, drawing};
ghost use Rattle.render.specs.Laws.{ShowsBody, ShowsModel, ShowsInput, Files};
ghost use Rattle.render.specs.Steps.{model_of, pile_answer, model_answer};

use crate::fault::InputFault;
use crate::guard::{may_be_guarded, thickened};
use crate::read_parts;
use layers::{Cap, Meet, Shift, Unite};
use leaves::{MOST_COLUMNS, Sheet, Surface};
use march::{Deep, Pixel, ViewNumbers};
use plate::Plate;
use readers::Job;
use scene::Scene;
use solid::Solid;
use words::{WORD, put};

/// No stride is above this.
const LONGEST_STRIDE: i32 = 64;

/// What the caller lends: a record for each pixel of the largest view, and room for its image. What
/// draws on it goes on to lend the same records and bytes (`SameLoans`), so that what it leaves in
/// them is what the caller finds there.
#[derive(Drop)]
pub(super) struct Buffers<'a> {
    pub(super) records: &'a mut [Pixel],
    pub(super) out: &'a mut [u8],
    ghost records_enough: { MOST_PIXELS ≤ length records.now },
    ghost room_enough: { MOST_BYTES ≤ length out.now },
}

impl Buffers<'_> {
    ghost use Rattle.render.specs.Buffers.{lent_records, lent_bytes, outcome, SameLoans};

    /// The picture of a solid: a plate over the records is opened, swept until nothing marches, and
    /// written.
    fn picture<S: Solid>(&mut self, pile: &S, view: ViewNumbers) -> usize
        requires deep { IsDeep (S.body pile.now) }
        requires view_in_range { IsOk (view_answer view) }
        ensures value { let body = S.body pile.now in
            outcome result self.new
            ≡ body_drawing body (plain_of view) (lent_records self.old) (lent_bytes self.old) }
        ensures shows { ShowsBody (plain_of view) (S.body pile.now) (lent_bytes self.new) }
        ensures lender { SameLoans self.old self.new }
    {
        let records = &mut *self.records;
        let mut plate = Plate::new(records);
        plate.open(view).unwrap();
        let _ = plate.sweep(pile, u32::MAX).unwrap();
        plate.write(self.out).unwrap()
    }

    /// The picture of the pile over a sheet, which is shifted, and a scene.
    fn pile_up<T: Solid + Drop, S: Solid + Drop>(
        &mut self,
        sheet: T,
        scene: S,
        job: &Job,
    ) -> Result<usize, InputFault>
        requires sheet_reaches { unsigned_abs MOST_OFFSET ≤ (T.body sheet).reach }
        ensures value { let pile = job_pile (job_numbers job.now) (T.body sheet) (S.body scene) in
            outcome result self.new
            ≡ pile_answer pile job.now.view (lent_records self.old) (lent_bytes self.old) }
        ensures shows { let pile = job_pile (job_numbers job.now) (T.body sheet) (S.body scene) in
            OnOk result (ShowsBody (plain_of job.now.view) pile (lent_bytes self.new)) }
        ensures lender { SameLoans self.old self.new }
    {
        let moved = Shift::new(sheet, job.shift).unwrap();
        let clipped = Meet::new(job.clip, Unite::new(moved, scene));
        let pile = Cap::new(clipped, LONGEST_STRIDE).unwrap();
        Deep::of(&pile)?;
        Ok(self.picture(&pile, job.view))
    }

    /// The picture of a model. A guard of 1 or more is a thickness for the scene, which has to be
    /// exact then; at 0 that layer is absent.
    fn draw_model(
        &mut self,
        job: &Job,
        scene: &Scene,
        sheet: Sheet<'_>,
    ) -> Result<usize, InputFault>
        ensures value { let heights = sheet.entry.heights.now in
            let body = scene_body scene.now in
            let model = model_of (job_numbers job.now) body sheet.entry.size heights in
            outcome result self.new
            ≡ model_answer (checked_model model) (lent_records self.old) (lent_bytes self.old) }
        ensures shows { let heights = sheet.entry.heights.now in
            let body = scene_body scene.now in
            let model = model_of (job_numbers job.now) body sheet.entry.size heights in
            OnOk result (ShowsModel model (lent_bytes self.new)) }
        ensures lender { SameLoans self.old self.new }
    {
        if !may_be_guarded(scene, job.guard) {
            return Err(InputFault::Inexact);
        }
        let surface = Surface::new(sheet);
        // A guard of 0 is none.
        if job.guard == 0 {
            return self.pile_up(surface, scene, job);
        }
        let thick = thickened(scene, job.guard);
        self.pile_up(surface, thick, job)
    }

    /// Reads the input, and draws the picture.
    fn draw(&mut self, input: &[u8]) -> Result<usize, InputFault>
        ensures value { outcome result self.new
            ≡ model_answer (input_model input.now) (lent_records self.old) (lent_bytes self.old) }
        ensures shows { OnOk result (ShowsInput input.now (lent_bytes self.new)) }
        ensures lender { SameLoans self.old self.new }
    {
        let mut scene = Scene::new();
        // On no heap, since a caller in C lends none.
        let mut heights = [0; MOST_COLUMNS];
        let (job, size) = read_parts(input, &mut scene, &mut heights)?;
        let sheet = Sheet {
            size,
            heights: &heights[..size.columns()],
        };
        self.draw_model(&job, &scene, sheet)
    }

    /// Writes one word in front of the bytes. How many bytes it has.
    fn put(&mut self, word: u32) -> usize
        ensures wrote { lent_bytes self.new ≡ four_bytes word ++ drop WORD (lent_bytes self.old) }
        ensures kept { lent_records self.new ≡ lent_records self.old }
        ensures long { result ≡ WORD }
        ensures lender { SameLoans self.old self.new }
    {
        let out = &mut *self.out;
        put(out, 0, word).unwrap();
        WORD
    }

    /// Draws the picture, or writes the one word that says why the input is refused. How many bytes
    /// it wrote.
    pub(super) fn answer(&mut self, input: &[u8]) -> usize
        ensures value { outcome result self.new
            ≡ drawing (input_model input.now) (lent_records self.old) (lent_bytes self.old) }
        ensures contact { ShowsInput input.now (lent_bytes self.new) }
        ensures most { result ≤ MOST_BYTES }
        ensures files { Files }
        ensures lender { SameLoans self.old self.new }
    {
        match self.draw(input) {
            Ok(length) => length,
            Err(fault) => self.put(fault.word()),
        }
    }
}
