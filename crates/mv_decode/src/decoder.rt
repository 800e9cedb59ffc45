//! A decoder of the units of a stream.
ghost use Rattle.std.specs.Prelude.{◌≡◌, ◌*◌, ◌≤◌, ℕ, [], List, length, IfOk, IfSome, IsTrue, OnErr, OnOk, option_copied};
ghost use Rattle.mv_terms.specs.CodedPicture.{HasMacroblocks};
ghost use Rattle.mv_terms.specs.Ranges.{IsContext, IsHead};
ghost use Rattle.mv_terms.specs.UnitLists.{lent_unit};
ghost use Rattle.mv_bits.specs.Elements.{are_elements};
ghost use Rattle.mv_heads.specs.HeadsInTurn.{context_in};
ghost use Rattle.mv_vectors.specs.Predictable.{AllCanBeReconstructed};
ghost use Rattle.mv_planes.specs.References.{DecodedPicture};
ghost use Rattle.mv_slices.specs.Steps.{ReadsSlices};
ghost use Rattle.mv_units.specs.Profile.{CodedUnit, heads_in};
ghost use Rattle.mv_decode.specs.Units.{FitsAsFirst};
ghost use Rattle.mv_decode.specs.Stands.{StandsFor, HasAccepted, Decodes, KeepsUnits, IsLent, LendsLegal};
ghost use Rattle.mv_decode.specs.Steps.{IsPlaced, IsStoreFor, coded_as};

use mv_heads::HeadState;
use mv_planes::Coded;
use mv_recon::reconstruct;
use mv_slices::read_slices;
use mv_store::{Held, Lent, RefStore, Shown};
use mv_terms::{Context, Decision, Head, MacroLevels, NoMemory, UnitParts, Why};
use std::alloc::Global;

/// Decodes the units of a stream in turn.
#[derive(Drop)]
pub struct Decoder {
    heads: HeadState,
    store: RefStore,
    /// The head of the unit accepted last, or that of no picture before the first of them.
    head: Head,
    decisions: Vec<Decision>,
    levels: Vec<MacroLevels>,
}

impl Decoder {
    /// A decoder of units whose pictures have the size of this context. It takes three pictures, and the decisions and
    /// levels of one.
    pub fn start(alloc: Global, context: &Context) -> Result<Decoder, NoMemory>
        ensures { IfOk result (λ decoder.
            StandsFor context.now.mb_wide context.now.mb_high decoder []) }
    {
        let count = usize::from(context.mb_wide) * usize::from(context.mb_high);
        let decisions = vec![in alloc; Decision::NONE; count].map_err(|_| NoMemory)?;
        let levels = vec![in alloc; MacroLevels::NONE; count].map_err(|_| NoMemory)?;
        let store = RefStore::start(alloc, context.mb_wide, context.mb_high)?;
        Ok(Decoder {
            heads: HeadState::new(),
            store,
            head: Head::NONE,
            decisions,
            levels,
        })
    }

    /// Decodes the next unit, and answers what is shown now, or why the unit is refused: by its headers first, then by
    /// its slices. A refusal changes nothing that the decoder stands for.
    ///
    /// The first unit, if its headers are accepted, has the size of the context that the decoder was started with.
    pub fn unit(&mut self, parts: &UnitParts<'_>) -> Result<Shown, Why>
        requires elements { IsTrue (are_elements parts.now.slices.now) }
        requires stands { (mb_wide mb_high : ℕ) × (before : List CodedUnit)
            × StandsFor mb_wide mb_high self.old before
            × FitsAsFirst mb_wide mb_high before (lent_unit parts.now) }
        ensures decodes { (mb_wide mb_high : ℕ) (before : List CodedUnit)
            → StandsFor mb_wide mb_high self.old before
            → FitsAsFirst mb_wide mb_high before (lent_unit parts.now)
            → Decodes mb_wide mb_high self.new before (lent_unit parts.now) result }
        ensures refused { OnErr result (KeepsUnits self.old self.new) }
    {
        let before = self.heads;
        let head = self.heads.unit(parts)?;
        match read_picture(&head, parts.slices, &mut self.decisions, &mut self.levels) {
            Ok(()) => {}
            Err(why) => {
                self.heads = before;
                return Err(why);
            }
        }
        self.head = head;
        Ok(place(&head, &self.decisions, &self.levels, &mut self.store))
    }

    /// The context of the unit accepted last, or None before the first of them.
    pub fn context(&self) -> Option<&Context>
        ensures value { (mb_wide mb_high : ℕ) (before : List CodedUnit)
            → StandsFor mb_wide mb_high self.now before
            → option_copied result ≡ context_in (heads_in before) }
        ensures legal { IfSome result (λ context. IsContext context.now) }
    {
        self.heads.context()
    }

    /// Lends the unit accepted last, with its picture and the references that it had. No unit was refused since.
    pub fn coded(&self) -> Coded<'_>
        ensures lent { (mb_wide mb_high : ℕ) (u : CodedUnit) (before : List CodedUnit)
            → HasAccepted mb_wide mb_high self.now u before → IsLent result u before }
        ensures legal { (mb_wide mb_high : ℕ) (u : CodedUnit) (before : List CodedUnit)
            → HasAccepted mb_wide mb_high self.now u before → LendsLegal result }
    {
        let Held { refs, picture } = self.store.last(self.head.pic);
        Coded {
            head: &self.head,
            decisions: &self.decisions,
            levels: &self.levels,
            picture,
            refs,
            extended: self.heads.extended(),
        }
    }
}

/// Reads the decisions and the levels of a picture from its slices.
fn read_picture(
    head: &Head,
    slices: &[u8],
    decisions: &mut Vec<Decision>,
    levels: &mut Vec<MacroLevels>,
) -> Result<(), Why>
    requires head { IsHead head.now }
    requires elements { IsTrue (are_elements slices.now) }
    requires decisions { length decisions.old.items ≡ head.now.mb_wide * head.now.mb_high }
    requires levels { length levels.old.items ≡ head.now.mb_wide * head.now.mb_high }
    ensures reads { ReadsSlices head.now slices.now decisions.new.items levels.new.items result }
    ensures same_decisions { length decisions.new.items ≡ length decisions.old.items }
    ensures same_levels { length levels.new.items ≡ length levels.old.items }
    ensures predictable { OnOk result (AllCanBeReconstructed head.now decisions.new.items) }
{
    read_slices(head, slices, decisions, levels)
}

/// Decodes a picture into the store, whose pictures have its size, and answers what is shown now.
fn place(head: &Head, decisions: &[Decision], levels: &[MacroLevels], store: &mut RefStore) -> Shown
    requires stands { (before : List DecodedPicture) × IsStoreFor head.now store.old before }
    requires macroblocks { HasMacroblocks (coded_as head.now decisions.now levels.now) }
    requires precision { head.now.dc_precision ≤ 3 }
    requires decisions { AllCanBeReconstructed head.now decisions.now }
    ensures { (before : List DecodedPicture) → IsStoreFor head.now store.old before
        → IsPlaced store.new (coded_as head.now decisions.now levels.now) before result }
{
    let Lent { refs, current } = store.lend(head.pic);
    reconstruct(head, decisions, levels, &refs, current);
    store.commit(head.pic)
}
