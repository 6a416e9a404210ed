// A plan's methods: whether it is one, its bank count, and the calls bank, depth, address, place, word and reverse map, each of which
// tests the plan and the sides itself.
ghost use Rattle.std.specs.Prelude.{◌≡◌, [], ◌∷◌, MatchResult, Ok, Err};
ghost use Rattle.std.proofs.Math.Option.{some};
ghost use Rattle.scope.specs.Search.{first_of};
ghost use Rattle.scope.specs.Plans.{at, is_plan, banks};
ghost use Rattle.scope.specs.Numbers.{plan_test, sides_test};
ghost use Rattle.scope.specs.Calls.{answered, bank, depth, address_test, address, locate};
ghost use Rattle.scope.specs.code.Words.{place, word};

use crate::formulas::{Layout, Spot, Tested, are_sides, is_inside};
use crate::{Place, Plan, Refusal};

impl Plan {
    // Whether it is a plan as defined.
    #[tactic(auto, unfolding(crate::specs::Plans::is_plan))]
    pub fn is_plan(self) -> bool
        ensures { result ≡ is_plan self }
    {
        self.b < self.a && self.d != 0 && self.banks() <= 1024
    }

    // Its bank count a × d, of any three numbers.
    pub fn banks(self) -> u64
        ensures { result ≡ banks self }
    {
        self.a as u64 * self.d as u64
    }

    // The plan as a tested one, or 11.
    pub fn tested(self) -> Result<Tested, Refusal>
        ensures { MatchResult result (λ t. t.plan ≡ self) (λ r. plan_test self ≡ some r) }
    {
        if !self.is_plan() {
            return Err(Refusal::NotPlan);
        }
        Ok(Tested { plan: self })
    }

    // The first tests of a call on a picture: 11, 12. What passes is put into no result, since a plan that a result hands on is copied
    // through memory.
    fn picture_outcome(self, w: u32, h: u32) -> Result<(), Refusal>
        ensures { result ≡ answered (first_of (plan_test self ∷ sides_test w h ∷ [])) Err (Ok tt) }
    {
        let is_plan = self.is_plan();
        if !is_plan {
            return Err(Refusal::NotPlan);
        }
        if !are_sides(w, h) {
            return Err(Refusal::Sides);
        }
        Ok(())
    }

    // The tests of a pixel of a picture: 11, 12, 14.
    fn pixel_outcome(self, w: u32, h: u32, i: i16, j: i16) -> Result<(), Refusal>
        ensures { result ≡ answered (address_test self w h (at i j)) Err (Ok tt) }
    {
        self.picture_outcome(w, h)?;
        if !is_inside(w, h, i, j) {
            return Err(Refusal::Outside);
        }
        Ok(())
    }

    // Its layout of a picture of width w and height h, or 11, 12.
    fn layout(self, w: u32, h: u32) -> Result<Layout, Refusal>
        ensures { MatchResult result (λ l. (l.tested.plan ≡ self) × (l.w ≡ w) × (l.h ≡ h)) (λ r. first_of (plan_test self ∷ sides_test w h ∷ []) ≡ some r) }
    {
        self.picture_outcome(w, h)?;
        let tested = Tested { plan: self };
        Ok(Layout { tested, w, h })
    }

    // The bank of a pixel, or 11.
    pub fn bank(self, i: i16, j: i16) -> Result<u64, Refusal>
        ensures { result ≡ bank self (at i j) }
    {
        Ok(self.tested()?.bank_number(i, j))
    }

    // The depth for a picture of width w and height h, or 11, 12.
    pub fn depth(self, w: u32, h: u32) -> Result<u64, Refusal>
        ensures { result ≡ depth self w h }
    {
        self.picture_outcome(w, h)?;
        let tested = Tested { plan: self };
        Ok(Layout { tested, w, h }.depth_number())
    }

    // A pixel of a picture of width w and height h, or 11, 12, 14.
    fn spot(self, w: u32, h: u32, i: i16, j: i16) -> Result<Spot, Refusal>
        ensures { MatchResult result (λ s. (s.layout.tested.plan ≡ self) × (s.layout.w ≡ w) × (s.layout.h ≡ h) × (at s.i s.j ≡ at i j)) (λ r. address_test self w h (at i j) ≡ some r) }
    {
        self.pixel_outcome(w, h, i, j)?;
        let tested = Tested { plan: self };
        let layout = Layout { tested, w, h };
        Ok(Spot { layout, i, j })
    }

    // The address of a pixel in a picture of width w and height h, or 11, 12, 14.
    pub fn address(self, w: u32, h: u32, i: i16, j: i16) -> Result<u64, Refusal>
        ensures { result ≡ address self w h (at i j) }
    {
        Ok(self.spot(w, h, i, j)?.address_number())
    }

    // The bank of a pixel and its word in the memory of a picture of width w and height h, or 11, 12, 14.
    #[inline(always)]
    pub fn place(self, w: u32, h: u32, i: i16, j: i16) -> Result<Place, Refusal>
        ensures { result ≡ place self w h (at i j) }
    {
        self.pixel_outcome(w, h, i, j)?;
        let tested = Tested { plan: self };
        let layout = Layout { tested, w, h };
        Ok(Spot { layout, i, j }.place_numbers())
    }

    // The word alone, or 11, 12, 14.
    #[inline(always)]
    pub fn word(self, w: u32, h: u32, i: i16, j: i16) -> Result<u64, Refusal>
        ensures { result ≡ word self w h (at i j) }
    {
        Ok(self.place(w, h, i, j)?.word)
    }

    // The pixel of bank k and address i, or 11, 12, 15.
    pub fn locate(self, w: u32, h: u32, k: u64, i: u64) -> Result<(i16, i16), Refusal>
        ensures { result ≡ locate self w h k i }
    {
        self.layout(w, h)?.reverse_map(k, i)
    }
}
