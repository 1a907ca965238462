// What a lane of the families that write every lane is made of: elements of the sources, added or subtracted, and the old lane.
#![tactic(auto)]

ghost use Rattle.std.specs.Prelude.{◌≡◌, ◌+◌, ◌*◌, ◌/◌, [], ◌∷◌, if◌then◌else◌};
ghost use Rattle.lanes.specs.Integer.{residue};
ghost use Rattle.lanes.specs.Sum.{element, total};
ghost use Rattle.sums.specs.Sums.{Governs};
ghost use Rattle.meaning.specs.Terms.{element_of, sum_of, pairwise_terms, selected, first_term, widening_terms};
ghost use Rattle.elements.specs.Needs.{HalfLanes};

use rows::Parameters;

// The integer that the bottom or the top half element of lane e stands for, at 64 bits.
fn half_at(operand: &[u8], w: usize, signed: bool, top: bool, e: usize) -> u64
    requires { HalfLanes w e operand.now }
    ensures { result ≡ residue 64 (element signed (w / 2) operand.now (selected top e)) }
{
    lanes::element_at(operand, w / 2, signed, 2 * e + usize::from(top))
}

// The sum of both half elements of lane e, at 64 bits.
fn pair_sum(operand: &[u8], w: usize, signed: bool, e: usize) -> u64
    requires { HalfLanes w e operand.now }
    ensures { result ≡ residue 64 (total (element signed (w / 2) operand.now (2 * e + 0) ∷ element signed (w / 2) operand.now (2 * e + 1) ∷ [])) }
{
    let bottom = half_at(operand, w, signed, false, e);
    let top = half_at(operand, w, signed, true, e);
    bottom.wrapping_add(top)
}

// Lane e of a pairwise accumulate: the old lane with both half elements of the source, if it is active.
pub fn pairwise_lane(p: &[u8], n: &[u8], d: &[u8], w: usize, signed: bool, e: usize) -> u64
    requires { HalfLanes w e n.now × HalfLanes w e d.now × Governs w p.now d.now }
    ensures { result ≡ residue 64 (sum_of (record { operand1 = n.now; operand2 = []; old = d.now }) (pairwise_terms signed w p.now e)) }
{
    let old = lanes::lane(d, w, e);
    if !lanes::is_active(p, w, e) {
        return old;
    }
    let gained = pair_sum(n, w, signed, e);
    old.wrapping_add(gained)
}

// The first element of a widening word's lane e: the selected half element of the first source, or in a wide form its lane e.
fn first_element(n: &[u8], w: usize, parameters: Parameters, e: usize) -> u64
    requires { HalfLanes w e n.now }
    ensures { result ≡ residue 64 (element_of (record { operand1 = n.now; operand2 = []; old = [] }) (first_term parameters w e)) }
{
    if parameters.wide {
        lanes::element_at(n, w, parameters.signed, e)
    } else {
        half_at(n, w, parameters.signed, parameters.top, e)
    }
}

// Lane e of a widening word: the first element and the selected half element of the second source, added or subtracted.
pub fn widening_lane(n: &[u8], m: &[u8], w: usize, parameters: Parameters, e: usize) -> u64
    requires { HalfLanes w e n.now × HalfLanes w e m.now }
    ensures { result ≡ residue 64 (sum_of (record { operand1 = n.now; operand2 = m.now; old = [] }) (widening_terms parameters w e)) }
{
    let first = first_element(n, w, parameters, e);
    let second = half_at(m, w, parameters.signed, parameters.top, e);
    if parameters.subtract {
        first.wrapping_sub(second)
    } else {
        first.wrapping_add(second)
    }
}
