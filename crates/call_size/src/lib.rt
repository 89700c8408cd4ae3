// How large a heap has to be: N, and the premise under which no allocation is refused for want of room. The same for the sharper rule, by which a
// smaller heap is enough.
#![tactic(auto)]

ghost use Rattle.std.specs.Prelude.{◌≡◌, eqb, if◌then◌else◌};
ghost use Rattle.machine.specs.Rounding.{rounded_up};
ghost use Rattle.theory_promises.specs.Demand3.{cycles};
ghost use Rattle.theory_promises.specs.Sharper.{short_cycles};
ghost use Rattle.call_size.specs.Sizing.{enough, suffices, Least};

// n over the pace u, rounded up. Pace 0 has no such number, and 0 is answered.
fn rounded_up(n: u64, u: u32) -> u64
    ensures { result ≡ (if eqb u 0 then 0 else rounded_up n u) }
{
    if u == 0 {
        return 0;
    }
    n.div_ceil(u64::from(u))
}

// N: (2M + 2)/U rounded up, the allocations during a cycle at the most. Pace 0 has none, and 0 is answered.
#[tactic(auto, unfolding(theory_promises::specs::Demand3::cycles))]
pub fn most_in_a_cycle(m: u32, u: u32) -> u64
    ensures { result ≡ (if eqb u 0 then 0 else cycles m u) }
{
    rounded_up(2 * u64::from(m) + 2, u)
}

// Whether m blocks at pace u are enough for k reachable ones: K + 2N ≤ M.
pub fn has_room(m: u32, u: u32, k: u32) -> bool
    ensures { result ≡ enough m u k }
{
    u != 0 && u64::from(k) + 2 * most_in_a_cycle(m, u) <= u64::from(m)
}

// N': (K + P + 2)/U rounded up, the allocations during a cycle at the most, where k blocks are reachable and p were ever used. Pace 0 has none, and
// 0 is answered.
#[tactic(auto, unfolding(theory_promises::specs::Sharper::short_cycles))]
pub fn most_in_a_short_cycle(k: u32, p: u32, u: u32) -> u64
    ensures { result ≡ (if eqb u 0 then 0 else short_cycles k p u) }
{
    rounded_up(u64::from(k) + u64::from(p) + 2, u)
}

// Whether p blocks at pace u are enough for k reachable ones, where no call asks for more than b blocks: K + 2N' + B - 1 ≤ P.
// Kept: beside has_room, one line each. They are two rules with an N each, and a function of both would take all five numbers.
pub fn is_enough(p: u32, u: u32, k: u32, b: u32) -> bool
    ensures { result ≡ suffices p u k b }
{
    u != 0 && u64::from(k) + 2 * most_in_a_short_cycle(k, p, u) + u64::from(b) <= u64::from(p) + 1
}

// The fewest blocks that are enough, and 0 where no heap is large enough. Any heap that has as many has room: it never uses more.
// Kept: 0 for none, and no Option: docs/SIZING.md gives hosts this answer, and the same loop in C.
pub fn least_blocks(u: u32, k: u32, b: u32) -> u32
    ensures { Least u k b result }
{
    for p in 1..machine::MOST_BLOCKS + 1 {
        if is_enough(p, u, k, b) {
            return p;
        }
    }
    0
}
