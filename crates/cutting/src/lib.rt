// Cutting widths until they fit: one by one where little is to be cut, else by one level.
// leasts and shares stand in a slice each, as the definitions have a list of each: the shares are cut in place against the leasts.
// `as` where a number of columns, a place or a capacity is known to fit the other type: a `TryFrom` would never fail.
#![tactic(auto)]

ghost use Rattle.std.specs.Prelude.{◌≡◌, ◌||◌, ◌&&◌, ◌+◌, ◌-◌, ◌≤◌, ◌<◌, ltb, eqb, length};
ghost use Rattle.common.specs.Lists.{sum};
ghost use Rattle.common.specs.Limits.{max_lines};
ghost use Rattle.cutting.specs.Cut.{pick, cut, gaps, Below};
ghost use Rattle.cutting.specs.Level.{level_of};
ghost use Rattle.cutting.specs.inner.Fill.{Summed, CutWidthsPre, HoldsLeasts, place, width_at, filled};

use std::cmp::Ordering;

// At most so many characters are taken one by one, with a look at every column for each: to find the level takes as many looks or more.
const FEW: u64 = 16;

// The gaps between n columns.
pub fn gaps_of(n: usize) -> u64
    ensures { result ≡ gaps n }
{
    n.saturating_sub(1) as u64
}

// The sum of the columns' figures, in 64 bits: the sizes of many columns pass 32.
pub fn total(figures: &[u32]) -> u64
    requires { length figures.now ≤ max_lines }
    ensures { Summed figures.now result }
{
    figures.iter().map(|x| u64::from(*x)).sum()
}

// A width y of the excess f is cut rather than a width x of the excess e.
fn beaten(e: u32, x: u32, f: u32, y: u32) -> bool
    ensures { result ≡ (ltb e f || (eqb e f && ltb x y)) }
{
    (e, x) < (f, y)
}

// The column to cut: of equal ones the first. The figures of the best one so far go along with its place: a look back at them for every column takes
// twice the time. A fold, since `max_by_key` answers the last of equal ones, and with `min_by_key` of a `Reverse` a layout of twelve columns that
// are cut takes 10 % more instructions.
fn pick_column(leasts: &[u32], wide: &[u32]) -> usize
    requires { Below leasts.now wide.now }
    ensures { result ≡ pick leasts.now wide.now (length wide.now) }
{
    let (best, _, _) = wide
        .iter()
        .zip(leasts)
        .enumerate()
        .fold((0, 0, 0), |(best, e, x), (i, (y, least))| {
            let f = *y - *least;
            if beaten(e, x, f, *y) {
                (i, f, *y)
            } else {
                (best, e, x)
            }
        });
    best
}

// The loop of `render_table_tree` that takes one character at a time until the widths, whose sum is given, fit the capacity beside their gaps.
fn cut_one_by_one(leasts: &[u32], capacity: u64, all: u64, wide: &mut [u32])
    requires holds_leasts { HoldsLeasts leasts.now wide.old capacity }
    requires summed { Summed wide.old all }
    ensures { wide.new ≡ cut leasts.now wide.old (capacity + gaps (length wide.old)) }
{
    for _ in capacity..all {
        let p = pick_column(leasts, wide);
        wide[p] -= 1;
    }
}

// The place of column i in the order of the characters left over: the smaller least first, then the higher column. No two columns have one place.
fn place_of(least: u32, i: usize) -> u64
    requires { i < max_lines }
    ensures { result ≡ place least i }
{
    u64::from(least) * 4096 + (4095 - i) as u64
}

// The width of column i at a level; one more, if its share has it, where its place is below the bound.
fn width_at(i: usize, least: u32, share: u32, level: u32, bound: u64) -> u32
    requires i_lt_max_lines { i < max_lines }
    requires least_le_share { least ≤ share }
    ensures { result ≡ width_at least share level (place least i) bound }
{
    if share - least <= level {
        return share;
    }
    if place_of(least, i) < bound {
        return least + level + 1;
    }
    least + level
}

// Columns whose shares overflow the capacity: the least and the share of each, and the capacity without the gaps.
#[derive(Clone, Copy)]
struct Tight<'a> {
    leasts: &'a [u32],
    shares: &'a [u32],
    capacity: u32,
    ghost holds_leasts: { HoldsLeasts leasts.now shares.now capacity },
    ghost over: { capacity < sum shares.now },
}

impl Tight<'_> {
    // The sum of all columns' widths at the level and the bound.
    fn total_at(&self, level: u32, bound: u64) -> u64
        ensures { result ≡ sum (filled self.now.leasts.now self.now.shares.now level bound) }
    {
        self.shares
            .iter()
            .zip(self.leasts)
            .enumerate()
            .map(|(i, (share, least))| u64::from(width_at(i, *least, *share, level, bound)))
            .sum()
    }

    // The level, by halving: at lo nothing overflows the capacity, above hi something does. No level above the capacity fits it.
    fn level(&self) -> u32
        ensures { result ≡ level_of self.now.leasts.now self.now.shares.now (self.now.capacity + gaps (length self.now.shares.now)) }
    {
        let mut lo: u32 = 0;
        let mut hi = self.capacity;
        // A while: each turn halves what is left between the two, so no range or list gives the turns.
        while lo < hi {
            let mid = hi - (hi - lo) / 2;
            if self.total_at(mid, 0) <= u64::from(self.capacity) {
                lo = mid;
            } else {
                hi = mid - 1;
            }
        }
        lo
    }

    // The bound at which the widths fill the capacity, by halving. From one bound to the next at most one column has one more, so none is skipped.
    fn bound(&self, level: u32) -> u64
        requires { level ≡ level_of self.now.leasts.now self.now.shares.now (self.now.capacity + gaps (length self.now.shares.now)) }
        ensures { sum (filled self.now.leasts.now self.now.shares.now level result) ≡ self.now.capacity }
    {
        let full = u64::from(self.capacity);
        let mut lo: u64 = 0;
        let mut hi = full * 4096 + 4096;
        // A while: it halves too, and it can end where the capacity is met.
        while lo + 1 < hi {
            let mid = lo + (hi - lo) / 2;
            let t = self.total_at(level, mid);
            match t.cmp(&full) {
                Ordering::Equal => return mid,
                Ordering::Less => lo = mid,
                Ordering::Greater => hi = mid,
            }
        }
        lo
    }
}

// The shares become the widths at the level and the bound. A least is read by its index: of what an adapter of `iter_mut`, as `zip`, wrote the
// language knows nothing.
fn fill_widths(leasts: &[u32], level: u32, bound: u64, wide: &mut [u32])
    requires below { Below leasts.now wide.old }
    requires wide_len_bound { length wide.old ≤ max_lines }
    ensures { wide.new ≡ filled leasts.now wide.old level bound }
{
    for (i, w) in wide.iter_mut().enumerate() {
        *w = width_at(i, leasts[i], *w, level, bound);
    }
}

// The widths by the level, where the shares overflow the capacity: a number of looks at the columns that does not grow with what is to be cut.
fn cut_by_level(leasts: &[u32], capacity: u32, wide: &mut [u32])
    requires holds_leasts { HoldsLeasts leasts.now wide.old capacity }
    requires room_bound { capacity < sum wide.old }
    ensures { wide.new ≡ cut leasts.now wide.old (capacity + gaps (length wide.old)) }
{
    let tight = Tight {
        leasts,
        shares: &*wide,
        capacity,
    };
    let level = tight.level();
    let bound = tight.bound(level);
    fill_widths(leasts, level, bound, wide);
}

// What the loop of `render_table_tree` that takes one character at a time leaves: nothing is cut where the widths fit with their gaps.
pub fn cut_widths(leasts: &[u32], width: u32, wide: &mut [u32])
    requires { CutWidthsPre leasts.now wide.old width }
    ensures { wide.new ≡ cut leasts.now wide.old width }
{
    let capacity = u64::from(width) - gaps_of(wide.len());
    let t = total(wide);
    if t <= capacity + FEW {
        cut_one_by_one(leasts, capacity, t, wide);
        return;
    }
    cut_by_level(leasts, capacity as u32, wide);
}
