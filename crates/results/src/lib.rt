// The results that are written as a knowledge, from bytes that were opened: the merged, raised, normalised and projected knowledge. Each
// function fills a table of words with known ticks, plans what is written for it, and then writes that into a lent buffer; a knowledge in
// normal form is normalised by copying it. This is the one crate that owns scratch for tables.
//
// The functions are total, and nothing but the buffer can change. Their contracts say what they leave for any input; laws say what that is
// where the bytes were opened under the limits.
#![tactic(auto)]

ghost use Rattle.std.specs.Prelude.{◌≡◌, ◌*◌, ◌≤◌, replicate};
ghost use Rattle.codec.specs.Answer.{answer_of};
ghost use Rattle.codec.specs.MethodEnded.{end_of};
ghost use Rattle.tables.specs.MethodWords.{stride, most_rows};
ghost use Rattle.sampling.specs.MethodTables.{table_of};
ghost use Rattle.results.specs.MethodOpened.{row_of, large_for, filled_by, table_end, work_end};
ghost use Rattle.results.specs.MethodOpened.{merged_end, raised_end, by_table_end, normalised_end, projected_end};

use codec::{Refusal, Replica, Span};
use layout::Limits;
use lookup::View;
use sampling::Filled;

// Rows of scratch: so many in small scratch, in middle scratch, and for one knowledge at the largest limits: row 0, one at the first item, one
// for each range, and two at the ends of a span. Two knowledges at the largest limits take `tables::ROWS`. A table of `n` rows takes
// 2 * STRIDE words of ids, 3 * n words of bounds and STRIDE * n words of ticks, all 0: to clear them is what a small call must not pay for.
const SMALL: usize = 12;

const MIDDLE: usize = 34;

const ONE: usize = layout::LARGEST_RANGES as usize + 4;

// The words of bounds and of ticks in each: a const argument takes no product.
const SMALL_BOUNDS: usize = 3 * SMALL;

const SMALL_TICKS: usize = tables::STRIDE * SMALL;

const MIDDLE_BOUNDS: usize = 3 * MIDDLE;

const MIDDLE_TICKS: usize = tables::STRIDE * MIDDLE;

const ONE_BOUNDS: usize = 3 * ONE;

const ONE_TICKS: usize = tables::STRIDE * ONE;

const TWO_BOUNDS: usize = 3 * tables::ROWS;

const TWO_TICKS: usize = tables::STRIDE * tables::ROWS;

// What is written by a table.
#[derive(Clone, Copy)]
enum Work<'a> {
    Normalise {
        s: &'a [u8],
        v: View,
    },
    Merge {
        s: &'a [u8],
        v: View,
        other: &'a [u8],
        w: View,
    },
    Raise {
        s: &'a [u8],
        v: View,
        p: Replica,
        tick: u64,
    },
    Project {
        s: &'a [u8],
        v: View,
        span: Span,
    },
}

impl<'a> Work<'a> {
    // The last row that the table may have.
    fn row(self) -> usize
        ensures { result ≡ row_of self.entry }
    {
        match self {
            Work::Normalise { v, .. } | Work::Raise { v, .. } => v.start.left as usize + 1,
            Work::Merge { v, w, .. } => v.start.left as usize + w.start.left as usize + 1,
            Work::Project { v, .. } => v.start.left as usize + 3,
        }
    }

    // Fills the table.
    fn fill(self, ids: &mut [u64], bounds: &mut [u64], t: &mut [u64]) -> Filled
        ensures { table_of ids.new bounds.new t.new result ≡ filled_by self.entry ids.old bounds.old t.old }
    {
        match self {
            Work::Normalise { s, v } => filling::fill_one(s, v, ids, bounds, t),
            Work::Merge { s, v, other, w } => filling::fill_two(s, v, other, w, ids, bounds, t),
            Work::Raise { s, v, p, tick } => filling::fill_raised(s, v, p, tick, ids, bounds, t),
            Work::Project { s, v, span } => filling::fill_span(s, v, span, ids, bounds, t),
        }
    }

    // Fills the table in scratch with so many words of bounds and of ticks, and writes what is planned for it.
    #[tactic(auto, using(crate::proofs::Opened::end_filled))]
    fn write_in<const BOUNDS: usize, const TICKS: usize>(
        self,
        limits: Limits,
        out: &mut [u8],
    ) -> Result<usize, Refusal>
        requires { (BOUNDS ≤ 3 * most_rows) × (TICKS ≤ stride * most_rows) }
        ensures { end_of out.new (answer_of result) ≡ table_end limits out.old
            (filled_by self.entry (replicate (2 * stride) 0) (replicate BOUNDS 0) (replicate TICKS 0)) }
    {
        let mut ids = [0u64; 2 * tables::STRIDE];
        let mut bounds = [0u64; BOUNDS];
        let mut t = [0u64; TICKS];
        let q = self.fill(&mut ids, &mut bounds, &mut t);
        preparing::conclude(q, limits, out, &ids, &bounds, &t)
    }

    // In scratch that has the last row that the table may have; the largest is given by its words of bounds and of ticks, so that a call
    // has no scratch on its stack that it never needs.
    fn write<const BOUNDS: usize, const TICKS: usize>(
        self,
        limits: Limits,
        out: &mut [u8],
    ) -> Result<usize, Refusal>
        requires { (BOUNDS ≡ 3 * large_for self) × (TICKS ≡ stride * large_for self) }
        ensures { end_of out.new (answer_of result) ≡ work_end limits self.entry out.old }
    {
        let row = self.row();
        if row < SMALL {
            return self.write_in::<SMALL_BOUNDS, SMALL_TICKS>(limits, out);
        }
        if row < MIDDLE {
            return self.write_in::<MIDDLE_BOUNDS, MIDDLE_TICKS>(limits, out);
        }
        self.write_in::<BOUNDS, TICKS>(limits, out)
    }
}

// Writes the normal form of what either of two knowledges knows. Inlined, so that a merge which is refused before lays nothing out for it.
#[tactic(auto, unfolding(crate::specs::MethodOpened::merged_end))]
#[inline(always)]
pub fn merge_opened(
    s: &[u8],
    v: View,
    other: &[u8],
    w: View,
    limits: Limits,
    out: &mut [u8],
) -> Result<usize, Refusal>
    ensures { end_of out.new (answer_of result) ≡ merged_end limits s.now v other.now w out.old }
{
    Work::Merge { s, v, other, w }.write::<TWO_BOUNDS, TWO_TICKS>(limits, out)
}

// Writes the normal form of what a knowledge knows with the tick of a replica raised to one that no range has.
#[tactic(auto, unfolding(crate::specs::MethodOpened::raised_end))]
pub fn raise_opened(
    s: &[u8],
    v: View,
    p: Replica,
    tick: u64,
    limits: Limits,
    out: &mut [u8],
) -> Result<usize, Refusal>
    ensures { end_of out.new (answer_of result) ≡ raised_end limits s.now v p tick out.old }
{
    Work::Raise { s, v, p, tick }.write::<ONE_BOUNDS, ONE_TICKS>(limits, out)
}

// Writes the normal form of a knowledge, whether it is in normal form or not.
#[tactic(auto, unfolding(crate::specs::MethodOpened::by_table_end))]
pub fn normalise_by_table(
    s: &[u8],
    v: View,
    limits: Limits,
    out: &mut [u8],
) -> Result<usize, Refusal>
    ensures { end_of out.new (answer_of result) ≡ by_table_end limits s.now v out.old }
{
    Work::Normalise { s, v }.write::<ONE_BOUNDS, ONE_TICKS>(limits, out)
}

// Writes the normal form of a knowledge: a copy of its bytes where they are in normal form.
pub fn normalise_opened(s: &[u8], v: View, limits: Limits, out: &mut [u8]) -> Result<usize, Refusal>
    ensures { end_of out.new (answer_of result) ≡ normalised_end limits s.now v out.old }
{
    if normal_form::normal_opened(s, v) {
        return results_copied::copy_whole(s, out);
    }
    normalise_by_table(s, v, limits, out)
}

// Writes the normal form of what a knowledge knows of the items in a span.
#[tactic(auto, unfolding(crate::specs::MethodOpened::projected_end))]
pub fn project_opened(
    s: &[u8],
    v: View,
    span: Span,
    limits: Limits,
    out: &mut [u8],
) -> Result<usize, Refusal>
    ensures { end_of out.new (answer_of result) ≡ projected_end limits s.now v span out.old }
{
    Work::Project { s, v, span }.write::<ONE_BOUNDS, ONE_TICKS>(limits, out)
}
