// The check of a knowledge's bytes, for every input of any length: one part after the other.
#![tactic(auto)]

ghost use Rattle.std.specs.Prelude.{◌≡◌};
ghost use Rattle.codec.specs.Total.{clamp};
ghost use Rattle.layout.specs.Checked.{checked_of};
ghost use Rattle.layout.specs.Knowledge.{basic};
ghost use Rattle.layout.specs.Permitted.{largest_replicas, largest_ranges};
ghost use Rattle.layout.specs.Parse.{checked, checked_by};

use codec::Refusal;
use layout::Counts;

// The check with the most replicas and the most ranges.
fn check_whole(s: &[u8], replicas: u32, ranges: u32) -> Result<Counts, Refusal>
    ensures { checked_of result ≡ checked replicas ranges basic.judge s.now }
{
    let r = check_parts::replica_map(s, replicas)?;
    let v = check_parts::vector_count(s, ranges, r.next)?;
    let e = check_parts::vector_list(s, r.number, v.number, v.next)?;
    let g = check_parts::range_list(s, ranges, v.number, e.next)?;
    let end = check_fields::closing_fields(s, g.next)?;
    if end.next != s.len() {
        return Err(Refusal::BytesLeftOver);
    }
    Ok(Counts {
        r: r.number,
        v: v.number,
        e: e.number,
        g: g.number,
    })
}

// Checks the bytes of a knowledge with limits of the caller's, each clamped to 1 to its largest: its counts, or the first fault.
pub fn check_within(s: &[u8], replicas: u32, ranges: u32) -> Result<Counts, Refusal>
    ensures { checked_of result ≡ checked (clamp replicas largest_replicas) (clamp ranges largest_ranges) basic.judge s.now }
{
    check_whole(
        s,
        codec::clamp(replicas, layout::LARGEST_REPLICAS),
        codec::clamp(ranges, layout::LARGEST_RANGES),
    )
}

// The same with document 01's limits.
pub fn check(s: &[u8]) -> Result<Counts, Refusal>
    ensures { checked_of result ≡ checked_by basic s.now }
{
    check_whole(s, layout::REPLICAS, layout::RANGES)
}
