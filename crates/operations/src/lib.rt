// The calls that write a knowledge: normalise, merge and project; and the empty knowledge.
#![tactic(auto)]

ghost use Rattle.std.specs.Prelude.{◌≡◌, length};
ghost use Rattle.codec.specs.Answer.{answer_of};
ghost use Rattle.codec.specs.Part.{placed};
ghost use Rattle.codec.specs.Reply.{answer, after};
ghost use Rattle.layout.specs.Knowledge.{basic, encode};
ghost use Rattle.ticks.specs.Meaning.{empty_knowledge};
ghost use Rattle.ticks.specs.Calls.{normalise_reply, merge_reply, project_reply};

use codec::{Item, Refusal, Span};

// ---- the empty knowledge

// the length of the empty knowledge
pub const EMPTY: usize = 113;

// The bytes of the empty knowledge, 113 of them, where there is room.
pub fn write_empty(out: &mut [u8], at: usize)
    ensures { out.new ≡ placed out.old at (encode empty_knowledge) }
{
    let mut bytes = [0u8; EMPTY];
    bytes[3] = 5;
    bytes[11] = 1;
    bytes[19] = 5;
    bytes[22] = 16;
    bytes[30] = 24;
    bytes[33] = 16;
    bytes[36] = 24;
    bytes[39] = 1;
    bytes[43] = 21;
    bytes[47] = 1;
    bytes[51] = 1;
    bytes[59] = 23;
    bytes[63] = 1;
    bytes[67] = 22;
    bytes[71] = 1;
    bytes[107] = 25;
    bytes[108] = 1;
    codec::copy_part(&bytes, 0, EMPTY, out, at);
}

// ---- normalise

// Writes the normal form of a knowledge.
pub fn normalise(knowledge: &[u8], out: &mut [u8]) -> Result<usize, Refusal>
    ensures value { answer_of result ≡ answer (normalise_reply basic knowledge.now) (length out.old) }
    ensures out_after { out.new ≡ after (normalise_reply basic knowledge.now) out.old }
{
    let v = lookup::open_within(knowledge, layout::LIMITS)?;
    results::normalise_opened(knowledge, v, layout::LIMITS, out)
}

// ---- project

// Writes the projection of a knowledge on a span, from the first id to the last.
pub fn project(
    knowledge: &[u8],
    first: &[u8],
    last: &[u8],
    out: &mut [u8],
) -> Result<usize, Refusal>
    ensures value { answer_of result ≡ answer (project_reply basic knowledge.now first.now last.now)
        (length out.old) }
    ensures out_after { out.new ≡ after (project_reply basic knowledge.now first.now last.now)
        out.old }
{
    let v = lookup::open_within(knowledge, layout::LIMITS)?;
    if lookup::wrong_span(first, last) {
        return Err(Refusal::WrongIds);
    }
    let span = Span {
        first: Item::from_bytes(first),
        last: Item::from_bytes(last),
    };
    results::project_opened(knowledge, v, span, layout::LIMITS, out)
}

// ---- merge

// Writes the normal form of what either of two knowledges knows. All of the first is checked before any of the second.
pub fn merge(first: &[u8], second: &[u8], out: &mut [u8]) -> Result<usize, Refusal>
    ensures value { answer_of result ≡ answer (merge_reply basic first.now second.now) (length out.old) }
    ensures out_after { out.new ≡ after (merge_reply basic first.now second.now) out.old }
{
    let v = lookup::open_within(first, layout::LIMITS)?;
    let w = lookup::open_within(second, layout::LIMITS)?;
    results::merge_opened(first, v, second, w, layout::LIMITS, out)
}
