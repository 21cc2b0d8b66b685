// The line that says an entry.
ghost use Rattle.std.specs.Prelude.{◌≡◌, ◌+◌, ◌≤◌, length, if◌then◌else◌, Ok, Err, OnOk, nat_le};
ghost use Rattle.repertoire.specs.declared.refusals.Refusal.TheVariants.{BufferTooShort};
ghost use Rattle.frames.specs.Frames.{body_length, entry_kind, cost_digits, body as body_digits, line_of, over, CostFits, EntryFits, ReadsBack};

use super::{Entry, Kind, put_number};
use repertoire::Refusal;
use scale::WeaveCost;

// Writes a cost into its twenty digits.
fn put_cost(slot: &mut [u8], cost: WeaveCost)
    requires { length slot.old ≡ 20 }
    ensures digits { slot.new ≡ cost_digits cost }
    ensures fits { CostFits cost }
{
    let (float, rest) = slot.split_at_mut(4);
    let (yarns, picks) = rest.split_at_mut(8);
    put_number(float, u32::from(cost.first.value));
    put_number(yarns, cost.second.first.bits);
    put_number(picks, cost.second.second.value);
}

// Writes what stands behind the first byte of an entry, up to its line feed.
fn put_body(slot: &mut [u8], entry: Entry)
    requires { length slot.old ≡ body_length (entry_kind entry) }
    ensures digits { slot.new ≡ body_digits entry }
    ensures fits { EntryFits entry }
{
    match entry {
        Entry::Header(header) => {
            let (motifs, ends) = slot.split_at_mut(4);
            let (start, goal) = ends.split_at_mut(4);
            put_number(motifs, u32::from(header.motifs));
            put_number(start, u32::from(header.start));
            put_number(goal, u32::from(header.goal));
        }
        Entry::Link(link) => {
            let (from, rest) = slot.split_at_mut(4);
            let (to, cost) = rest.split_at_mut(4);
            put_number(from, u32::from(link.from));
            put_number(to, u32::from(link.to));
            put_cost(cost, link.cost);
        }
        Entry::Guide(cost) | Entry::Limits(cost) => put_cost(slot, cost),
        Entry::End => {}
    }
}

impl Entry {
    fn kind(&self) -> Kind
        ensures { result ≡ entry_kind self.now }
    {
        match self {
            Entry::Header(_) => Kind::Header,
            Entry::Link(_) => Kind::Link,
            Entry::Guide(_) => Kind::Guide,
            Entry::Limits(_) => Kind::Limits,
            Entry::End => Kind::End,
        }
    }
}

// Writes the line of an entry, its line feed included.
#[tactic(auto, using(crate::proofs::Writing::length_line), unfolding(crate::specs::Frames::line_of))]
fn put_line(slot: &mut [u8], entry: Entry)
    requires { length slot.old ≡ length (line_of entry) }
    ensures digits { slot.new ≡ line_of entry }
    ensures fits { EntryFits entry }
{
    let kind = entry.kind();
    let (first, rest) = slot.split_at_mut(2);
    let (body, feed) = rest.split_at_mut(kind.body_length());
    put_number(first, u32::from(u8::from(kind)));
    put_body(body, entry);
    feed.copy_from_slice(b"\n");
}

// Writes the line of an entry at a place, and says where it ends; where the buffer is too short, it stays as it was.
#[tactic(auto, using(crate::proofs::Writing::length_line, crate::proofs::RoundTrip::read_back))]
pub fn write(buffer: &mut [u8], at: usize, entry: Entry) -> Result<usize, Refusal>
    ensures value { result ≡ (if nat_le (at + length (line_of entry)) (length buffer.old) then Ok (at + length (line_of entry)) else Err BufferTooShort) }
    ensures after { buffer.new ≡ (if nat_le (at + length (line_of entry)) (length buffer.old) then over buffer.old at (line_of entry) else buffer.old) }
    ensures back { OnOk result (ReadsBack entry) }
{
    let length = entry.kind().body_length() + 3;
    if buffer.len().saturating_sub(at) < length {
        return Err(Refusal::BufferTooShort);
    }
    put_line(&mut buffer[at..at + length], entry);
    Ok(at + length)
}
