// Reads and writes of slots that are lent.
ghost use Rattle.std.specs.Prelude.{◌≡◌, ◌*◌, ◌≤◌, ◌++◌, map, length, take, drop, replicate, None, slice_index_or, slice_set};
ghost use Rattle.panel.specs.Phase.{as_claim};
ghost use Rattle.panel.specs.Panel.{column};

use exchanges::fitting::Size;
use labels::slip::Slip;

// What a slot holds, and silence past the end.
pub(crate) fn slot_at<L: Copy>(slots: &[Option<Slip<L>>], place: usize) -> Option<Slip<L>>
    ensures { result ≡ slice_index_or slots.now place None }
{
    slots.get(place).copied().flatten()
}

// Writes a slot; past the end there is none to write.
pub(crate) fn put_slot<L: Copy>(slots: &mut [Option<Slip<L>>], place: usize, slot: Option<Slip<L>>)
    ensures { slots.new ≡ slice_set slots.old place slot }
{
    // Kept by index: after `get_mut` a proof knows no element.
    if place < slots.len() {
        slots[place] = slot;
    }
}

// Makes the first slots silent.
pub(crate) fn silence<L: Copy>(slots: &mut [Option<Slip<L>>], many: usize)
    requires { many ≤ length slots.old }
    ensures { slots.new ≡ replicate many None ++ drop many slots.old }
{
    slots[..many].fill(None);
}

// A claim of this phase or a later one counts as silence.
fn counted_claim<L: Copy>(slot: Option<Slip<L>>, phase: u8) -> Option<Slip<L>>
    ensures { result ≡ as_claim phase slot }
{
    slot.filter(|s| s.phase < phase)
}

// Makes silent what does not count as a claim.
pub(crate) fn keep_claims<L: Copy>(heard: &mut [Option<Slip<L>>], phase: u8)
    ensures { heard.new ≡ map (as_claim phase) heard.old }
{
    for slot in heard.iter_mut() {
        *slot = counted_claim(*slot, phase);
    }
}

// Copies what the boards hold at one place to the first slots.
pub(crate) fn copy_column<L: Copy>(
    slots: &[Option<Slip<L>>],
    place: usize,
    size: Size,
    sent: &mut [Option<Slip<L>>],
)
    requires inside { place ≤ 9 }
    requires room { size.boards ≤ length sent.old }
    ensures { take size.boards sent.new ≡ column size.boards slots.now place }
{
    for (q, slot) in sent[..size.n()].iter_mut().enumerate() {
        *slot = slot_at(slots, 10 * q + place);
    }
}
