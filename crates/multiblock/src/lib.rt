// Multiblocks written to a lane and read from it, by the gap between the data octets of their blocks: clauses 7.1.2, 7.1.3, 7.2.2 and 7.2.5;
// request 2.
#![tactic(auto)]

ghost use Rattle.std.specs.Prelude.{◌≡◌, leb, length};
ghost use Rattle.bits.specs.Choice.{pick};
ghost use Rattle.bits.specs.Order.{number, octets_of, word_bit, laid_at};
ghost use Rattle.frame.specs.Lane.{lane_octets, multiblock, fill_after, data_octets, first_bit, second_bit, lane_read};
ghost use Rattle.multiblock.specs.Shape.{shape};

use frame::blocks::Multiblock;
use frame::modes::Row;

// A mode's row, whose blocks have a shape of clause 7.1.2, and the octets of its multiblocks on a lane.
#[derive(Clone, Copy)]
pub struct Layout {
    pub row: Row,
    pub size: usize,
    ghost shaped: { shape row.gap ≡ row.gap },
    ghost sized: { size ≡ lane_octets row.gap },
}

// A multiblock that carries a sync word and 32 blocks of data, over the start of `lane`, and the fill register after it; nothing where it does not
// fit, and the register as it was.
#[tactic(auto, unfolding(crate::specs::Shape::shape))]
pub fn write(gap: u8, register: u32, sync: u32, blocks: &[u64; 32], lane: &mut [u8]) -> u32
    ensures value { result ≡ pick (leb (lane_octets (shape gap)) (length lane.old)) (fill_after (shape gap) register) register }
    ensures lane_after { lane.new ≡ laid_at (multiblock (shape gap) register sync (octets_of (word_bit blocks.now) 256)) 0 lane.old }
{
    if gap == 0 {
        blocks66::write(sync, blocks, lane);
        register
    } else {
        blocks80::write(register, sync, blocks, lane)
    }
}

// The multiblock at the start of `lane`; nothing where it is too short.
#[tactic(auto, unfolding(crate::specs::Shape::shape))]
pub fn read(gap: u8, lane: &[u8]) -> Multiblock
    ensures octets_value { result.octets ≡ data_octets (shape gap) (lane_read (shape gap) lane.now) 0 }
    ensures first_value { result.headers.first ≡ number (first_bit (shape gap) (lane_read (shape gap) lane.now) 0) 0 32 }
    ensures second_value { result.headers.second ≡ number (second_bit (shape gap) (lane_read (shape gap) lane.now) 0) 0 32 }
{
    if gap == 0 {
        blocks66::read(lane)
    } else {
        blocks80::read(lane)
    }
}
