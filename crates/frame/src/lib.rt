// Where each bit stands: modes, headers, sync words, blocks and multiblocks. Clauses 7.1 to 7.3; document 01, "From octets to lane bits".
#![tactic(auto)]

pub mod blocks;
pub mod headers;
pub mod modes;
pub mod sync;
