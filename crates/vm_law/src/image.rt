use crate::seq::Seq;

/// A flat image: `payload` is loaded at address 0, of which the first `code` bytes are the code part,
/// and vCPU 0 starts at `entry`.
#[derive(Drop)]
pub struct FlatImage {
    pub entry: u64,
    pub code: u64,
    pub payload: Seq<u8>,
}
