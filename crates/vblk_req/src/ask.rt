use vm_law::Request;

/// What a chain asks for.
#[derive(PartialEq, Drop)]
pub enum Ask {
    /// A request that is carried out.
    Accept(Request),
    /// Nothing is left to do but to write a status byte: 0 where no sector is asked for, 1 where the request is refused,
    /// 2 where its type is unknown. `at` is the byte's address.
    Answer { status: u8, at: u64 },
    /// The chain has no header or no status byte.
    Bad,
}
