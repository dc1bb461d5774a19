ghost use Rattle.std.specs.Prelude.{◌≡◌, ℕ, ◌≤◌, ◌+◌, length};
ghost use Rattle.vm_law.specs.Memory.{Memory, read_of, written};

/// Guest memory: a byte list of which the first part is code.
///
/// Memory comes in pages, some of which may not stand yet. A write makes the pages that it touches stand, and takes no
/// memory for it: contracts see beside the bytes for how many pages there is room, `spare`. As many as 512 bytes touch at
/// most two pages.
pub trait Bytes {
    /// The bytes and the code length.
    ghost memory: { Self → Memory };

    /// For how many pages there is room.
    ghost spare: { Self → ℕ };

    /// How many bytes there are.
    fn size(&self) -> u64
        ensures { result ≡ length (memory self.now).bytes };

    /// How many of them are code, from address 0 on.
    fn code(&self) -> u64
        ensures { result ≡ (memory self.now).code };

    /// Copies the bytes from an address on, as many as `into` holds.
    fn read(&self, at: u64, into: &mut [u8])
        requires { at + length into.old ≤ length (memory self.now).bytes }
        ensures { into.new ≡ read_of (memory self.now) at (length into.old) };

    /// Replaces the bytes from an address on, code or not, with at most 512 bytes. There is to be room for two pages.
    fn write(&mut self, at: u64, piece: &[u8])
        requires inside { at + length piece.now ≤ length (memory self.old).bytes }
        requires short { length piece.now ≤ 512 }
        requires room { 2 ≤ spare self.old }
        ensures memory { memory self.new ≡ written (memory self.old) at piece.now }
        ensures room { spare self.old ≤ spare self.new + 2 };
}
